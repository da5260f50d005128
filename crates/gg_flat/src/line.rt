//! Lines: the expression of a signal's value, as a list of nodes.
ghost use Rattle.std.specs.Prelude.{◌≡◌, ◌<◌, [], ◌∷◌, ◌++◌, length, IfOk, OnOk, OnErr};
ghost use Rattle.gg_bits.specs.Shape.{shape};
ghost use Rattle.gg_flat.specs.Line.{shape_at, shapes_of, op_at, line_shape};

use gg_bits::{Op1, Op2, OpN, Ty, Val};
use std::alloc::{AllocError, Global};
use std::marker::Model;

/// The operation of a node of a line. Its operands are earlier nodes of the same line, by their numbers.
///
/// These are the expressions of the FIRRTL Specification ("Expressions"): a reference, a literal, a primitive operation
/// or a multiplexer.
#[derive(Clone, Copy, PartialEq, Eq)]
pub enum Op {
    /// The value of a signal, named by its number.
    Ref(u32),
    /// A literal.
    Literal(Val),
    /// An operation on one value.
    One(Op1, u32),
    /// An operation on two values.
    Two(Op2, u32, u32),
    /// An operation on one value with the parameters `n` and `m`.
    Fix(OpN, u32, u32, u32),
    /// `mux`: the second if the first is 1, otherwise the third.
    Mux(u32, u32, u32),
}

/// A node of a line: its operation, and the type of its value.
#[derive(Clone, Copy, PartialEq, Eq)]
pub struct Node {
    /// The type of the value.
    pub ty: Ty,
    /// The operation.
    pub op: Op,
}

/// An expression as a list of nodes. Each node names only earlier ones; the last is the result.
///
/// A contract sees it as the list of its nodes.
pub struct Line {
    nodes: Vec<Node>,
}

impl Drop for Line {
    fn drop(self) {
        let Self { nodes } = self;
        drop(nodes);
    }
}

impl Model for Line {
    ghost use Rattle.std.specs.Prelude.{List};
    ghost use Rattle.gg_flat.specs.declared.line.Node.{Node};

    ghost Value = { List Node };

    ghost view = { λ line. line.nodes.items };
}

impl Clone for Line {
    ghost is_clone = { λ line copy. copy ≡ line };

    fn clone(&self) -> Result<Line, AllocError> {
        Ok(Line {
            nodes: self.nodes.clone()?,
        })
    }
}

impl Line {
    /// The line without a node.
    pub fn new(alloc: Global) -> Line
        ensures { result ≡ [] }
    {
        Line {
            nodes: Vec::new(alloc),
        }
    }

    /// The line without a node, with room for this many.
    ///
    /// # Errors
    ///
    /// Returns `AllocError` if an allocation fails.
    pub fn with_capacity(alloc: Global, nodes: usize) -> Result<Line, AllocError>
        ensures { IfOk result (λ line. line ≡ []) }
    {
        Ok(Line {
            nodes: Vec::with_capacity(alloc, nodes)?,
        })
    }

    /// Adds a node at the end.
    ///
    /// # Errors
    ///
    /// Returns `AllocError` if an allocation fails. The line then stays as it was.
    pub fn push(&mut self, node: Node) -> Result<(), AllocError>
        ensures ok { OnOk result (self.new ≡ self.old ++ node ∷ []) }
        ensures err { OnErr result (self.new ≡ self.old) }
    {
        self.nodes.push(node)?;
        Ok(())
    }

    /// Gives back the room that no node takes.
    pub fn shrink_to_fit(&mut self)
        ensures { self.new ≡ self.old }
    {
        self.nodes.shrink_to_fit();
    }

    /// How many nodes there are.
    pub fn len(&self) -> usize
        ensures { result ≡ length self.now }
    {
        self.nodes.len()
    }

    /// The nodes, in order.
    pub fn as_slice(&self) -> &[Node]
        ensures { result.now ≡ self.now }
    {
        self.nodes.as_slice()
    }

    /// The type of the result.
    pub fn ty(&self) -> Ty
        requires { 0 < length self.now }
        ensures { shape result ≡ line_shape self.now }
    {
        let nodes = self.as_slice();
        nodes[nodes.len() - 1].ty
    }
}

/// The type of a node.
pub fn type_of(nodes: &[Node], i: usize) -> Ty
    requires { i < length nodes.now }
    ensures { shape result ≡ shape_at (shapes_of nodes.now) i }
{
    nodes[i].ty
}

/// The operation of a node.
pub fn op_of(nodes: &[Node], k: usize) -> &Op
    requires { k < length nodes.now }
    ensures { result.now ≡ op_at nodes.now k }
{
    &nodes[k].op
}
