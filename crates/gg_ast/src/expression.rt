//! Expressions, references and literals (FIRRTL Specification, "Expressions").
use gg_bits::{Kind, Name, Op1, Op2, OpN};
use std::marker::Model;

/// A reference, of one to three names with dots between them (FIRRTL Specification, "References", "Sub-fields").
#[derive(Drop)]
pub enum Reference {
    /// `x`: a port, wire, register or node of the module.
    Local(Name),
    /// `i.p`: the port `p` of the instance `i`.
    PortOf(Name, Name),
    /// `m.r.addr`: the field `addr` of the port `r` of the memory `m`.
    FieldOf(Name, Name, Name),
}

/// The radix of a literal's digits.
#[derive(Clone, Copy, PartialEq, Eq)]
pub enum Radix {
    /// A text that begins with `b`.
    Binary,
    /// A text that begins with `o`.
    Octal,
    /// A number, without quotation marks.
    Decimal,
    /// A text that begins with `h`; its digits may be of either case.
    Hexadecimal,
}

/// A literal as it is written: `UInt<8>("h-3")` or `SInt<4>(-3)`. Whether its value fits is not checked here.
pub struct Literal {
    /// Whether it is a `UInt` or an `SInt`.
    pub kind: Kind,
    /// The width as written, which may be out of range.
    pub width: u32,
    /// The digits' radix.
    pub radix: Radix,
    /// Whether there is a `-` before the digits.
    pub negative: bool,
    /// The digits, at least one, as written: leading zeros and the letters' case are kept.
    pub digits: Name,
}

impl Drop for Literal {
    fn drop(self) {
        let Self {
            kind: _,
            width: _,
            radix: _,
            negative: _,
            digits,
        } = self;
        drop(digits);
    }
}

/// An expression. It is on the line of its statement, or of the reset that it belongs to. A contract sees it as a
/// `Term`, so two expressions are equal where their terms are.
#[cycle(expression)]
#[derive(Drop)]
pub struct Expr {
    /// Its operation or its leaf.
    pub kind: ExprKind,
}

/// The operation of an expression with its operands, or a leaf.
#[cycle(expression)]
#[derive(Drop)]
pub enum ExprKind {
    /// A reference to a named signal.
    Named(Reference),
    /// A literal.
    Constant(Literal),
    /// An operation on one value.
    Unary(Op1, Box<Expr>),
    /// An operation on two values; the condition of `validif` is its first.
    Binary(Op2, Box<Expr>, Box<Expr>),
    /// An operation on one value with the parameters `n` and `m`; `m` is 0 where the operation takes one parameter.
    Fixed(OpN, Box<Expr>, u32, u32),
    /// `mux(c, a, b)`: `a` where `c` is 1, otherwise `b`.
    Mux(Box<Expr>, Box<Expr>, Box<Expr>),
}

impl Model for Expr {
    ghost use Rattle.std.specs.Prelude.{List};
    ghost use Rattle.std.specs.Coded.{codes, code_by, coded_list};
    ghost use Rattle.std.proofs.Common.{arith};
    ghost use Rattle.gg_ast.specs.Term.{Term};
    ghost use Rattle.gg_ast.specs.inside.Term.{size_of};
    ghost use Rattle.gg_ast.specs.inside.Steps.{Step, steps_of, first_run, first_run-steps_of};

    ghost Value = { Term };

    ghost coded = { code_by (List Step) (coded_list (Prim.hlevel codes)) steps_of first_run first_run-steps_of };

    ghost use Rattle.gg_ast.specs.inside.TermOf.{term_of};

    ghost view = { λ e. term_of e.kind };

    ghost size = { size_of };

    ghost size_decreases = { λ e h. Prim.grind (arith) };
}
