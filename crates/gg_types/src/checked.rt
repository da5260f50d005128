//! `Typed`: a circuit without faults of shape and types.
ghost use Rattle.std.specs.Prelude.{◌≡◌, ◌<◌, [], length};
ghost use Rattle.std.specs.Option.{option_map};
ghost use Rattle.gg_shape_names.specs.Modules.{module_at, Holds};
ghost use Rattle.gg_shape.specs.Judged.{IsShaped};
ghost use Rattle.gg_types.specs.Clocks.{clock_followed};
ghost use Rattle.gg_types.specs.inside.Typed.{IsTyped, sort};
ghost use Rattle.gg_types.specs.Types.{sort_named, type_faults};
ghost use Rattle.gg_graph.specs.inside.Graph.{IsOrderOf};

use crate::lookup::sort_of_name;
use crate::sort::{Own, Sort, Typing};
use gg_ast::Reference;
use gg_bits::{Items, Ty};
use gg_shape_names::Namespace;
use std::marker::Model;

/// A circuit with none of the faults F1 to F14: its names, their type data (`Own`), and an order of its modules.
///
/// A contract sees the circuit, and the modules' places in that order.
pub struct Typed<'a> {
    names: Namespace<'a>,
    // For each module, by its place, the type data of its names.
    own: Vec<Items<Own>>,
    // For each module, by its place, the number of the Clock input that each of its names leads to.
    clocks: Vec<Items<Option<u32>>>,
    order: Vec<u32>,
}

impl Drop for Typed<'_> {
    fn drop(self) {
        let Self {
            names,
            own,
            clocks,
            order,
        } = self;
        drop(names);
        drop(own);
        drop(clocks);
        drop(order);
    }
}

impl<'a> Model for Typed<'a> {
    ghost use Rattle.gg_ast.specs.contracts.expression.Expr as expression;
    ghost use Rattle.std.specs.Coded.{codes};
    ghost use Rattle.gg_types.specs.inside.Typed.{TypedTree, IsTyped};

    ghost Value = { TypedTree };

    ghost coded = { Prim.hlevel (codes, expression.the_row.coded) };

    ghost view = { λ t. record { circuit = t.names; order = t.order.items } };

    ghost invariant = { λ t. IsTyped t.names t.order.items t.own.items t.clocks.items };
}

impl<'a> Typed<'a> {
    /// A circuit without faults, with what is known of the names of each module, by its place: their type data, and the
    /// numbers of the Clock inputs that they lead to.
    pub fn new(
        names: Namespace<'a>,
        own: Vec<Items<Own>>,
        clocks: Vec<Items<Option<u32>>>,
        order: Vec<u32>,
    ) -> Typed<'a>
        requires { IsTyped names order.items own.items clocks.items }
        ensures { result ≡ record { circuit = names.entry; order = order.items } }
    {
        Typed {
            names,
            own,
            clocks,
            order,
        }
    }

    /// The names of the circuit, and the circuit itself. The circuit has none of the faults F1 to F14.
    pub fn names(&self) -> &Namespace<'a>
        ensures names { result.now ≡ self.now.circuit }
        ensures shaped { IsShaped self.now.circuit }
        ensures faultless { type_faults self.now.circuit ≡ [] }
    {
        &self.names
    }

    /// The places of the circuit's modules, each after all modules that it has instances of.
    pub fn order(&self) -> &[u32]
        ensures order { result.now ≡ self.now.order }
        ensures ordered { IsOrderOf (Holds self.now.circuit.modules) (length self.now.circuit.modules) self.now.order }
    {
        self.order.as_slice()
    }

    /// The type of what a reference names in the module at this place, or none if it names nothing that has a value.
    pub fn typing(&self, number: u32, reference: &Reference) -> Option<Typing>
        requires there { number < length self.now.circuit.modules }
        ensures { option_map sort result ≡ sort_named self.now.circuit.modules (module_at self.now.circuit.modules number) reference.now }
    {
        let own = self.own[number as usize].as_slice();
        match sort_of_name(&self.names, number, own, reference)? {
            Sort::Bits(kind, width) => Some(Typing::Ground(Ty::new(kind, width))),
            Sort::Clock => Some(Typing::Clock),
        }
    }

    /// The Clock input that a reference follows in the module at this place, through the drivers of wires and nodes: its
    /// number among the module's Clock inputs, in port order from 0. None if it follows none.
    pub fn clock(&self, number: u32, reference: &Reference) -> Option<u32>
        requires there { number < length self.now.circuit.modules }
        ensures { result ≡ clock_followed (module_at self.now.circuit.modules number) reference.now }
    {
        match reference {
            Reference::Local(name) => {
                let place = self.names.place(number, name)?;
                match self.clocks[number as usize].as_slice().get(place) {
                    Some(clock) => *clock,
                    None => None,
                }
            }
            Reference::PortOf(_, _) | Reference::FieldOf(_, _, _) => None,
        }
    }
}
