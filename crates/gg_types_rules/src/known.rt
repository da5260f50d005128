//! What is known of the names of a module while its statements are checked one after another.
ghost use Rattle.std.specs.Prelude.{◌<◌, length};

use gg_shape_names::Namespace;
use gg_types::Own;

// The names of a module, which of them lead to an input port, and the type data of the first of them.
#[derive(Drop)]
pub(crate) struct Known<'b, 'a> {
    // The names of the circuit.
    pub(crate) names: &'b Namespace<'a>,
    // The module's place.
    pub(crate) number: u32,
    // For each declared name whether it leads to an input port through the drivers of wires and nodes.
    pub(crate) traced: Vec<bool>,
    // The type data of the first of the declared names.
    pub(crate) own: Vec<Own>,
    pub ghost within: { number < length names.now.modules },
}
