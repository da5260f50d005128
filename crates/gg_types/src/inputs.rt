//! The Clock inputs of a module.
ghost use Rattle.std.specs.Prelude.{◌≡◌};
ghost use Rattle.gg_types.specs.Clocks.{is_clock_input as takes_clock};

use gg_ast::{Direction, GroundType, Port};

/// Whether a port is an input of type Clock.
pub fn is_clock_input(port: &Port) -> bool
    ensures { result ≡ takes_clock port.now }
{
    match (port.ty, port.direction) {
        (GroundType::Clock, Direction::Input) => true,
        (GroundType::Clock, Direction::Output) | (GroundType::UInt(_) | GroundType::SInt(_), _) => {
            false
        }
    }
}
