//! Ports of traces.
ghost use Rattle.std.specs.Prelude.{◌≡◌, ◌≤◌, IfOk};
ghost use Rattle.gg_trace.specs.Ports.{HasDistinctNames};

use gg_bits::Kind::{SInt, UInt};
use gg_bits::{Kind, Name, Ty};
use gg_flat::{Port, Ports};
use std::alloc::{AllocError, Global};

// The ports of a trace.
#[derive(Clone, Copy)]
pub(crate) enum Inputs {
    None,
    // `reset` of a counter.
    Reset,
    // `x` of eight bits and `y` of four.
    XAndY,
}

// A port with this name and type.
fn port(alloc: Global, name: &str, kind: Kind, width: u32) -> Result<Port, AllocError>
    requires low { 1 ≤ width }
    requires high { width ≤ 128 }
    ensures { IfOk result (λ port. port.name ≡ name.now) }
{
    Ok(Port {
        name: Name::from_str(alloc, name)?,
        ty: Ty::new(kind, width),
    })
}

// The ports.
pub(crate) fn ports_of(alloc: Global, inputs: Inputs) -> Result<Ports, AllocError>
    ensures { IfOk result HasDistinctNames }
{
    match inputs {
        Inputs::None => Ok(Ports::from(Vec::new(alloc))),
        Inputs::Reset => {
            let reset = port(alloc, "reset", UInt, 1)?;
            Ok(Ports::from(vec![in alloc; reset]?))
        }
        Inputs::XAndY => {
            let x = port(alloc, "x", UInt, 8)?;
            let y = port(alloc, "y", SInt, 4)?;
            Ok(Ports::from(vec![in alloc; x, y]?))
        }
    }
}
