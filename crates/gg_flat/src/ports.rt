//! `Ports`: names with their types, in port order, such as the inputs and the outputs of a piece.
ghost use Rattle.std.specs.Prelude.{◌≡◌, ◌<◌, Some, IfOk, All, length};
ghost use Rattle.gg_flat.specs.Ports.{port_at, ports_at, in_ports};
ghost use Rattle.gg_flat.specs.inside.Ports.{out_ports};
ghost use Rattle.gg_flat.specs.WellFormed.{IsWellFormed};

use crate::piece::Piece;
use gg_bits::{Name, Ty};
use std::alloc::{AllocError, Global};
use std::marker::Model;

/// A port: its name, and the type of its values.
pub struct Port {
    /// The name.
    pub name: Name,
    /// The type of its values.
    pub ty: Ty,
}

impl Drop for Port {
    fn drop(self) {
        let Self { name, ty: _ } = self;
        drop(name);
    }
}

/// A list of ports. A contract sees it as the list. It is made from a `Vec`, without allocating.
pub struct Ports {
    items: Vec<Port>,
}

impl Drop for Ports {
    fn drop(self) {
        let Self { items } = self;
        drop(items);
    }
}

impl Model for Ports {
    ghost use Rattle.std.specs.Prelude.{List};
    ghost use Rattle.gg_flat.specs.declared.ports.Port.{Port};

    ghost Value = { List Port };

    ghost view = { λ ports. ports.items.items };
}

impl Ports {
    /// The ports, in order.
    pub fn as_slice(&self) -> &[Port]
        ensures { result.now ≡ self.now }
    {
        self.items.as_slice()
    }
}

impl From<Vec<Port>> for Ports {
    ghost from_gives = { λ items ports. ports ≡ items.items };

    fn from(items: Vec<Port>) -> Ports {
        Ports { items }
    }
}

// A signal as a port.
fn port_of(piece: &Piece, signal: u32) -> Result<Port, AllocError>
    requires { signal < length piece.now.signals }
    ensures { IfOk result (λ port. port_at piece.now signal ≡ Some port) }
{
    let ty = piece.signals()[signal as usize].ty;
    let count = piece.signal_count();
    prove!((signal as usize) < count);
    let name = piece.path(signal).unwrap().clone()?;
    Ok(Port { name, ty })
}

// These signals as ports.
fn ports_of(alloc: Global, piece: &Piece, signals: &[u32]) -> Result<Ports, AllocError>
    requires { All (λ s. s < length piece.now.signals) signals.now }
    ensures { IfOk result (λ ports. ports ≡ ports_at piece.now signals.now) }
{
    let mut ports = Vec::new(alloc);
    for signal in signals {
        ports.push(port_of(piece, *signal)?)?;
    }
    Ok(Ports::from(ports))
}

impl Piece {
    /// The ports that the piece gets from outside, in port order. The piece is well formed.
    ///
    /// # Errors
    ///
    /// Returns `AllocError` if an allocation fails.
    pub fn in_ports(&self, alloc: Global) -> Result<Ports, AllocError>
        requires { IsWellFormed self.now }
        ensures { IfOk result (λ ports. ports ≡ in_ports self.now) }
    {
        ports_of(alloc, self, self.ins())
    }

    /// These signals of the piece as ports, in this order.
    ///
    /// # Errors
    ///
    /// Returns `AllocError` if an allocation fails.
    pub fn ports(&self, alloc: Global, signals: &[u32]) -> Result<Ports, AllocError>
        requires { All (λ s. s < length self.now.signals) signals.now }
        ensures { IfOk result (λ ports. ports ≡ ports_at self.now signals.now) }
    {
        ports_of(alloc, self, signals)
    }

    /// The ports that the piece gives to the outside: the output ports in port order, and then the stops. The piece is
    /// well formed.
    ///
    /// # Errors
    ///
    /// Returns `AllocError` if an allocation fails.
    pub fn out_ports(&self, alloc: Global) -> Result<Ports, AllocError>
        requires { IsWellFormed self.now }
        ensures { IfOk result (λ ports. ports ≡ out_ports self.now) }
    {
        ports_of(alloc, self, self.outs())
    }
}
