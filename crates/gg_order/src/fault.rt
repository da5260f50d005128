//! Why a circuit has no order of evaluation.
use gg_bits::Ids;
use std::error::Error;
use std::fmt;

/// Why `order` gave no order.
#[derive(Debug, Drop)]
pub enum OrderFault {
    /// A combinational loop: distinct signals, by their numbers. Each reads the next, and the last reads the first. It
    /// begins with the signal that has the least path by bytes.
    Loop(Ids),
    /// An allocation failed.
    NoMemory,
}

impl fmt::Display for OrderFault {
    ghost use Rattle.std.specs.Prelude.{Some};
    ghost use Rattle.gg_order.specs.inside.Fault.{fault_text};

    ghost output = { λ fault. Some (fault_text fault) };

    fn fmt<W: fmt::Write>(&self, f: &mut fmt::Formatter<W>) -> fmt::Result {
        match self {
            OrderFault::Loop(_) => f.write_str("the circuit has a combinational loop"),
            OrderFault::NoMemory => f.write_str("out of memory"),
        }
    }
}

impl Error for OrderFault {}
