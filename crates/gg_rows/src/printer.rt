//! `RowPrinter`: rows are written.
ghost use Rattle.std.specs.Prelude.{◌≡◌, ◌≤◌, length};
ghost use Rattle.gg_rows.specs.inside.Printed.{PrintsRow};

use crate::taking::Rows;
use gg_clocks::Ratio;
use gg_flat::Ports;
use gg_io::{Ending, Sink, put};
use gg_trace::{acts, row_text};
use std::alloc::Global;
use std::marker::Model;

/// Writes rows: of each the first values, one for each port. The other values are conditions of stops, and the first row where a stop acts is the
/// last one. A stop acts only in a cycle where its clock has an edge.
#[derive(Drop)]
pub struct RowPrinter<'p> {
    alloc: Global,
    ports: &'p Ports,
    // the ratios of the clocks of the stops
    stops: &'p [Ratio],
}

impl<'p> Model for RowPrinter<'p> {
    ghost use Rattle.gg_rows.specs.inside.Printed.{RowForm};

    ghost Value = { RowForm };

    ghost view = { λ printer. record { ports = printer.ports.now; stops = printer.stops.now } };
}

impl<'p> RowPrinter<'p> {
    /// A printer for these ports, and for stops with clocks of these ratios. Without ratios each clock has an edge in each cycle.
    pub fn new(alloc: Global, ports: &'p Ports, stops: &'p [Ratio]) -> RowPrinter<'p>
        ensures { result ≡ record { ports = ports.now; stops = stops.now } }
    {
        RowPrinter {
            alloc,
            ports,
            stops,
        }
    }
}

impl<'p, K: Sink> Rows<K> for RowPrinter<'p> {
    ghost can_take = { λ form count. length form.ports ≤ count };

    ghost takes = { λ form. PrintsRow K.Sink form.stops form.ports };

    fn take(&self, taken: &mut K, cycle: u64, values: &[u128]) -> Result<bool, Ending> {
        let shown = self.ports.as_slice().len();
        let text = row_text(self.alloc, self.ports, cycle, &values[..shown])?;
        put(taken, text.as_bytes())?;
        Ok(!acts(self.stops, cycle, &values[shown..]))
    }
}
