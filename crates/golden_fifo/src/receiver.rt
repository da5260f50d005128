//! `Receiver`: writes the bytes that are sent on a line to the standard output.
use gg_bridge::Watch;
use std::io::Write;
use std::rt::Stdout;

/// Receives bytes from the line of a UART, and writes each to the standard output: a start bit of 0, eight bits of the byte, the least first,
/// and a stop bit of 1. A line that is idle is 1.
///
/// It needs only the proof that it can't panic. What it writes is not known to any contract.
#[derive(Drop)]
pub struct Receiver {
    out: Stdout,
    // How many cycles a bit lasts.
    period: u32,
    // How many cycles are left up to the middle of the next bit; 0 while the line is idle.
    wait: u32,
    // The bits of the byte so far, and how many they are.
    byte: u8,
    bits: u32,
}

impl Receiver {
    /// A receiver of a line with this many cycles for each bit.
    pub fn new(out: Stdout, period: u32) -> Receiver {
        Receiver {
            out,
            period,
            wait: 0,
            byte: 0,
            bits: 0,
        }
    }

    // Takes the line in the middle of a bit.
    fn take(&mut self, line: bool) {
        if self.bits < 8 {
            self.byte = self.byte >> 1 | if line { 128 } else { 0 };
            self.bits += 1;
            self.wait = self.period.max(1);
        } else {
            if line {
                let _ = self.out.write(&[self.byte]);
            }
            self.wait = 0;
        }
    }
}

impl Watch for Receiver {
    fn see(&mut self, seen: u128) {
        if self.wait > 1 {
            self.wait -= 1;
        } else if self.wait == 1 {
            self.take(seen == 1);
        } else if seen == 0 {
            self.bits = 0;
            self.wait = self
                .period
                .saturating_add(self.period.saturating_sub(1) / 2)
                .max(1);
        }
    }
}
