//! The answer of reading a text for a circuit.
ghost use Rattle.std.specs.Prelude.{IfSome};
ghost use Rattle.gg_snap.specs.text.Known.{CanSave};

use gg_front::front;
use gg_order::Design;
use gg_snap::{read_snap, snap_text};
use std::alloc::{AllocError, Global};
use std::process::Abort;

// A text, and the answer of reading it: `ok`, or the fault as it is printed.
pub(crate) type Row = (&'static str, &'static str);

// The design of a circuit. `None` if it has a fault or is too long, or if an allocation fails.
fn design_of(alloc: Global, circuit: &str) -> Option<Design>
    ensures { IfSome result (λ design. CanSave design.circuit design.tree) }
{
    let bytes = circuit.as_bytes();
    if bytes.len() >= 4_294_967_296 {
        return None;
    }
    match front(alloc, bytes) {
        Ok(design) => Some(design),
        Err(fault) => {
            drop(fault);
            None
        }
    }
}

// Adds `ok` if a text is a snapshot of a design, and is written again as it was. Adds the fault if it is none.
fn tell(out: &mut String, alloc: Global, design: &Design, text: &str) -> Result<(), AllocError>
    requires { CanSave design.now.circuit design.now.tree }
{
    match read_snap(alloc, design, text.as_bytes()) {
        Ok(snap) => {
            let written = snap_text(alloc, &snap)?;
            if written.as_str() == text {
                out.push_str("ok")
            } else {
                out.push_str("other")
            }
        }
        Err(fault) => write!(out, "{fault}"),
    }
}

// Adds the answer of reading a text for a circuit.
fn tell_for(out: &mut String, alloc: Global, circuit: &str, text: &str) -> Result<(), AllocError> {
    match design_of(alloc, circuit) {
        Some(design) => tell(out, alloc, &design, text),
        None => out.push_str("no design"),
    }
}

// Checks the answer of reading each text for a circuit. A failure names the circuit and the row, counted from 0.
pub(crate) fn check_rows(rt: &impl Abort, alloc: Global, name: &str, circuit: &str, rows: &[Row]) {
    for (row, (text, wanted)) in rows.iter().enumerate() {
        let mut found = String::new(alloc);
        tell_for(&mut found, alloc, circuit, *text).expect(rt, "there is memory");
        assert!(rt;
            found.as_str() == *wanted,
            "{name}, row {row}: told {found}, wanted {wanted}"
        );
    }
}
