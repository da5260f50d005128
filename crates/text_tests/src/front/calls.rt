//! The calls that are tested, and the check of their answers.
ghost use Rattle.std.specs.Prelude.{◌<◌, ◌^◌, length};

use super::fronts::tell_front;
use super::lines::{tell_lexed, tell_tokens};
use super::reading::put_circuit;
use super::sources::{Source, put};
use super::stages::tell_shape;
use gg_read::read_circuit;
use std::alloc::{AllocError, Global};
use std::process::Abort;

// A text, and the answer of a call on it, as a text.
pub(crate) type Row = (Source, &'static str);

// A call on a text.
#[derive(Clone, Copy)]
pub(crate) enum Call {
    // `gg_lex::lex`.
    Lex,
    // `gg_lex::tokens`.
    Tokens,
    // `gg_read::read_circuit`.
    Read,
    // `gg_front::front`.
    Front,
    // `gg_read::read_circuit`, `gg_shape::shape`, `gg_types::types`, `gg_elab::flatten` and `gg_order::order`.
    Stages,
}

// Checks the answer of a call on each text. A failure names the table and the row, counted from 0.
pub(crate) fn check_rows(rt: &impl Abort, alloc: Global, call: Call, table: &str, rows: &[Row]) {
    for (row, (source, wanted)) in rows.iter().enumerate() {
        let mut found = String::new(alloc);
        tell(&mut found, alloc, call, source).expect(rt, "there is memory");
        assert!(rt;
            found.as_str() == *wanted,
            "{table}, row {row}: told {found}, wanted {wanted}"
        );
    }
}

// Adds the answer of a call on a text.
fn tell(out: &mut String, alloc: Global, call: Call, source: &Source) -> Result<(), AllocError> {
    let mut text = String::new(alloc);
    put(&mut text, source)?;
    let bytes = match source {
        Source::Bytes(bytes) => bytes,
        _ => text.as_bytes(),
    };
    if bytes.len() >= 4_294_967_296 {
        return out.push_str("too long");
    }
    match call {
        Call::Lex => tell_lexed(out, alloc, text.as_str()),
        Call::Tokens => tell_tokens(out, alloc, text.as_str()),
        Call::Read => tell_read(out, alloc, bytes, false),
        Call::Front => tell_front(out, alloc, bytes),
        Call::Stages => tell_read(out, alloc, bytes, true),
    }
}

// Adds the circuit that is read from the bytes, or the fault of reading. If `further` is true, adds the answers of the
// further calls instead of the circuit.
fn tell_read(out: &mut String, alloc: Global, bytes: &[u8], further: bool) -> Result<(), AllocError>
    requires { length bytes.now < 2 ^ 32 }
{
    match read_circuit(alloc, bytes) {
        Ok(circuit) => {
            if further {
                tell_shape(out, alloc, &circuit)
            } else {
                put_circuit(out, &circuit)
            }
        }
        Err(fault) => write!(out, "{fault}"),
    }
}
