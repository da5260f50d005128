//! The text of the cause of a refused step.

ghost use Rattle.std.specs.Prelude.{◌≡◌, ◌++◌, IfOk, string_bytes};
ghost use Rattle.gg_replay.specs.steps_file.Cause.{cause_text};

use crate::steps_file::naming::StepNames;
use gg_net::{Event, StepRefusal};
use std::alloc::{AllocError, Global};

/// The text of the cause of a refused step.
///
/// It is the cause's name, followed by the name of the channel or port of the cause, after a blank. A port is a port of
/// the machine that the step names. For a full queue the number of tokens in it follows, after a blank, in decimal. A
/// channel or port without a name is written with no bytes. The exception is the port that is due: without a name it is
/// written `-`, which means that no port is due.
///
/// # Errors
///
/// Returns `AllocError` if an allocation fails.
pub fn cause_text(
    alloc: Global,
    names: &StepNames<'_>,
    step: Option<Event>,
    cause: StepRefusal,
) -> Result<String, AllocError>
    ensures { IfOk result (λ text. string_bytes text ≡ cause_text names.now step cause) }
{
    match cause {
        StepRefusal::Stranger => String::from_str(alloc, "Stranger"),
        StepRefusal::Ended => String::from_str(alloc, "Ended"),
        StepRefusal::Latched => String::from_str(alloc, "Latched"),
        StepRefusal::Fired => String::from_str(alloc, "Fired"),
        StepRefusal::NoToken { channel } => {
            with_name(alloc, "NoToken ", names.channel_name(channel))
        }
        StepRefusal::NeedsInput { channel } => {
            with_name(alloc, "NeedsInput ", names.channel_name(channel))
        }
        StepRefusal::Full { channel, len } => format!(in alloc;
            "Full {} {len}",
            names.channel_name(channel)
        ),
        StepRefusal::Order { due } => {
            with_name(alloc, "Order ", names.port_name(step, due).unwrap_or("-"))
        }
        StepRefusal::Unfired { channel } => {
            with_name(alloc, "Unfired ", names.channel_name(channel))
        }
        StepRefusal::Unserved { port } => {
            with_name(
                alloc,
                "Unserved ",
                names.port_name(step, port).unwrap_or(""),
            )
        }
    }
}

// A word and a name after it.
fn with_name(alloc: Global, word: &str, name: &str) -> Result<String, AllocError>
    ensures { IfOk result (λ text. string_bytes text ≡ word.now ++ name.now) }
{
    format!(in alloc; "{word}{name}")
}
