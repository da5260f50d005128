//! The steps of a file, line by line.

ghost use Rattle.std.specs.Prelude.{◌≡◌, IfOk};
ghost use Rattle.gg_replay.specs.steps_file.Naming.{first_place};
ghost use Rattle.gg_replay.specs.steps_file.Steps.{named_step, served_step, step_of, steps_of};

use crate::steps_file::naming::StepNames;
use crate::steps_file::words::Words;
use gg_net::Event;
use gg_trace::Lines;
use std::alloc::{AllocError, Global};

// The step that a word and one name give.
fn named_step(names: &StepNames<'_>, word: &[u8], name: &[u8]) -> Option<Event>
    ensures { result ≡ named_step names.now word.now name.now }
{
    if word == b"latch".as_slice() {
        let channel = names.channel(name)?;
        Some(Event::Latch { channel })
    } else if word == b"fire".as_slice() {
        let channel = names.channel(name)?;
        Some(Event::Fire { channel })
    } else if word == b"finish".as_slice() {
        let machine = names.machine(name)?;
        Some(Event::Finish { machine })
    } else {
        None
    }
}

// The step that serves a port of a machine.
fn served_step(names: &StepNames<'_>, machine: &[u8], port: &[u8]) -> Option<Event>
    ensures { result ≡ served_step names.now (first_place machine.now names.now.machines) port.now }
{
    let machine = names.machine(machine)?;
    let port = names.port(machine, port)?;
    Some(Event::Serve { machine, port })
}

// The step that a line is. Its bytes needn't be UTF-8: names are, so a line that isn't UTF-8 names nothing.
fn step_of(names: &StepNames<'_>, line: &[u8]) -> Option<Event>
    ensures { result ≡ step_of names.now line.now }
{
    let mut words = Words::of(line);
    let word = words.next()?;
    let name = words.next()?;
    match words.next() {
        None => named_step(names, word, name),
        Some(port) => match words.next() {
            None if word == b"serve".as_slice() => served_step(names, name, port),
            _ => None,
        },
    }
}

/// The steps of a file, one for each line.
///
/// A line that isn't a step gives `None`: it is empty, has too many or too few blanks, or has a word or a name that
/// doesn't exist.
///
/// # Errors
///
/// Returns `AllocError` if an allocation fails.
pub fn read_steps(
    alloc: Global,
    names: &StepNames<'_>,
    bytes: &[u8],
) -> Result<Vec<Option<Event>>, AllocError>
    ensures { IfOk result (λ steps. steps.items ≡ steps_of names.now bytes.now) }
{
    let mut lines = Lines::of(bytes);
    let mut steps = Vec::new(alloc);
    while let Some(line) = lines.next() {
        steps.push(step_of(names, line))?;
    }
    Ok(steps)
}
