//! The line of a machine, and the line of a channel.
ghost use Rattle.std.specs.Prelude.{◌≡◌, ◌++◌, IfOk, OnOk, codes, decimal, string_bytes};
ghost use Rattle.gg_bits.specs.Shape.{shape};
ghost use Rattle.gg_cut_reference.specs.text.CheckText.{pipe_text, type_text};
ghost use Rattle.gg_cut_reference.specs.inside.PlanText.{channel_names, line_of_channel, line_of_machine, machine_names};

use crate::text::names::machine_name;
use crate::text::needs::needs_text;
use gg_bits::{Kind, Ty};
use gg_cut_plan::{Channel, Machine};
use itoa::Buffer;
use std::alloc::{AllocError, Global};

// The text of a type.
fn type_text(alloc: Global, ty: Ty) -> Result<String, AllocError>
    ensures { IfOk result (λ text. string_bytes text ≡ type_text (shape ty)) }
{
    let width = ty.width;
    match ty.kind {
        Kind::UInt => format!(in alloc; "UInt<{width}>"),
        Kind::SInt => format!(in alloc; "SInt<{width}>"),
    }
}

/// The line of a machine: its name and its host's number.
///
/// # Errors
///
/// Returns `AllocError` if an allocation fails.
pub fn machine_line(alloc: Global, machine: &Machine) -> Result<String, AllocError>
    ensures { IfOk result (λ line. string_bytes line ≡ line_of_machine machine.now) }
{
    let mut buffer = Buffer::new();
    let mut line = String::from_str(alloc, "machine ")?;
    line.push_str(machine.name.as_str())?;
    line.push_str(" host ")?;
    line.push_str(buffer.format(machine.host))?;
    line.push_str("\n")?;
    Ok(line)
}

// The front of a channel's line: the names of the channel and its machines.
fn line_front(
    alloc: Global,
    name: &str,
    producer: &str,
    consumer: &str,
) -> Result<String, AllocError>
    ensures { IfOk result (λ line. string_bytes line ≡ codes "channel " ++ name.now ++ codes " " ++ producer.now ++ codes " " ++ consumer.now) }
{
    let mut line = String::from_str(alloc, "channel ")?;
    line.push_str(name)?;
    line.push_str(" ")?;
    line.push_str(producer)?;
    line.push_str(" ")?;
    line.push_str(consumer)?;
    Ok(line)
}

// The word on the line of a channel with a pipe.
fn pipe_text(pipe: bool) -> &'static str
    ensures { result.now ≡ pipe_text pipe }
{
    if pipe { " pipe" } else { "" }
}

// The rest of a channel's line: the type, the capacity, the pipe and the needs.
fn push_rest(
    line: &mut String,
    ty: &str,
    capacity: u32,
    pipe: bool,
    needs: &str,
) -> Result<(), AllocError>
    ensures { OnOk result (string_bytes line.new ≡ string_bytes line.old ++ codes " " ++ ty.now ++ codes " capacity " ++ decimal capacity ++ pipe_text pipe ++ codes " needs" ++ needs.now ++ codes "\n") }
{
    let mut buffer = Buffer::new();
    line.push_str(" ")?;
    line.push_str(ty)?;
    line.push_str(" capacity ")?;
    line.push_str(buffer.format(capacity))?;
    line.push_str(pipe_text(pipe))?;
    line.push_str(" needs")?;
    line.push_str(needs)?;
    line.push_str("\n")
}

/// The line of a channel of a plan with these machines and channels. It has the channel's name, its two machines, its
/// type, its capacity, the word `pipe` if it has a pipe, and the names of the channels that it needs, or `-`.
///
/// # Errors
///
/// Returns `AllocError` if an allocation fails.
pub fn channel_line(
    alloc: Global,
    machines: &[Machine],
    channels: &[Channel],
    channel: &Channel,
) -> Result<String, AllocError>
    ensures { IfOk result (λ line. string_bytes line ≡ line_of_channel (machine_names machines.now) (channel_names channels.now) channel.now) }
{
    let producer = machine_name(machines, channel.producer);
    let consumer = machine_name(machines, channel.consumer);
    let ty = type_text(alloc, channel.ty)?;
    let needs = needs_text(alloc, channels, channel.needs.as_slice())?;
    let mut line = line_front(alloc, channel.name.as_str(), producer, consumer)?;
    push_rest(
        &mut line,
        ty.as_str(),
        channel.capacity,
        channel.pipe,
        needs.as_str(),
    )?;
    Ok(line)
}
