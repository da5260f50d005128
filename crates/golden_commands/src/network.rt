//! The network of a plan: its steps, and the line of each channel.
ghost use Rattle.std.specs.Prelude.{◌≡◌, ◌-◌, ◌<◌, ◌^◌, ◌++◌, IfOk, None, codes, decimal, length, slice_index_or, string_bytes};
ghost use Rattle.gg_build.specs.inside.Build.{HasBridges};
ghost use Rattle.gg_replay.specs.inside.Log.{AreFronts};
ghost use Rattle.gg_replay.specs.steps_file.Cause.{cause_text};
ghost use Rattle.gg_io.specs.inside.Endings.{IfRefused, PrintsOn, PrintsOrStops};
ghost use Rattle.golden_commands.specs.Replay.{stopped_by};
ghost use Rattle.golden_commands.specs.Replayed.{IsNetText, TellsStop, net_line, net_text};
ghost use Rattle.golden_commands.specs.inside.Replayed.{IsToReplay};
ghost use Rattle.gg_io.specs.Ends.{puts_of};
ghost use Rattle.gg_io.specs.WentOn.{SinkWentOn};

use crate::case::Fed;
use gg_bits::Name;
use gg_bridge::Bridge;
use gg_build::{Node, build};
use gg_cut_plan::{Models, Plan};
use gg_io::{Ending, Sink, end_with, make_refusal, put, text_with_number};
use gg_net::{Event, Net, StepRefusal, Streams};
use gg_replay::{Log, ReplayFault, StepNames, cause_text, channel_line, replay};
use std::alloc::{AllocError, Global};

// Writes the line of a channel.
fn print_channel<B: Bridge + Send + Drop, Z: Streams, K: Sink>(
    alloc: Global,
    plan: &Plan,
    net: &Net<Node<'_, B>, Z>,
    log: &Log,
    channel: u32,
    out: &mut K,
) -> Result<(), Ending>
    requires known { channel < length plan.now.channels }
    requires wires { length net.now.wires ≡ length plan.now.channels }
    requires logged { AreFronts Z.flow net.now log.now }
    ensures prints { PrintsOn K.Sink out.old out.new (net_line plan.now Z.flow net.now channel) result }
    ensures out { SinkWentOn K.Sink out.old out.new }
{
    let own = &plan.channels.as_slice()[channel as usize];
    let line = channel_line(
        alloc,
        own.name.as_str(),
        own.ty.width,
        net.puts(channel),
        net.takes(channel),
        log.tokens(channel),
    )?;
    put(out, line.as_bytes())
}

// Writes the lines of all channels.
fn print_log<B: Bridge + Send + Drop, Z: Streams, K: Sink>(
    alloc: Global,
    plan: &Plan,
    net: &Net<Node<'_, B>, Z>,
    log: &Log,
    out: &mut K,
) -> Result<(), Ending>
    requires few { length plan.now.channels < 2 ^ 32 }
    requires wires { length net.now.wires ≡ length plan.now.channels }
    requires logged { AreFronts Z.flow net.now log.now }
    ensures prints { PrintsOn K.Sink out.old out.new (net_text plan.now Z.flow net.now) result }
    ensures out { SinkWentOn K.Sink out.old out.new }
{
    for channel in 0..plan.channels.as_slice().len() {
        print_channel(alloc, plan, net, log, channel as u32, out)?;
    }
    Ok(())
}

// The first part of a refused step's line, and the text of the step's cause.
fn step_texts(
    alloc: Global,
    names: &StepNames<'_>,
    event: Option<Event>,
    step: u64,
    cause: StepRefusal,
) -> Result<(String, String), AllocError>
    ensures { IfOk result (λ texts. (string_bytes texts.0 ≡ codes "golden: step " ++ decimal step) × (string_bytes texts.1 ≡ cause_text names.now event cause)) }
{
    let front = text_with_number(alloc, "golden: step ", step)?;
    let text = cause_text(alloc, names, event, cause)?;
    Ok((front, text))
}

// The step with this number, counted from 1.
fn event_at(events: &[Option<Event>], step: u64) -> Option<Event>
    ensures { result ≡ slice_index_or events.now (step - 1) None }
{
    match events.get(step.saturating_sub(1) as usize) {
        Some(event) => *event,
        None => None,
    }
}

// The ending for a refused step.
fn end_at_step(
    alloc: Global,
    names: &StepNames<'_>,
    events: &[Option<Event>],
    step: u64,
    cause: StepRefusal,
) -> Ending
    ensures { IfRefused (λ said. said ≡ stopped_by names.now events.now (record { step = step; cause = cause })) result }
{
    match step_texts(alloc, names, event_at(events, step), step, cause) {
        Ok((front, text)) => end_with(make_refusal(alloc, 9, front.as_str(), ": ", text.as_str())),
        Err(_) => Ending::NoMemory,
    }
}

/// Does these steps on the network of the plan, and prints a line for each channel.
///
/// # Errors
///
/// Returns what is reported for the first step that is refused (status 9), `Unwritten` if a put fails, and `NoMemory` if an allocation
/// fails.
pub fn replay_net<B: Bridge + Send + Drop, Z: Streams, K: Sink>(
    alloc: Global,
    fed: &Fed,
    _models: &Models,
    bridges: Vec<(Name, B)>,
    names: &StepNames<'_>,
    events: &[Option<Event>],
    out: &mut K,
) -> Result<(), Ending>
    requires few { length fed.now.case.cut.plan.channels < 2 ^ 32 }
    requires run { IsToReplay fed.now Z.flow }
    requires bridges { HasBridges B.piece B.state fed.now.case.cut.plan bridges.items }
    ensures ended { PrintsOrStops (puts_of K.Sink out.old out.new) (IsNetText fed.now Z.flow events.now) (TellsStop fed.now Z.flow names.now events.now) result }
    ensures out { SinkWentOn K.Sink out.old out.new }
{
    let plan = &fed.case.cut.plan;
    let mut net = build::<B, Z>(alloc, plan, &fed.trace, bridges)?;
    net.kept();
    let mut log = Log::new(alloc, net.shape().wires.as_slice())?;
    match replay(&mut net, events, &mut log) {
        Ok(()) => print_log(alloc, plan, &net, &log, out),
        Err(ReplayFault::Refused { step, cause }) => Err(end_at_step(
            alloc, names, events, step, cause,
        )),
        Err(ReplayFault::NoMemory) => Err(Ending::NoMemory),
    }
}
