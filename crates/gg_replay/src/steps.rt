//! `replay`: the steps of a network one after another.
ghost use Rattle.std.specs.Prelude.{◌≡◌, Some, IfErr, OnOk, MatchResult};
ghost use Rattle.gg_net.specs.declared.event.Event.TheVariants.{Fire};
ghost use Rattle.gg_net.specs.markings.Steps.{IsStep, StepRefused, Steps};
ghost use Rattle.gg_replay.specs.inside.Log.{AreFronts, IsBehind};
ghost use Rattle.gg_replay.specs.inside.Stopping.{IsStop, KeepsLog};

use crate::fault::ReplayFault;
use crate::log::Log;
use gg_net::{Event, Net, StepRefusal, Streams};
use gg_node::Host;
use std::alloc::AllocError;

// Does a step, if it is an event that may be done.
fn try_step<H: Host, Z: Streams>(
    net: &mut Net<H, Z>,
    step: Option<Event>,
) -> Result<(), StepRefusal>
    ensures { MatchResult result (λ _. IsStep net.old step net.new) (λ cause. StepRefused net.old step cause × (net.new ≡ net.old)) }
{
    match step {
        None => Err(StepRefusal::Stranger),
        Some(event) => net.step(event),
    }
}

// Adds the newest token of a channel to the log, after the channel was fired.
fn add_newest<H: Host, Z: Streams>(
    net: &Net<H, Z>,
    channel: u32,
    log: &mut Log,
) -> Result<(), AllocError>
    requires { IsBehind Z.flow (Some (Fire channel)) net.now log.old }
    ensures { OnOk result (AreFronts Z.flow net.now log.new) }
{
    match net.newest(channel) {
        Some(token) => log.push(channel, token),
        None => Ok(()),
    }
}

// Adds the token that the event just done has put, if it has put one, to the log.
fn note_event<H: Host, Z: Streams>(
    net: &Net<H, Z>,
    event: Event,
    log: &mut Log,
) -> Result<(), AllocError>
    requires { IsBehind Z.flow (Some event) net.now log.old }
    ensures { OnOk result (AreFronts Z.flow net.now log.new) }
{
    match event {
        Event::Fire { channel } => add_newest(net, channel, log),
        _ => Ok(()),
    }
}

// Adds the token that the step just done has put, if it has put one, to the log.
fn note<H: Host, Z: Streams>(
    net: &Net<H, Z>,
    step: Option<Event>,
    log: &mut Log,
) -> Result<(), AllocError>
    requires { IsBehind Z.flow step net.now log.old }
    ensures { OnOk result (AreFronts Z.flow net.now log.new) }
{
    match step {
        Some(event) => note_event(net, event, log),
        None => Ok(()),
    }
}

/// Does these steps one after another, and adds each token that is put to the log.
///
/// # Errors
///
/// Returns `Refused` with the number, counted from 1, and the cause of the first step that is refused. Then only the
/// steps before it are done. Returns `NoMemory` if an allocation fails.
pub fn replay<H: Host, Z: Streams>(
    net: &mut Net<H, Z>,
    steps: &[Option<Event>],
    log: &mut Log,
) -> Result<(), ReplayFault>
    requires logged { AreFronts Z.flow net.old log.old }
    ensures done { OnOk result (Steps net.old steps.now net.new × AreFronts Z.flow net.new log.new) }
    ensures refused { IfErr result (λ stop. IsStop net.old steps.now net.new stop) }
    ensures stands { IfErr result (λ stop. KeepsLog Z.flow net.new log.new stop) }
{
    for (i, step) in steps.iter().enumerate() {
        net.kept();
        if let Err(cause) = try_step(net, *step) {
            return Err(ReplayFault::Refused {
                step: i as u64 + 1,
                cause,
            });
        }
        note(net, *step, log)?;
    }
    Ok(())
}
