//! gg_cut, gg_build, gg_net and gg_memunit: networks are built, and run to their end.
//!
//! The lines of a case here, besides those in cases.rt:
//!
//! ```text
//! has 5 machines 8 channels 2 cycles 42 steps
//! hosts 0 1 2 3 4
//! steps 0F 0L 1F 1L
//! serves 4 2 8
//! refuses 8F: Stranger
//! refuses 0F behind 0F 3E: Full { channel: 0, len: 1 }
//! calls 3F0 3E0 0L0
//! each 3F0 3E0 0L0
//! ```
//!
//! - `hosts`: each machine's host;
//! - `steps`: the steps of a cycle: the number of a channel with `F` if its token is given and with `L` if it is taken, the number of a port of
//!   machine 1 with `S` for an access, and the number of a machine with `E` for the end of its cycle;
//! - `serves`: three numbers about machine 1: its memory's ports, the ports that are served in a cycle, and all accesses;
//! - `refuses`: a step that is refused, maybe after others, and why;
//! - `calls`: the first steps of a run to the end, as `is_in_order` reads them: round by round, in each the machines by number, and of each its ins,
//!   its outs, its ports and the end of its cycle, as far as each may be done. Without such a line the order isn't checked;
//! - `each`: the steps of each cycle where all machines are brought to one cycle before any goes on: by calls of `run_to`, and by one of `run_by`.
ghost use Rattle.std.specs.Prelude.{◌≡◌, ◌<◌, [], length};
ghost use Rattle.gg_build.specs.inside.Build.{IsToRun, NeedsNone};
ghost use Rattle.gg_cut_plan.specs.Fault.{IsSmall};
ghost use Rattle.gg_part.specs.KeepsToTree.{KeepsToTree};
ghost use Rattle.gg_cut_plan.specs.Held.{AreHeldOnce};
ghost use Rattle.gg_cut_reference.specs.whole.Whole.{HasFreeFronts};
ghost use Rattle.gg_flat.specs.Run.{IsColumns};

use crate::cases::{circuit_of, field, is_known, trace_of};
use crate::orders::{is_each_alike, is_in_order};
use crate::reading::{design_of, inputs_of, request_of};
use crate::refusals::are_refused;
use crate::tries::{Try, is_tried};
use gg_cut::cut;
use gg_cut_plan::{Models, Plan};
use gg_net::{Event, Net, StepRefusal, Streams};
use gg_node::Host;
use gg_order::Design;
use gg_partfile::Request;
use gg_trace::Trace;
use std::alloc::Global;
use std::marker::Brand;
use std::process::Abort;

// The first words of a case's lines.
static KEYS: [&str; 11] = [
    "circuit", "trace", "on", "has", "hosts", "keeps", "steps", "serves", "refuses", "calls",
    "each",
];

// The expected results of a network.
#[derive(Clone, Copy)]
pub(crate) struct Case<'a> {
    // the whole case
    pub(crate) text: &'a str,
    // the numbers of machines, channels and cycles
    pub(crate) machines: u32,
    pub(crate) channels: u32,
    pub(crate) end: u64,
    // the number of all steps
    pub(crate) left: u64,
}

// The digits before this word.
fn digits_before<'a>(text: &'a str, word: &str) -> Option<&'a str> {
    let (before, _) = text.split_once(word)?;
    match before.rsplit_once(' ') {
        Some((_, digits)) => Some(digits),
        None => Some(before),
    }
}

// The case of a paragraph. `None`: it isn't one.
fn case_of(text: &str) -> Option<Case<'_>> {
    if !is_known(text, &KEYS) {
        return None;
    }
    let has = field(text, "has ");
    Some(Case {
        text,
        machines: digits_before(has, " machines")?.parse::<u32>().ok()?,
        channels: digits_before(has, " channels")?.parse::<u32>().ok()?,
        end: digits_before(has, " cycles")?.parse::<u64>().ok()?,
        left: digits_before(has, " steps")?.parse::<u64>().ok()?,
    })
}

// Networks without direct channels, pipes or hosts that are shared.
pub(crate) const NETWORKS: &str = r#"
# the counter: its output goes ahead of its input
circuit counter
trace | cycle reset | 0 1 | 1 0 | 2 0 | 3 0
on {}
has 3 machines 2 channels 4 cycles 28 steps
hosts 0 1 2
keeps 0 0 1 2
steps 1F 1L 2E 0F 0L 0E 1E
refuses 0L: NoToken { channel: 0 }
calls 0F0 1F0 1E0 2L0 2E0 0L0 0E0 1F0 1E0 0L0 0F0 0E0 1F0 1E0 2L0 2E0 0L0 0F0 0E0 1F0 1E0 2L0 2E0 0L0 0F0 0E0 2L0 2E0
each 0F0 1F0 1E0 2L0 2E0 0L0 0E0

# a memory of latency 0 that is a machine of its own: its data waits for its address
circuit memory
trace | cycle | 0 | 1 | 2
on {"memories":["m"]}
has 3 machines 8 channels 3 cycles 60 steps
hosts 0 1 2
keeps 0 7 7
steps 0F 0L 1F 1L 2F 2L 3F 3L 4F 4L 5F 5L 6F 6L 7F 7L 1S 0E 1E 2E
serves 2 1 3
refuses 2F: NeedsInput { channel: 0 }

# two units that feed each other in one cycle
circuit pair
trace | cycle x | 0 0f | 1 81
on {"units":["a","b"]}
has 5 machines 8 channels 2 cycles 42 steps
hosts 0 1 2 3 4
keeps 11 83
steps 0F 0L 1F 1L 3F 3L 5F 5L 6F 6L 2F 2L 4F 4L 7F 7L 0E 1E 2E 3E 4E
refuses 8F: Stranger
refuses 6F: NeedsInput { channel: 5 }
refuses 0L: NoToken { channel: 0 }
refuses 0F behind 0F: Fired
refuses 0L behind 0F 0L: Latched
refuses 0F behind 0F 3E: Full { channel: 0, len: 1 }
refuses 0E: Unfired { channel: 1 }
refuses 0F behind 0F 3E 0L 0F 3E: Ended
calls 3F0 3E0 0L0 0F0 1L0 1F0 3F0 3E0 0L1 0F2 2L0 2F0 2E0 0L3 0F1 1L1 1F1 1E0 0L2 0F3 0E0 4L0 4E0 0L0 0F0 1L0 1F0 0L1 0F2 2L0 2F0 2E0 0L3 0F1 1L1 1F1 1E0 0L2 0F3 0E0 4L0 4E0
each 3F0 3E0 0L0 0F0 1L0 1F0 0L1 0F2 2L0 2F0 2E0 0L3 0F1 1L1 1F1 1E0 0L2 0F3 0E0 4L0 4E0

# a memory whose two writers are served one after the other
circuit four_ports
trace | cycle a v | 0 1 0f | 1 1 21 | 2 3 55 | 3 1 00
on {"memories":["m"]}
has 6 machines 18 channels 4 cycles 176 steps
hosts 0 1 2 3 4 5
keeps 0 f0 0 0
steps 0F 0L 1F 1L 2F 2L 3F 3L 4F 4L 5F 5L 6F 6L 7F 7L 8F 8L 9F 9L 10F 10L 11F 11L 12F 12L 13F 13L 14F 14L 15F 15L 16F 16L 17F 17L 2S 3S 0E 1E 2E 3E 4E 5E
serves 4 2 8
refuses 4F: NeedsInput { channel: 2 }
refuses 1E behind 0F 1F 0L 1L 2F 3F 5F 6F 2L 3L 5L 6L 4F 7F: Unserved { port: 2 }
refuses 3S behind 0F 1F 0L 1L 2F 3F 5F 6F 2L 3L 5L 6L 4F 7F: Order { due: 2 }
refuses 2S behind 0F 1F 0L 1L 2F 3F 5F 6F 2L 3L 5L 6L 4F 7F: NeedsInput { channel: 8 }
calls 0F1 0F5 0F7 0F9 0F11 1L1 1L5 1L7 1L9 1L11 2F0 2E0 3F0 3E0 0L0 0L1 0F0 0F2 0F3 0F4 0F6 0F8 0F10 1L0 1L2 1L3 1L4 1L6 1L8 1L10 1F0 1F1 1S2 1S3 1E0 2F0 2E0 3F0 3E0 0L2 0L3 0F12 0F13 0E0 4L0 4E0 5L0 5E0
each 0F1 0F5 0F7 0F9 0F11 1L1 1L5 1L7 1L9 1L11 2F0 2E0 3F0 3E0 0L0 0L1 0F0 0F2 0F3 0F4 0F6 0F8 0F10 1L0 1L2 1L3 1L4 1L6 1L8 1L10 1F0 1F1 1S2 1S3 1E0 0L2 0L3 0F12 0F13 0E0 4L0 4E0 5L0 5E0
"#;

// The step of a letter and a number.
fn step_of(letter: u8, number: u32) -> Event {
    match letter {
        b'F' => Event::Fire { channel: number },
        b'L' => Event::Latch { channel: number },
        b'S' => Event::Serve {
            machine: 1,
            port: number,
        },
        _ => Event::Finish { machine: number },
    }
}

// The step of a word.
pub(crate) fn event_of(word: &str) -> Event {
    let mut number: u32 = 0;
    let mut letter = b' ';
    for byte in word.as_bytes() {
        if byte.is_ascii_digit() {
            number = number
                .saturating_mul(10)
                .saturating_add((*byte & 15) as u32);
        } else {
            letter = *byte;
        }
    }
    step_of(letter, number)
}

// Whether these steps can be done.
pub(crate) fn goes_once<H: Host, Z: Streams>(net: &mut Net<H, Z>, steps: &str) -> bool {
    for word in steps.split_whitespace() {
        if net.step(event_of(word)).is_err() {
            return false;
        }
    }
    true
}

// Whether the steps of a cycle can be done this many times.
fn goes<H: Host, Z: Streams>(net: &mut Net<H, Z>, steps: &str, times: u64) -> bool {
    for _ in 0..times {
        if !goes_once(net, steps) {
            return false;
        }
    }
    true
}

// The network, taken apart and put together again.
fn joined<H: Host, Z: Streams>(net: Net<H, Z>) -> Net<H, Z> {
    Net::of(net.parts())
}

// Whether these are the hosts of the machines.
fn are_hosts<H: Host, Z: Streams>(net: &Net<H, Z>, hosts: &str) -> bool {
    let stations = net.shape().stations.as_slice();
    let mut machine: usize = 0;
    for host in hosts.split(' ') {
        if machine >= stations.len() || host.parse::<u32>().ok() != Some(stations[machine].host) {
            return false;
        }
        machine = machine.saturating_add(1);
    }
    stations.len() == machine
}

// Whether a network is as expected before its first cycle.
fn opens<H: Host, Z: Streams>(net: &Net<H, Z>, case: &Case<'_>) -> bool {
    net.machines() == case.machines as usize
        && net.channels() == case.channels as usize
        && net.shape().stations.len() == case.machines as usize
        && are_hosts(net, field(case.text, "hosts "))
        && net.end() == case.end
}

// Whether all cycles of a machine are done.
fn has_ended<H: Host, Z: Streams>(net: &Net<H, Z>, machine: u32) -> bool
    requires { machine < length net.now.machines }
{
    net.cycle(machine) == net.end()
        && net.served(machine) == 0
        && net.test(Event::Finish { machine }) == Err(StepRefusal::Ended)
}

// Whether a channel has a token put and taken in each cycle, and holds one exactly if it opened with one.
fn is_spent<H: Host, Z: Streams>(net: &Net<H, Z>, channel: u32) -> bool
    requires { channel < length net.now.wires }
{
    let first = net.shape().wires.as_slice()[channel as usize].first;
    net.puts(channel) == net.end()
        && net.takes(channel) == net.end()
        && net.newest(channel).is_some() == first.is_some()
}

// Three numbers of a line: of machine 1 its memory's ports, the ports that are served in a cycle, and all accesses. All are 0 if there is no line.
fn served_of(line: &str) -> Option<(u32, u32, u64)> {
    if line.is_empty() {
        return Some((0, 0, 0));
    }
    let (ports, rest) = line.split_once(' ')?;
    let (dues, times) = rest.split_once(' ')?;
    Some((
        ports.parse::<u32>().ok()?,
        dues.parse::<u32>().ok()?,
        times.parse::<u64>().ok()?,
    ))
}

// Whether machine 1 serves as expected.
fn serves<H: Host, Z: Streams>(net: &Net<H, Z>, case: &Case<'_>) -> bool {
    let Some((ports, dues, times)) = served_of(field(case.text, "serves ")) else {
        return false;
    };
    1 < net.machines()
        && net.port_count(1) == ports
        && net.dues(1) == dues
        && net.serves(1) == times
}

// Whether a network is as expected after its last cycle.
fn closes<H: Host, Z: Streams>(net: &Net<H, Z>, case: &Case<'_>) -> bool {
    for machine in 0..case.machines {
        if machine as usize >= net.machines() || !has_ended(net, machine) {
            return false;
        }
    }
    for channel in 0..case.channels {
        if channel as usize >= net.channels() || !is_spent(net, channel) {
            return false;
        }
    }
    serves(net, case)
}

// Whether a network runs as expected. It is taken apart after its first cycle.
pub(crate) fn runs<H: Host, Z: Streams>(mut net: Net<H, Z>, case: &Case<'_>) -> bool {
    let steps = field(case.text, "steps ");
    let begins = opens(&net, case) && goes(&mut net, steps, 1);
    let mut net = joined(net);
    begins && goes(&mut net, steps, case.end.saturating_sub(1)) && closes(&net, case)
}

// Whether the network of a plan without bridges runs as expected. The caller picks what it computes, by the design and the request.
fn is_built<Z: Streams>(
    alloc: Global,
    _design: &Design,
    _request: &Request,
    _models: &Models,
    plan: &Plan,
    inputs: &Trace,
    case: &Case<'_>,
) -> bool
    requires run { IsToRun plan.now inputs.now.columns inputs.now.rows Z.flow }
    requires alone { NeedsNone plan.now }
{
    is_tried::<Z>(alloc, plan, inputs, case, &Try::Steps)
        && is_tried::<Z>(alloc, plan, inputs, case, &Try::Alike)
        && are_refused::<Z>(alloc, plan, inputs, case)
        && is_in_order::<Z>(alloc, plan, inputs, case)
        && is_each_alike::<Z>(alloc, plan, inputs, case)
}

// Whether the network of a design and a request without bridges runs as expected, for channels of capacity 1.
fn is_planned(
    alloc: Global,
    design: &Design,
    request: &Request,
    inputs: &Trace,
    case: &Case<'_>,
) -> bool
    requires small { IsSmall request.now }
    requires keeps { KeepsToTree design.now.circuit design.now.tree }
    requires held { AreHeldOnce design.now.circuit }
    requires free { HasFreeFronts design.now.circuit }
    requires fed { IsColumns design.now.circuit inputs.now.rows inputs.now.columns }
    requires alone { request.now.bridges ≡ [] }
{
    // for the invariant only
    let _ = design.order();
    let _ = design.piece();
    let _ = inputs.rows();
    let models = Models::new(alloc);
    match cut(alloc, design, request, 1, &models) {
        Ok(plan) => is_built::<Brand>(alloc, design, request, &models, &plan, inputs, case),
        Err(fault) => {
            drop(fault);
            false
        }
    }
}

// Whether the network of a design and a request runs as expected, where the request has to have no bridges.
fn is_cut(
    alloc: Global,
    design: &Design,
    request: &Request,
    inputs: &Trace,
    case: &Case<'_>,
) -> bool
    requires small { IsSmall request.now }
    requires keeps { KeepsToTree design.now.circuit design.now.tree }
    requires held { AreHeldOnce design.now.circuit }
    requires free { HasFreeFronts design.now.circuit }
    requires fed { IsColumns design.now.circuit inputs.now.rows inputs.now.columns }
{
    if !request.bridges.as_slice().is_empty() {
        return false;
    }
    is_planned(alloc, design, request, inputs, case)
}

// Whether the network of a design and a partition runs as expected on a trace.
fn is_fed(alloc: Global, design: &Design, partition: &str, trace: &str, case: &Case<'_>) -> bool
    requires keeps { KeepsToTree design.now.circuit design.now.tree }
    requires held { AreHeldOnce design.now.circuit }
    requires free { HasFreeFronts design.now.circuit }
{
    match request_of(alloc, partition) {
        Some(request) => match inputs_of(alloc, design, trace) {
            Some(inputs) => is_cut(alloc, design, &request, &inputs, case),
            None => false,
        },
        None => false,
    }
}

// Whether the network of a circuit and a partition runs as expected on a trace.
fn is_network(alloc: Global, circuit: &str, partition: &str, trace: &str, case: &Case<'_>) -> bool {
    match design_of(alloc, circuit) {
        Some(design) => is_fed(alloc, &design, partition, trace, case),
        None => false,
    }
}

// Whether the network of a case's circuit and this partition runs as expected on the case's trace.
fn is_right(alloc: Global, partition: &str, case: &Case<'_>) -> bool {
    match circuit_of(alloc, case.text) {
        Ok(circuit) => match trace_of(alloc, case.text) {
            Ok(trace) => is_network(alloc, circuit.as_str(), partition, trace.as_str(), case),
            Err(_) => false,
        },
        Err(_) => false,
    }
}

// Checks that the network of each partition of a paragraph runs as expected. Returns how many there are.
fn check_case(rt: &impl Abort, alloc: Global, table: &str, paragraph: &str) -> u64 {
    let case = case_of(paragraph).expect(rt, "a case");
    let mut networks: u64 = 0;
    for line in paragraph.lines() {
        if let Some(partition) = line.strip_prefix("on ") {
            let holds = is_right(alloc, partition, &case);
            assert!(rt; holds, "{table}, {partition}: {paragraph}");
            networks = networks.saturating_add(1);
        }
    }
    networks
}

// Checks that each network of a text runs as expected. A failure shows its case.
pub(crate) fn check_networks(rt: &impl Abort, alloc: Global, table: &str, text: &str) {
    for paragraph in text.split("\n\n") {
        assert!(rt;
            check_case(rt, alloc, table, paragraph) > 0,
            "{table}: {paragraph}"
        );
    }
}
