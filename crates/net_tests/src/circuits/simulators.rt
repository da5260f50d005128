//! gg_refsim: a simulator gives the outputs that were worked out by hand.
ghost use Rattle.std.specs.Prelude.{◌≡◌, ◌<◌, ◌+◌, length};
ghost use Rattle.gg_flat.specs.Run.{IsColumns};
ghost use Rattle.gg_flat.specs.Settled.{IsInputs};

use crate::reading::{design_of, inputs_of};
use crate::texts::Circuit::{Memory, Whole};
use crate::texts::{
    COUNTER, COUNTER_TRACE, Circuit, DEEP, DEEP_TRACE, DUAL, HALT, SIX_CYCLES, THREE_CYCLES,
    text_of,
};
use gg_clocks::Ratio;
use gg_order::Design;
use gg_refsim::Mono;
use gg_trace::Trace;
use std::alloc::Global;
use std::process::Abort;

// The only output of a cycle.
fn step(mono: &mut Mono<'_>, inputs: &[u128]) -> u128
    requires inputs { IsInputs mono.old.circuit inputs.now }
    requires outs { length mono.old.circuit.outs ≡ 1 }
    requires few { mono.old.cycle < 1000000 }
    ensures circuit { mono.new.circuit ≡ mono.old.circuit }
    ensures count { mono.new.cycle ≡ mono.old.cycle + 1 }
{
    let mut outs = [9];
    mono.cycle(inputs, &mut outs);
    outs[0]
}

// Whether a simulator with one output gives these, one in each cycle.
fn gives(mono: &mut Mono<'_>, inputs: &Trace, outputs: &[u128]) -> bool
    requires inputs { IsColumns mono.old.circuit inputs.now.rows inputs.now.columns }
    requires begun { mono.old.cycle ≡ 0 }
{
    if mono.piece().outs().len() != 1 || inputs.rows() != outputs.len() as u64 {
        return false;
    }
    if inputs.rows() > 1000000 {
        return false;
    }
    for cycle in 0..inputs.rows() {
        if step(mono, inputs.row(cycle)) != outputs[cycle as usize] {
            return false;
        }
    }
    true
}

// Whether the simulator of a design gives these outputs, with clocks of these ratios.
fn simulates(
    alloc: Global,
    design: &Design,
    ratios: &[Ratio],
    inputs: &Trace,
    outputs: &[u128],
) -> bool
    requires { IsColumns design.now.circuit inputs.now.rows inputs.now.columns }
{
    match Mono::with_clocks(alloc, design, ratios) {
        Ok(mut mono) => gives(&mut mono, inputs, outputs),
        Err(_) => false,
    }
}

// Whether a design gives these outputs on a trace, with clocks of these ratios.
fn is_run_of(
    alloc: Global,
    design: &Design,
    ratios: &[Ratio],
    trace: &str,
    outputs: &[u128],
) -> bool {
    match inputs_of(alloc, design, trace) {
        Some(inputs) => simulates(alloc, design, ratios, &inputs, outputs),
        None => false,
    }
}

// Whether a design gives these outputs on a trace. If it skips, it has two clocks, and the second has an edge in two of three ticks.
fn is_clocked(alloc: Global, design: &Design, skips: bool, trace: &str, outputs: &[u128]) -> bool {
    if !skips {
        return is_run_of(alloc, design, &[], trace, outputs);
    }
    match (Ratio::new(1, 1), Ratio::new(2, 3)) {
        (Some(each), Some(some)) => is_run_of(alloc, design, &[each, some], trace, outputs),
        _ => false,
    }
}

// Whether the design of a circuit gives these outputs.
fn is_run(alloc: Global, circuit: &str, skips: bool, trace: &str, outputs: &[u128]) -> bool {
    match design_of(alloc, circuit) {
        Some(design) => is_clocked(alloc, &design, skips, trace, outputs),
        None => false,
    }
}

// Whether a circuit of the table gives these outputs.
fn is_right(alloc: Global, circuit: &Circuit, skips: bool, trace: &str, outputs: &[u128]) -> bool {
    match text_of(alloc, circuit) {
        Ok(text) => is_run(alloc, text.as_str(), skips, trace, outputs),
        Err(_) => false,
    }
}

// A circuit, whether its second clock skips a tick in three, a trace, and the outputs.
static RUNS: [(Circuit, bool, &str, &[u128]); 9] = [
    (Whole(COUNTER), false, COUNTER_TRACE, &[0, 0, 1, 2]),
    (Whole(DUAL), true, SIX_CYCLES, &[0, 0, 1, 3, 3, 7]),
    (Whole(DUAL), false, SIX_CYCLES, &[0, 0, 1, 3, 6, 10]),
    // a register and a memory in each of two instances; the second instance has the clocks the other way round
    (
        Whole(DEEP),
        true,
        DEEP_TRACE,
        &[0, 0xfe, 0x11ef, 0x6f8, 0x9275],
    ),
    // a stop is an output
    (Whole(HALT), false, SIX_CYCLES, &[0, 0, 1, 0, 0, 0]),
    // a word that is written is read at once, or a cycle late, or two cycles late where the old word is read; an undefined word is
    // read as the old one
    (
        Memory("read-latency => 0", "read-under-write => undefined"),
        false,
        THREE_CYCLES,
        &[0, 7, 7],
    ),
    (
        Memory("read-latency => 1", "read-under-write => new"),
        false,
        THREE_CYCLES,
        &[0, 7, 7],
    ),
    (
        Memory("read-latency => 1", "read-under-write => old"),
        false,
        THREE_CYCLES,
        &[0, 0, 7],
    ),
    (
        Memory("read-latency => 1", "read-under-write => undefined"),
        false,
        THREE_CYCLES,
        &[0, 0, 7],
    ),
];

// Checks the outputs of each circuit. A failure names the row, counted from 0.
pub(crate) fn check_simulators(rt: &impl Abort, alloc: Global) {
    for (row, (circuit, skips, trace, outputs)) in RUNS.iter().enumerate() {
        let holds = is_right(alloc, circuit, *skips, trace, outputs);
        assert!(rt; holds, "simulators, row {row}");
    }
}
