//! Calls on texts that are made: at the limits, and past them.
use super::large::Large::{Blanks, Chain, Clocks, Nested, Nodes, Outputs, Padded, Rows, Units};
use crate::calls::{Answer, CHECK, RESUME, RUN, ask, ask_of, files_of};
use crate::texts::{edited, named_text};
use crate::ways::run;
use gg_io::hold;
use itoa::Buffer;
use std::alloc::{AllocError, Global};
use std::test::Fail;
use std::thread::Threads;

// The counter's trace, and the text of its run.
const TRACE: &str = "cycle reset\n0 1\n1 0\n2 0\n3 0\n";

const TEXT: &str = "cycle out\n0 00\n1 00\n2 01\n3 02\n";

// The words of `replay`.
const REPLAY: &str = "golden replay k1.fir p.json k1.trace s.steps";

// A call on large files.
enum Large {
    // `run` in each way, on the counter with this many operations one inside the other.
    Nested(usize),
    // These words, on this many instances that are all units.
    Units(&'static str, u64),
    // `run` in each way, on this many outputs.
    Outputs(u64),
    // `run` in each way, on a thousand clocks. The last of them, and this many of the first, have ratios.
    Clocks(u64),
    // These words, on an output that is an instance's, after a hundred nodes.
    Nodes(&'static str),
    // These words, on modules in a chain: the levels below the top, the number of instances of the next module in each, and the lines of the last.
    Chain(&'static str, u32, u32, &'static str),
    // `run` in each way, on the counter and this many rows.
    Rows(u64),
    // `run` once, on the counter with blanks after it, up to this many bytes.
    Padded(usize),
    // These words, on the counter's files and a file of this name with this many blanks.
    Blanks(&'static str, &'static str, usize),
}

// A call on large files, its status and its loads. If the status is 0, this text is on `out`, otherwise on `err`.
type LargeRow = (Large, u8, u64, &'static str);

// Operations one inside the other, units, channels, clocks, and a chain of copies.
static LIMITS: [LargeRow; 11] = [
    (Nested(256), 0, 3, TEXT),
    (Nested(257), 1, 1, "golden: circuit: too deep line 10\n"),
    (Units(RUN, 256), 0, 3, "cycle\n0\n"),
    (Units(RUN, 257), 6, 2, "golden: partition: P9 units 257\n"),
    (Units(CHECK, 257), 6, 2, "golden: partition: P9 units 257\n"),
    (Outputs(16_384), 7, 3, "golden: trace: T1 field 0\n"),
    (
        Outputs(16_385),
        6,
        2,
        "golden: partition: P9 channels 16385\n",
    ),
    (Clocks(999), 0, 3, "cycle y\n0 0\n1 0\n2 1\n3 1\n"),
    (Clocks(1_001), 6, 2, "golden: partition: P12 c1000\n"),
    (
        Nodes(CHECK),
        0,
        2,
        "machine hub: host 0\nmachine u host 1\nmachine in:x host 2\nmachine out:y host 3\nchannel u.a in:x u UInt<4> capacity 2 needs -\nchannel y u out:y UInt<4> capacity 2 needs u.a\n",
    ),
    (Nodes(RUN), 0, 3, "cycle y\n0 a\n"),
];

// The declarations of the last module of a chain.
const WIRE: &str = "wire w : UInt<1>\nw <= UInt<1>(\"h0\")\n";

// Chains of modules at the limits of depth, signals and instances, and past them.
static CHAINS: [LargeRow; 7] = [
    (Chain(CHECK, 17, 2, WIRE), 0, 2, "machine hub: host 0\n"),
    (Chain(RUN, 17, 2, WIRE), 0, 3, "cycle\n0\n"),
    (
        Chain(RUN, 18, 2, WIRE),
        1,
        1,
        "golden: circuit: F15 signals 262144\n",
    ),
    (Chain(RUN, 32, 1, WIRE), 0, 3, "cycle\n0\n"),
    (
        Chain(RUN, 33, 2, WIRE),
        1,
        1,
        "golden: circuit: F15 depth 33\n",
    ),
    (
        Chain(RUN, 32, 4, WIRE),
        1,
        1,
        "golden: circuit: F15 signals 18446744073709551615\n",
    ),
    (
        Chain(CHECK, 32, 2, ""),
        1,
        1,
        "golden: circuit: F15 instances 8589934590\n",
    ),
];

// Files of blanks, each one byte past its limit; a snapshot of its limit, which is one line without an end; a circuit of its limit; and a trace with a row too many.
static LARGE_FILES: [LargeRow; 8] = [
    (
        Blanks(RUN, "k1.fir", 4_194_305),
        8,
        1,
        "golden: k1.fir is over 4194304 bytes\n",
    ),
    (
        Blanks(RUN, "p.json", 1_048_577),
        8,
        2,
        "golden: p.json is over 1048576 bytes\n",
    ),
    (
        Blanks(RUN, "k1.trace", 67_108_865),
        8,
        3,
        "golden: k1.trace is over 67108864 bytes\n",
    ),
    (
        Blanks(REPLAY, "s.steps", 67_108_865),
        8,
        4,
        "golden: s.steps is over 67108864 bytes\n",
    ),
    (
        Blanks(RESUME, "k1.snap", 67_108_865),
        8,
        4,
        "golden: k1.snap is over 67108864 bytes\n",
    ),
    (
        Blanks(RESUME, "k1.snap", 67_108_864),
        10,
        4,
        "golden: snapshot: S1 line 1\n",
    ),
    (Padded(4_194_304), 0, 3, TEXT),
    (Rows(1_000_001), 7, 3, "golden: trace: T6 row 1000000\n"),
];

// Checks how each call on large files ends.
fn check_large<R: Threads + Sync>(
    rt: &R,
    alloc: Global,
    table: &str,
    rows: &[LargeRow],
) -> Result<(), Fail> {
    for (row, (large, status, loads, text)) in rows.iter().enumerate() {
        let answer = ask_large(rt, alloc, large)?;
        let (out, err) = if *status == 0 {
            (*text, "")
        } else {
            ("", *text)
        };
        if !answer.is(*status, *loads, out.as_bytes(), err.as_bytes()) {
            let found = answer.status;
            return Err(Fail::new(format_args!("{table}, row {row}: status {found}")));
        }
    }
    Ok(())
}

// The answer of a call on large files.
fn ask_large<R: Threads + Sync>(
    rt: &R,
    alloc: Global,
    large: &Large,
) -> Result<Answer, AllocError> {
    match large {
        Large::Nested(depth) => run_nested(rt, alloc, *depth),
        Large::Units(line, count) => ask_units(rt, alloc, line, *count),
        Large::Outputs(count) => run_outputs(rt, alloc, *count),
        Large::Clocks(count) => run_clocks(rt, alloc, *count),
        Large::Nodes(line) => ask_nodes(rt, alloc, line),
        Large::Chain(line, levels, instances, last) => {
            ask_chain(rt, alloc, line, *levels, *instances, last)
        }
        Large::Rows(count) => run_rows(rt, alloc, *count),
        Large::Padded(size) => run_padded(rt, alloc, *size),
        Large::Blanks(line, name, size) => ask_blanks(rt, alloc, line, name, *size),
    }
}

// The counter with this many operations, one inside the other, in its tenth line.
fn nested(alloc: Global, depth: usize) -> Result<Vec<u8>, AllocError> {
    let mut text = String::from_str(alloc, "out <= ")?;
    for _ in 0..depth {
        text.push_str("not(")?;
    }
    text.push_str("c")?;
    for _ in 0..depth {
        text.push_str(")")?;
    }
    text.push_str("\n")?;
    let counter = named_text(alloc, "counter")?;
    edited(alloc, counter.as_slice(), 11, 10, text.as_bytes())
}

// `run` in each way, on the nested counter.
fn run_nested<R: Threads + Sync>(
    rt: &R,
    alloc: Global,
    depth: usize,
) -> Result<Answer, AllocError> {
    let circuit = nested(alloc, depth)?;
    run(rt, alloc, circuit.as_slice(), "{}", TRACE)
}

// Writes, for each number not below `first` and below `count`, a piece that has the number in its middle.
fn push_numbered(
    text: &mut String,
    first: u64,
    count: u64,
    before: &str,
    behind: &str,
) -> Result<(), AllocError> {
    let mut buffer = Buffer::new();
    for number in first..count {
        text.push_str(before)?;
        text.push_str(buffer.format(number))?;
        text.push_str(behind)?;
    }
    Ok(())
}

// A call with these words on this many instances, and a partition that lists them all.
fn ask_units<R: Threads + Sync>(
    rt: &R,
    alloc: Global,
    line: &str,
    count: u64,
) -> Result<Answer, AllocError> {
    let mut circuit = String::from_str(alloc, "circuit Top :\nmodule A :\nmodule Top :\n")?;
    push_numbered(&mut circuit, 0, count, "inst i", " of A\n")?;
    let mut partition = String::from_str(alloc, "{\"units\":[\"i0\"")?;
    push_numbered(&mut partition, 1, count, ",\"i", "\"")?;
    partition.push_str("]}")?;
    ask_of(
        rt,
        alloc,
        line,
        circuit.as_bytes(),
        partition.as_str(),
        "cycle\n0\n",
    )
}

// `run` in each way, on a circuit with this many outputs.
fn run_outputs<R: Threads + Sync>(rt: &R, alloc: Global, count: u64) -> Result<Answer, AllocError> {
    let mut circuit = String::from_str(alloc, "circuit Top :\nmodule Top :\n")?;
    push_numbered(&mut circuit, 0, count, "output o", " : UInt<1>\n")?;
    push_numbered(&mut circuit, 0, count, "o", " is invalid\n")?;
    run(rt, alloc, circuit.as_bytes(), "{}", "")
}

// `run` in each way, on a register of the last of a thousand clocks. That clock has an edge in each second cycle, and the first `count` clocks in
// each third one.
fn run_clocks<R: Threads + Sync>(rt: &R, alloc: Global, count: u64) -> Result<Answer, AllocError> {
    let mut circuit = String::from_str(alloc, "circuit Top :\nmodule Top :\n")?;
    push_numbered(&mut circuit, 0, 1_000, "input c", " : Clock\n")?;
    circuit.push_str("output y : UInt<1>\nreg r : UInt<1>, c999\ny <= r\nr <= not(r)\n")?;
    let mut partition = String::from_str(alloc, "{\"clocks\":{\"c999\":[1,2]")?;
    push_numbered(&mut partition, 0, count, ",\"c", "\":[1,3]")?;
    partition.push_str("}}")?;
    run(
        rt,
        alloc,
        circuit.as_bytes(),
        partition.as_str(),
        "cycle\n0\n1\n2\n3\n",
    )
}

// A circuit with an instance's output as its own, after a hundred nodes.
fn chain_of_nodes(alloc: Global) -> Result<String, AllocError> {
    let mut buffer = Buffer::new();
    let mut circuit = String::from_str(
        alloc,
        "circuit Top :\nmodule Neg :\ninput a : UInt<4>\noutput b : UInt<4>\nb <= not(a)\nmodule Top :\ninput x : UInt<4>\noutput y : UInt<4>\ninst u of Neg\nu.a <= x\nnode n0 = u.b\n",
    )?;
    for number in 1u64..100 {
        circuit.push_str("node n")?;
        circuit.push_str(buffer.format(number))?;
        circuit.push_str(" = n")?;
        circuit.push_str(buffer.format(number - 1))?;
        circuit.push_str("\n")?;
    }
    circuit.push_str("y <= n99\n")?;
    Ok(circuit)
}

// A call with these words on the chain of nodes, where the instance's channels are direct.
fn ask_nodes<R: Threads + Sync>(rt: &R, alloc: Global, line: &str) -> Result<Answer, AllocError> {
    let circuit = chain_of_nodes(alloc)?;
    let partition = "{\"units\":[\"u\"],\"direct\":true}";
    ask_of(
        rt,
        alloc,
        line,
        circuit.as_bytes(),
        partition,
        "cycle x\n0 5\n",
    )
}

// Modules in a chain.
fn chain_of_modules(
    alloc: Global,
    levels: u32,
    instances: u32,
    last: &str,
) -> Result<String, AllocError> {
    let mut circuit = String::from_str(alloc, "circuit L0 :\n")?;
    for level in 0..levels {
        write!(circuit, "module L{level} :\n")?;
        let next = level.saturating_add(1);
        for number in 0..instances {
            write!(circuit, "inst i{number} of L{next}\n")?;
        }
    }
    write!(circuit, "module L{levels} :\n{last}")?;
    Ok(circuit)
}

// A call with these words on a chain of modules.
fn ask_chain<R: Threads + Sync>(
    rt: &R,
    alloc: Global,
    line: &str,
    levels: u32,
    instances: u32,
    last: &str,
) -> Result<Answer, AllocError> {
    let circuit = chain_of_modules(alloc, levels, instances, last)?;
    ask_of(rt, alloc, line, circuit.as_bytes(), "{}", "cycle\n0\n")
}

// `run` in each way, on the counter and this many rows.
fn run_rows<R: Threads + Sync>(rt: &R, alloc: Global, count: u64) -> Result<Answer, AllocError> {
    let mut trace = String::from_str(alloc, "cycle reset\n")?;
    push_numbered(&mut trace, 0, count, "", " 0001\n")?;
    let counter = named_text(alloc, "counter")?;
    run(rt, alloc, counter.as_slice(), "{}", trace.as_str())
}

// `run` on the counter with blanks after it, up to this many bytes.
fn run_padded<R: Threads + Sync>(rt: &R, alloc: Global, size: usize) -> Result<Answer, AllocError> {
    let mut bytes = named_text(alloc, "counter")?;
    bytes.resize(size, b' ')?;
    let files = files_of(alloc, bytes.as_slice(), "{}", TRACE)?;
    ask(rt, alloc, RUN, files)
}

// A call with these words on the counter's files and a file with this many blanks.
fn ask_blanks<R: Threads + Sync>(
    rt: &R,
    alloc: Global,
    line: &str,
    name: &str,
    size: usize,
) -> Result<Answer, AllocError> {
    let blanks = vec![in alloc; b' '; size]?;
    let counter = named_text(alloc, "counter")?;
    let mut files = files_of(alloc, counter.as_slice(), "{}", TRACE)?;
    hold(&mut files, alloc, name, blanks.as_slice())?;
    ask(rt, alloc, line, files)
}

#[test]
fn limits_are_kept(rt: HostRuntime) -> Result<(), Fail> {
    check_large(&rt, rt.alloc(), "LIMITS", &LIMITS)
}

#[test]
fn chains_of_modules_are_read(rt: HostRuntime) -> Result<(), Fail> {
    check_large(&rt, rt.alloc(), "CHAINS", &CHAINS)
}

// `rt try --test` doesn't end on this one.
#[test]
fn large_files_are_read(rt: HostRuntime) -> Result<(), Fail> {
    check_large(&rt, rt.alloc(), "LARGE_FILES", &LARGE_FILES)
}
