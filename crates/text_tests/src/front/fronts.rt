//! Circuits as texts through `front`, worked by hand. Each fault is compared as it is printed, and an accepted
//! circuit doesn't give `NoMemory`.
ghost use Rattle.std.specs.Prelude.{◌<◌, ◌^◌, length};

use super::calls::Row;
use super::circuits::{CLOCKS, COUNTER, LATE, LOOP, MEM, PAIR, SECOND, TOP, WIDE};
use super::sources::Source::{Bytes, Chain, Edited, Repeated};
use gg_front::front;
use gg_order::Design;
use std::alloc::{AllocError, Global};

// Adds the answer of `front`, as it is printed.
pub(crate) fn tell_front(out: &mut String, alloc: Global, bytes: &[u8]) -> Result<(), AllocError>
    requires { length bytes.now < 2 ^ 32 }
{
    match front(alloc, bytes) {
        Ok(design) => put_design(out, &design),
        Err(fault) => write!(out, "{fault}"),
    }
}

// Adds the numbers of signals, inputs, outputs and instances of a design.
fn put_design(out: &mut String, design: &Design) -> Result<(), AllocError> {
    let piece = design.piece();
    let signals = piece.signal_count();
    let inputs = piece.ins().len();
    let outputs = piece.outs().len();
    let instances = design.tree().instances().len();
    write!(
        out,
        "{signals} signals {inputs} in {outputs} out {instances} instances"
    )
}

// Circuits with a line changed, and bytes that are no text.
pub(crate) static CIRCUITS: [Row; 62] = [
    (Bytes(b"\xff"), "not text"),
    (Edited(COUNTER, 0, ""), "4 signals 1 in 1 out 1 instances"),
    (Edited(SECOND, 0, ""), "4 signals 1 in 1 out 1 instances"),
    (
        Edited(
            SECOND,
            9,
            "wire connect : UInt<8>\nconnect <= c\nconnect out, connect",
        ),
        "5 signals 1 in 1 out 1 instances",
    ),
    (
        Edited(SECOND, 7, "regreset c : UInt<8>, clock, c, c"),
        "F9 line 7 reg",
    ),
    (
        Edited(SECOND, 7, "regreset c : UInt<8>, clock, UInt<1>(0h0), n"),
        "F3 line 7 n",
    ),
    (
        Edited(SECOND, 8, "node n = add(c, UInt<1>(-0b1))"),
        "F12 line 8",
    ),
    (Edited(SECOND, 9, "connect <= c"), "F3 line 9 connect"),
    (
        Edited(SECOND, 9, "connect out, asSInt(c)"),
        "F9 line 9 connect",
    ),
    (Edited(COUNTER, 9, "node n add(c, c)"), "syntax line 9"),
    (
        Edited(COUNTER, 3, "input clock : Analog<1>"),
        "outside line 3 Analog",
    ),
    (Edited(COUNTER, 10, "when reset :"), "outside line 10 when"),
    (Edited(COUNTER, 1, "circuit Count :"), "F1 Count"),
    (Edited(COUNTER, 11, "node out = c"), "F2 line 11 out"),
    (Edited(COUNTER, 6, "inst i of Conter"), "F3 line 6 Conter"),
    (Edited(COUNTER, 11, "c <= q"), "F3 line 11 q"),
    (Edited(COUNTER, 11, "out <= c"), "F4 line 11 out"),
    (Edited(COUNTER, 10, "skip"), "F5 line 5 out"),
    (Edited(COUNTER, 6, "inst i of Counter"), "F5 line 6 i.clock"),
    (Edited(COUNTER, 11, "reset <= c"), "F6 line 11 reset"),
    (
        Edited(
            COUNTER,
            11,
            "inst x of Counter\nx.clock <= clock\nx.reset <= reset",
        ),
        "F7 Counter Counter",
    ),
    (
        Edited(COUNTER, 10, "out <= asSInt(c)"),
        "F9 line 10 connect",
    ),
    (
        Edited(COUNTER, 10, "out <= dshl(c, UInt<32>(\"h0\"))"),
        "F10 line 10 4294967295",
    ),
    (
        Edited(COUNTER, 11, "c <= bits(n, 9, 0)"),
        "F11 line 11 bits",
    ),
    (
        Edited(COUNTER, 9, "node n = add(c, UInt<1>(\"h2\"))"),
        "F12 line 9",
    ),
    (Edited(COUNTER, 11, "c <= n"), "F13 line 11 9 8"),
    (
        Edited(COUNTER, 6, "wire k : Clock\nk is invalid"),
        "F14 line 7 k",
    ),
    // the top may have several clocks
    (
        Edited(COUNTER, 3, "input clock : Clock\ninput other : Clock"),
        "4 signals 1 in 1 out 1 instances",
    ),
    // a stop is a signal and an out-signal
    (
        Edited(COUNTER, 10, "out <= c\nstop(clock, reset, 1) : done"),
        "5 signals 1 in 2 out 1 instances",
    ),
    (
        Edited(COUNTER, 10, "out <= c\nstop(clock, c, 1) : done"),
        "F9 line 11 stop",
    ),
    (Edited(CLOCKS, 0, ""), "8 signals 1 in 2 out 3 instances"),
    // each instance of a module has its stops
    (
        Edited(CLOCKS, 8, "o <= r\nstop(k, v, 1)\nstop(k, v, 1)"),
        "10 signals 1 in 4 out 3 instances",
    ),
    (
        Edited(CLOCKS, 14, "leaf.k is invalid"),
        "F14 line 14 leaf.k",
    ),
    (
        Edited(CLOCKS, 26, "stop(v, v, 1) : done"),
        "F9 line 26 stop",
    ),
    // a wire of type Clock is no signal
    (
        Edited(CLOCKS, 26, "wire w : Clock\nw <= slow\nstop(w, v, 1)"),
        "8 signals 1 in 2 out 3 instances",
    ),
    (
        Edited(CLOCKS, 26, "wire w : Clock\nw <= w\nstop(w, v, 1)"),
        "F14 line 27 w",
    ),
    (
        Edited(COUNTER, 6, "output k : Clock\nk <= clock"),
        "F14 line 6 k",
    ),
    (Edited(COUNTER, 10, "out <= out"), "F16 out"),
    (
        Edited(COUNTER, 11, "c <= out"),
        "4 signals 1 in 1 out 1 instances",
    ),
    // the fault of shape comes first, wherever it is in the text
    (
        Edited(COUNTER, 9, "node n = add(c, UInt<1>(\"h2\"))\nout <= q"),
        "F3 line 10 q",
    ),
    (
        Edited(COUNTER, 11, "module Other :"),
        "4 signals 1 in 1 out 1 instances",
    ),
    (Edited(WIDE, 0, ""), "3 signals 2 in 1 out 1 instances"),
    (Edited(WIDE, 4, "input y : UInt<128>"), "F10 line 6 129"),
    (Edited(WIDE, 6, "z <= z"), "F16 z"),
    (
        Edited(LOOP, 0, ""),
        "F16 c.a p.e p.b c.d c.m.r.data c.m.r.addr",
    ),
    (
        Edited(LOOP, 9, "read-latency => 1"),
        "8 signals 0 in 1 out 3 instances",
    ),
    (
        Edited(LOOP, 26, "c.clock is invalid"),
        "F14 line 26 c.clock",
    ),
    (Edited(LOOP, 28, "skip"), "F5 line 25 p.b"),
    (Edited(PAIR, 0, ""), "8 signals 1 in 1 out 3 instances"),
    (Edited(PAIR, 23, "a.k <= a.q"), "F16 a.k a.q"),
    (Edited(PAIR, 13, "n <= shl(m, 1)"), "F13 line 13 9 8"),
    (Edited(PAIR, 22, "b.m <= a.r"), "F3 line 22 a.r"),
    (Edited(MEM, 0, ""), "18 signals 2 in 2 out 1 instances"),
    (
        Edited(MEM, 11, "read-latency => 2"),
        "F8 line 8 read-latency",
    ),
    (Edited(MEM, 10, "depth => 65537"), "F15 memory 65537"),
    (Edited(MEM, 26, "skip"), "F5 line 8 m.r.en"),
    (
        Edited(MEM, 32, "m.w.data <= o0"),
        "18 signals 2 in 2 out 1 instances",
    ),
    (Edited(LATE, 0, ""), "11 signals 3 in 1 out 1 instances"),
    (
        Edited(LATE, 15, "read-under-write => new\nread-under-write => old"),
        "F8 line 8 read-under-write",
    ),
    (Edited(TOP, 0, ""), "3 signals 0 in 1 out 3 instances"),
    (Edited(TOP, 4, "o <= UInt<5>(10)"), "F13 line 4 5 4"),
    (
        Edited(TOP, 12, "o <= tile.o\ninst tile of Tile"),
        "F2 line 13 tile",
    ),
];

// The declarations of the last module of a chain: a wire.
const WIRE: &str = "wire w : UInt<1>\nw <= UInt<1>(\"h0\")\n";

// The declarations of the last module of a chain: a memory of 65,536 words.
const WORDS: &str =
    "mem m :\ndata-type => UInt<8>\ndepth => 65536\nread-latency => 0\nwrite-latency => 1\nread-under-write => undefined\n";

// The lines before the stops of a circuit of one input.
const STOPPED: &str = "circuit Top :\nmodule Top :\ninput clock : Clock\ninput v : UInt<1>\n";

// A stop.
const STOP: &str = "stop(clock, v, 1)\n";

// Circuits at the limits of depth, signals, words and instances, and beyond them.
pub(crate) static CHAINS: [Row; 9] = [
    (
        Chain(17, 2, WIRE),
        "131072 signals 0 in 0 out 262143 instances",
    ),
    (Chain(18, 2, WIRE), "F15 signals 262144"),
    (Chain(33, 2, WIRE), "F15 depth 33"),
    (Chain(32, 4, WIRE), "F15 signals 18446744073709551615"),
    (Chain(32, 2, ""), "F15 instances 8589934590"),
    (Chain(1, 16, WORDS), "0 signals 0 in 0 out 17 instances"),
    (Chain(1, 17, WORDS), "F15 words 1114112"),
    (
        Repeated(&[(STOPPED, 1), (STOP, 199_999)]),
        "200000 signals 1 in 199999 out 1 instances",
    ),
    (
        Repeated(&[(STOPPED, 1), (STOP, 200_000)]),
        "F15 signals 200001",
    ),
];
