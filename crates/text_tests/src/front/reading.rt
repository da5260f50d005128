//! Texts and the circuits that `read_circuit` reads from them, worked by hand from the grammar.
use super::calls::Row;
use super::circuits::{COUNTER, SECOND};
use super::sources::Source::{Bytes, Edited, Repeated, Whole};
use gg_ast::{Circuit, Module, Report, StmtKind};
use std::alloc::AllocError;

// Adds the name of a circuit, and its line numbers: its own, and for each module its own, its ports' and its
// statements'.
pub(crate) fn put_circuit(out: &mut String, circuit: &Circuit) -> Result<(), AllocError> {
    write!(out, "{} {}", circuit.name(), circuit.line())?;
    for (place, module) in circuit.modules().iter().enumerate() {
        put_module(out, circuit, place, module)?;
    }
    Ok(())
}

// Adds the name of a module and its line numbers. If an earlier module has the same name, the place of that module is
// added, because the name leads there.
fn put_module(
    out: &mut String,
    circuit: &Circuit,
    place: usize,
    module: &Module,
) -> Result<(), AllocError> {
    write!(out, " / {} {}", module.name(), module.line())?;
    put_place(out, circuit, module.name().as_str(), place)?;
    for port in module.ports() {
        write!(out, " {}", port.line)?;
    }
    for statement in module.statements() {
        write!(out, " {} {}", statement.line, word(&statement.kind))?;
    }
    Ok(())
}

// Adds the place where a module's name leads, unless it leads to the module itself, which is at this place.
fn put_place(
    out: &mut String,
    circuit: &Circuit,
    name: &str,
    place: usize,
) -> Result<(), AllocError> {
    if circuit.modules().len() > 4_294_967_296 {
        return out.push_str(" is one of too many");
    }
    match circuit.module(name) {
        Some(first) if first as usize == place => Ok(()),
        Some(first) => write!(out, " is {first}"),
        None => out.push_str(" is nowhere"),
    }
}

// The word of a statement's kind.
fn word(kind: &StmtKind) -> &'static str {
    match kind {
        StmtKind::Wire { .. } => "wire",
        StmtKind::Node { .. } => "node",
        StmtKind::Register { .. } => "reg",
        StmtKind::Instance { .. } => "inst",
        StmtKind::Memory { .. } => "mem",
        StmtKind::Connect { .. } => "<=",
        StmtKind::Invalid { .. } => "invalid",
        StmtKind::Skip => "skip",
        StmtKind::Stop { .. } => "stop",
        StmtKind::Report { word, .. } => match word {
            Report::Printf => "printf",
            Report::Assert => "assert",
            Report::Assume => "assume",
            Report::Cover => "cover",
        },
    }
}

// The first seven lines of the counter.
const SEVEN_LINES: &str =
    "circuit Counter :\n  module Counter :\n    input clock : Clock\n    input reset : UInt<1>\n    output out : UInt<8>\n\n    reg c : UInt<8>, clock with :\n";

// Its eighth line.
const RESET: &str = "      reset => (UInt<1>(\"h0\"), c) @[Counter.scala 5:20]\n";

// Its ninth line.
const NODE: &str = "    node n = add(c, UInt<1>(\"h1\"))\n";

// The end of its tenth line, and its last.
const LAST: &str = "\n    c <= mux(reset, UInt<8>(\"h0\"), bits(n, 7, 0))\n";

// The counter with a line changed, its first lines, and brackets in it.
pub(crate) static COUNTERS: [Row; 34] = [
    (
        Edited(COUNTER, 0, ""),
        "Counter 1 / Counter 2 3 4 5 7 reg 9 node 10 <= 11 <=",
    ),
    (
        Edited(COUNTER, 6, " ; nothing"),
        "Counter 1 / Counter 2 3 4 5 7 reg 9 node 10 <= 11 <=",
    ),
    (Edited(COUNTER, 6, "FIRRTL version 1.2.0"), "syntax line 6"),
    (
        Edited(COUNTER, 3, "input clock : Analog<1>"),
        "outside line 3 Analog",
    ),
    (Edited(COUNTER, 8, "skip"), "syntax line 8"),
    (Edited(COUNTER, 9, "input a : Clock"), "syntax line 9"),
    (Edited(COUNTER, 9, "node n add(c, c)"), "syntax line 9"),
    (Edited(COUNTER, 9, "node n = bits(c, 1)"), "syntax line 9"),
    (
        Edited(COUNTER, 9, "node n = UInt<8>(\"b2\")"),
        "syntax line 9",
    ),
    (
        Edited(COUNTER, 9, "node n = UInt<8>(\"h\")"),
        "syntax line 9",
    ),
    (Edited(COUNTER, 9, "n-a is invalid"), "syntax line 9"),
    (
        Edited(COUNTER, 9, "stop(clock, reset, 4294967296)"),
        "syntax line 9",
    ),
    (Edited(COUNTER, 9, "printf()"), "syntax line 9"),
    (Edited(COUNTER, 9, "depth => 16"), "syntax line 9"),
    (
        Edited(COUNTER, 9, "mem m :\nskip\ndepth => 16"),
        "syntax line 11",
    ),
    (
        Edited(COUNTER, 9, "mem m :\nreset => (c, c)"),
        "syntax line 10",
    ),
    (
        Edited(COUNTER, 9, "mem m :\nreadwriter => r"),
        "outside line 10 readwriter",
    ),
    (
        Edited(COUNTER, 9, "mem m :"),
        "Counter 1 / Counter 2 3 4 5 7 reg 9 mem 10 <= 11 <=",
    ),
    (
        Edited(
            COUNTER,
            9,
            "mem m :\ndata-type => UInt<8>\ndepth => 16\nread-latency => 0\nwrite-latency => 1\nreader => r s\nwriter => w\nread-under-write => new\ndepth => 4",
        ),
        "Counter 1 / Counter 2 3 4 5 7 reg 9 mem 18 <= 19 <=",
    ),
    (
        Repeated(&[
            (SEVEN_LINES, 1),
            (RESET, 1),
            ("mem m :\n\n; none\ndepth => 4\n", 1),
        ]),
        "Counter 1 / Counter 2 3 4 5 7 reg 9 mem",
    ),
    (Edited(COUNTER, 9, "skip @[x] when"), "syntax line 9"),
    (Edited(COUNTER, 9, "when #"), "outside line 9 when"),
    (Edited(COUNTER, 9, "# when"), "syntax line 9"),
    (Edited(COUNTER, 9, "#"), "syntax line 9"),
    (Edited(COUNTER, 9, "a <- b[0]"), "outside line 9 <-"),
    (Edited(COUNTER, 9, "skip %["), "outside line 9 %["),
    (Edited(COUNTER, 10, "when reset :"), "outside line 10 when"),
    (
        Edited(COUNTER, 9, "when <= c"),
        "Counter 1 / Counter 2 3 4 5 7 reg 9 <= 10 <= 11 <=",
    ),
    (Whole(""), "syntax line 1"),
    (Whole("circuit Counter :\n"), "Counter 1"),
    (
        Whole("circuit Counter :\n  module Counter :\n"),
        "Counter 1 / Counter 2",
    ),
    (Whole(SEVEN_LINES), "syntax line 8"),
    (
        Repeated(&[
            (SEVEN_LINES, 1),
            (RESET, 1),
            (NODE, 1),
            ("out <= ", 1),
            ("not( ", 256),
            ("c", 1),
            (" )", 256),
            (LAST, 1),
        ]),
        "Counter 1 / Counter 2 3 4 5 7 reg 9 node 10 <= 11 <=",
    ),
    (
        Repeated(&[
            (SEVEN_LINES, 1),
            (RESET, 1),
            (NODE, 1),
            ("out <= ", 1),
            ("not( ", 257),
            ("c", 1),
            (" )", 257),
            (LAST, 1),
        ]),
        "too deep line 10",
    ),
];

// The counter in the second spelling: mixed with the first, with names that are words of the second, and refused.
pub(crate) static SECOND_COUNTERS: [Row; 37] = [
    (
        Edited(SECOND, 0, ""),
        "Counter 2 / Counter 3 4 5 6 7 reg 8 node 9 <= 10 <=",
    ),
    (
        Edited(SECOND, 3, "module Counter :"),
        "Counter 2 / Counter 3 4 5 6 7 reg 8 node 9 <= 10 <=",
    ),
    (
        Edited(
            SECOND,
            7,
            "reg c : UInt<8>, clock with : (reset => (UInt<1>(\"h0\"), c))",
        ),
        "Counter 2 / Counter 3 4 5 6 7 reg 8 node 9 <= 10 <=",
    ),
    (
        Edited(SECOND, 8, "node n = add(c, UInt<1>(\"b1\"))"),
        "Counter 2 / Counter 3 4 5 6 7 reg 8 node 9 <= 10 <=",
    ),
    (
        Edited(SECOND, 9, "out <= c"),
        "Counter 2 / Counter 3 4 5 6 7 reg 8 node 9 <= 10 <=",
    ),
    (
        Edited(SECOND, 9, "invalidate out ; not connected"),
        "Counter 2 / Counter 3 4 5 6 7 reg 8 node 9 invalid 10 <=",
    ),
    (
        Edited(SECOND, 9, "connect <= c"),
        "Counter 2 / Counter 3 4 5 6 7 reg 8 node 9 <= 10 <=",
    ),
    (
        Edited(SECOND, 9, "connect connect, connect"),
        "Counter 2 / Counter 3 4 5 6 7 reg 8 node 9 <= 10 <=",
    ),
    (
        Edited(SECOND, 9, "connect.out is invalid"),
        "Counter 2 / Counter 3 4 5 6 7 reg 8 node 9 invalid 10 <=",
    ),
    (
        Edited(SECOND, 9, "regreset.out <= c"),
        "Counter 2 / Counter 3 4 5 6 7 reg 8 node 9 <= 10 <=",
    ),
    (
        Edited(SECOND, 9, "invalidate is invalid"),
        "Counter 2 / Counter 3 4 5 6 7 reg 8 node 9 invalid 10 <=",
    ),
    (Edited(SECOND, 3, "public Counter :"), "syntax line 3"),
    (
        Edited(SECOND, 3, "public wire w : UInt<8>"),
        "syntax line 3",
    ),
    (
        Edited(SECOND, 3, "public public module Counter :"),
        "syntax line 3",
    ),
    (
        Edited(SECOND, 3, "public extmodule Counter :"),
        "outside line 3 extmodule",
    ),
    (
        Edited(SECOND, 4, "input clock : Clock, public"),
        "syntax line 4",
    ),
    (Edited(SECOND, 6, "output out : UInt<0h8>"), "syntax line 6"),
    (
        Edited(SECOND, 6, "output out : { a : UInt<8> }"),
        "outside line 6 {",
    ),
    (
        Edited(SECOND, 7, "regreset c : UInt<8>, clock, UInt<1>(0h0), c, c"),
        "syntax line 7",
    ),
    (
        Edited(SECOND, 7, "regreset c : UInt<8>, clock, UInt<1>(0h0)"),
        "syntax line 7",
    ),
    (
        Edited(SECOND, 7, "regreset c : UInt<8>, clock with :"),
        "syntax line 7",
    ),
    (
        Edited(SECOND, 7, "regreset c : AsyncReset, clock, UInt<1>(0h0), c"),
        "outside line 7 AsyncReset",
    ),
    (Edited(SECOND, 8, "node n = UInt<0b1>(1)"), "syntax line 8"),
    (
        Edited(SECOND, 8, "node n = UInt<4>(-0h-8)"),
        "syntax line 8",
    ),
    (Edited(SECOND, 8, "node n = UInt<4>(0b12)"), "syntax line 8"),
    (Edited(SECOND, 8, "node n = UInt<4>(0x1)"), "syntax line 8"),
    (
        Edited(SECOND, 8, "node n = UInt<4>(\"0h1\")"),
        "syntax line 8",
    ),
    (
        Edited(SECOND, 8, "node n = bits(c, 0d7, 0)"),
        "syntax line 8",
    ),
    (Edited(SECOND, 9, "connect out c"), "syntax line 9"),
    (Edited(SECOND, 9, "connect out,"), "syntax line 9"),
    (Edited(SECOND, 9, "connect out, c, c"), "syntax line 9"),
    (Edited(SECOND, 9, "connect out <= c"), "syntax line 9"),
    (Edited(SECOND, 9, "connect out[0], c"), "outside line 9 ["),
    (
        Edited(SECOND, 9, "connect out, asClock(c)"),
        "outside line 9 asClock",
    ),
    (Edited(SECOND, 9, "invalidate"), "syntax line 9"),
    (Edited(SECOND, 9, "invalidate out, c"), "syntax line 9"),
    (
        Edited(SECOND, 9, "invalidate out is invalid"),
        "syntax line 9",
    ),
];

// Whole texts, and bytes that are none.
pub(crate) static TEXTS: [Row; 11] = [
    (Bytes(b"\xff"), "not text"),
    (
        Whole(
            "FIRRTL version 1.2.0\r\ncircuit Counter :\r\nmodule Counter :\r\ninput clock : Clock\r\ninput reset : UInt<1>\r\noutput out : UInt<8>\r\n\r\nreg c : UInt<8>, clock with : (reset => (UInt<1>(\"h0\"), c))\r\nnode n = add(c, UInt<1>(\"h1\"))\r\nout <= c\r\nc <= mux(reset, UInt<8>(\"h0\"), bits(n, 7, 0))\r\nprintf(clock, reset, \"x;@[%d]\\n\", c) : p ; done",
        ),
        "Counter 2 / Counter 3 4 5 6 8 reg 9 node 10 <= 11 <= 12 printf",
    ),
    (
        Whole(
            "circuit A :\nmodule B :\nmodule A :\nwire w : SInt<0>\nw is invalid\ninst b of B\nskip\nstop(c, c, 1)\nstop(c, c, 4294967295) : s\nprintf(\"a\")\nassert(c, p, \"a\") : b\nassume(c, p, q, \"a\")\ncover(c, \"a\", p)\nmodule C :",
        ),
        "A 1 / B 2 / A 3 4 wire 5 invalid 6 inst 7 skip 8 stop 9 stop 10 printf 11 assert 12 assume 13 cover / C 14",
    ),
    (
        Whole(
            "circuit circuit :\nmodule module :\ninput input : Clock\noutput UInt : UInt<1>\nreg reg : SInt<1>, input\nnode node = not\nwire with : Clock\ninst inst of of\ninst.stop <= printf\nskip is invalid\nis is invalid\nmem <= mux.skip\nstop.a.b is invalid\nreset <= reset\nmodule.output <= UInt<1>(1)",
        ),
        "circuit 1 / module 2 3 4 5 reg 6 node 7 wire 8 inst 9 <= 10 invalid 11 invalid 12 <= 13 invalid 14 <= 15 <=",
    ),
    (
        Whole(
            "circuit O :\nmodule O :\nnode a = mux(andr(orr(xorr(i))), add(sub(mul(div(rem(i, i), i), i), i), i), cat(dshl(dshr(i, i), i), validif(i, i)))\nnode b = mux(lt(leq(gt(geq(eq(neq(i, i), i), i), i), i), i), and(or(xor(i, i), i), i), not(neg(cvt(asUInt(asSInt(i))))))\nnode c = bits(head(tail(shl(shr(pad(i, 1), 0), 2), 3), 4), 5, 0)\nnode d = mux(UInt<1>(\"b01\"), SInt<4>(\"o-7\"), mux(SInt<0>(-3), UInt<8>(\"hFf\"), UInt<4294967295>(99)))",
        ),
        "O 1 / O 2 3 node 4 node 5 node 6 node",
    ),
    (
        Whole("circuit A :\nmodule B :\nmodule A :\nskip\nmodule B :\nmodule A :"),
        "A 1 / B 2 / A 3 4 skip / B 5 is 0 / A 6 is 1",
    ),
    (Whole("FIRRTL version 1.2.0\n"), "syntax line 2"),
    (Whole("circuit A :\ncircuit B :\n"), "syntax line 2"),
    (Whole("circuit A :\nskip"), "syntax line 2"),
    (Whole("\n\ncircuit A : module"), "syntax line 3"),
    (
        Whole("circuit A :\nmodule A :\nreg r : Clock, c with :\n\n"),
        "syntax line 5",
    ),
];
