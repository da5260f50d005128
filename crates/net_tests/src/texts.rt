//! Circuits as texts.
use std::alloc::{AllocError, Global};

// The counter of examples/counter/counter.fir.
pub(crate) const COUNTER: &str =
    "circuit Counter :\n  module Counter :\n    input clock : Clock\n    input reset : UInt<1>\n    output out : UInt<8>\n\n    reg c : UInt<8>, clock with :\n      reset => (UInt<1>(\"h0\"), c) @[Counter.scala 5:20]\n    node n = add(c, UInt<1>(\"h1\"))\n    out <= c\n    c <= mux(reset, UInt<8>(\"h0\"), bits(n, 7, 0))\n";

// The trace of examples/counter/counter.trace.
pub(crate) const COUNTER_TRACE: &str = "cycle reset\n0 1\n1 0\n2 0\n3 0\n";

// An output that is the input.
pub(crate) const PASS: &str =
    "circuit Pass :\nmodule Pass :\ninput i : UInt<8>\noutput o : UInt<8>\no <= i\n";

// A register of one bit that takes its complement in each cycle.
pub(crate) const TOGGLE: &str =
    "circuit Toggle :\nmodule Toggle :\ninput clock : Clock\noutput o : UInt<1>\nreg r : UInt<1>, clock\no <= r\nr <= not(r)\n";

// Two units that feed each other in one cycle.
pub(crate) const PAIR: &str =
    "circuit Pair :\nmodule A :\ninput clock : Clock\ninput x : UInt<8>\ninput k : UInt<8>\noutput p : UInt<8>\noutput q : UInt<8>\np <= x\nq <= xor(x, k)\nmodule B :\ninput m : UInt<8>\noutput n : UInt<8>\nn <= bits(shl(m, 1), 7, 0)\nmodule Pair :\ninput clock : Clock\ninput x : UInt<8>\noutput q : UInt<8>\ninst a of A\ninst b of B\na.clock <= clock\na.x <= x\nb.m <= a.p\na.k <= b.n\nq <= a.q\n";

// Two instances of a module, each with a memory inside that sums up its input. The one takes the input, the other its complement.
pub(crate) const SUMS: &str =
    "circuit Two :\nmodule Sum :\ninput clock : Clock\ninput a : UInt<8>\noutput s : UInt<8>\nmem m :\ndata-type => UInt<8>\ndepth => 2\nread-latency => 0\nwrite-latency => 1\nreader => r\nwriter => w\nread-under-write => undefined\nm.r.addr <= UInt<1>(0)\nm.r.en <= UInt<1>(1)\nm.r.clk <= clock\nm.w.addr <= UInt<1>(0)\nm.w.en <= UInt<1>(1)\nm.w.clk <= clock\nm.w.mask <= UInt<1>(1)\nm.w.data <= bits(add(m.r.data, a), 7, 0)\ns <= m.r.data\nmodule Two :\ninput clock : Clock\ninput x : UInt<8>\noutput p : UInt<8>\noutput q : UInt<8>\ninst u of Sum\ninst v of Sum\nu.clock <= clock\nv.clock <= clock\nu.a <= x\nv.a <= not(x)\np <= u.s\nq <= v.s\n";

// Four instances of that module. Their outputs are one.
pub(crate) const FOUR: &str =
    "circuit Four :\nmodule Sum :\ninput clock : Clock\ninput a : UInt<8>\noutput s : UInt<8>\nmem m :\ndata-type => UInt<8>\ndepth => 2\nread-latency => 0\nwrite-latency => 1\nreader => r\nwriter => w\nread-under-write => undefined\nm.r.addr <= UInt<1>(0)\nm.r.en <= UInt<1>(1)\nm.r.clk <= clock\nm.w.addr <= UInt<1>(0)\nm.w.en <= UInt<1>(1)\nm.w.clk <= clock\nm.w.mask <= UInt<1>(1)\nm.w.data <= bits(add(m.r.data, a), 7, 0)\ns <= m.r.data\nmodule Four :\ninput clock : Clock\ninput x : UInt<8>\noutput q : UInt<32>\ninst u of Sum\ninst v of Sum\ninst w of Sum\ninst z of Sum\nu.clock <= clock\nv.clock <= clock\nw.clock <= clock\nz.clock <= clock\nu.a <= x\nv.a <= not(x)\nw.a <= xor(x, UInt<8>(240))\nz.a <= bits(shl(x, 1), 7, 0)\nq <= cat(cat(u.s, v.s), cat(w.s, z.s))\n";

// Three instances of a module that sums up its input. The first takes the input, and the other two and an output take its
// sum. Another output is the input.
pub(crate) const FORK: &str =
    "circuit Fork :\nmodule Acc :\ninput clock : Clock\ninput a : UInt<8>\noutput s : UInt<8>\nreg r : UInt<8>, clock\ns <= r\nr <= bits(add(r, a), 7, 0)\nmodule Fork :\ninput clock : Clock\ninput x : UInt<8>\noutput y : UInt<8>\noutput z : UInt<8>\noutput q : UInt<16>\ninst u of Acc\ninst v of Acc\ninst w of Acc\nu.clock <= clock\nv.clock <= clock\nw.clock <= clock\nu.a <= x\nv.a <= u.s\nw.a <= u.s\ny <= u.s\nz <= x\nq <= cat(v.s, w.s)\n";

// An instance that takes its own output, and sums up the input with it.
pub(crate) const BACK: &str =
    "circuit Back :\nmodule Sum :\ninput clock : Clock\ninput a : UInt<8>\ninput b : UInt<8>\noutput s : UInt<8>\nreg r : UInt<8>, clock\ns <= r\nr <= bits(add(a, b), 7, 0)\nmodule Back :\ninput clock : Clock\ninput x : UInt<8>\noutput q : UInt<8>\ninst u of Sum\nu.clock <= clock\nu.a <= u.s\nu.b <= x\nq <= u.s\n";

// A memory of three words with two readers and two writers, all at one address.
pub(crate) const FOUR_PORTS: &str =
    "circuit Mem :\nmodule Mem :\ninput clock : Clock\ninput a : UInt<2>\ninput v : UInt<8>\noutput o0 : UInt<8>\noutput o1 : UInt<8>\nmem m :\ndata-type => UInt<8>\ndepth => 3\nread-latency => 0\nwrite-latency => 1\nreader => r\nreader => s\nwriter => w\nwriter => x\nread-under-write => undefined\nm.r.clk <= clock\nm.s.clk <= clock\nm.w.clk <= clock\nm.x.clk <= clock\nm.r.addr <= a\nm.s.addr <= a\nm.w.addr <= a\nm.x.addr <= a\nm.r.en <= UInt<1>(\"h1\")\nm.s.en <= bits(v, 0, 0)\nm.w.en <= UInt<1>(\"h1\")\nm.x.en <= UInt<1>(\"h1\")\nm.w.mask <= UInt<1>(\"h1\")\nm.x.mask <= UInt<1>(\"h1\")\nm.w.data <= v\nm.x.data <= not(v)\no0 <= m.r.data\no1 <= m.s.data\n";

// A trace of three cycles without inputs.
pub(crate) const THREE_CYCLES: &str = "cycle\n0\n1\n2\n";

// A trace of six cycles without inputs.
pub(crate) const SIX_CYCLES: &str = "cycle\n0\n1\n2\n3\n4\n5\n";

// A counter without outputs, with a stop at 2.
pub(crate) const HALT: &str =
    "circuit Halt :\nmodule Halt :\ninput clock : Clock\nreg c : UInt<4>, clock\nc <= tail(add(c, UInt<1>(\"h1\")), 1)\nstop(clock, eq(c, UInt<2>(\"h2\")), 1) : done\n";

// Two registers of two clocks. The second adds the first.
pub(crate) const DUAL: &str =
    "circuit Dual :\nmodule Dual :\ninput c1 : Clock\ninput c2 : Clock\noutput q : UInt<4>\nreg r : UInt<4>, c1\nreg s : UInt<4>, c2\nq <= s\nr <= tail(add(r, UInt<1>(\"h1\")), 1)\ns <= tail(add(s, r), 1)\n";

// Two units of two clocks each. The second has the clocks the other way round. A unit has a register of its second clock, and, two instances further
// down, a memory of its first: the word at the least bit of its input sums up the inputs.
pub(crate) const DEEP: &str =
    "circuit Deep :\nmodule Leaf :\ninput c : Clock\ninput a : UInt<8>\noutput s : UInt<8>\nmem m :\ndata-type => UInt<8>\ndepth => 2\nread-latency => 0\nwrite-latency => 1\nreader => r\nwriter => w\nread-under-write => undefined\nm.r.addr <= bits(a, 0, 0)\nm.r.en <= UInt<1>(1)\nm.r.clk <= c\nm.w.addr <= bits(a, 0, 0)\nm.w.en <= UInt<1>(1)\nm.w.clk <= c\nm.w.mask <= UInt<1>(1)\nm.w.data <= bits(add(m.r.data, a), 7, 0)\ns <= m.r.data\nmodule Mid :\ninput c : Clock\ninput a : UInt<8>\noutput s : UInt<8>\noutput t : UInt<8>\ninst leaf of Leaf\nleaf.c <= c\nleaf.a <= a\ns <= leaf.s\nt <= xor(leaf.s, a)\nmodule Outer :\ninput c : Clock\ninput d : Clock\ninput a : UInt<8>\noutput s : UInt<8>\nreg r : UInt<8>, d\ninst mid of Mid\nmid.c <= c\nmid.a <= a\ns <= bits(add(mid.s, r), 7, 0)\nr <= mid.t\nmodule Deep :\ninput c1 : Clock\ninput c2 : Clock\ninput x : UInt<8>\noutput q : UInt<16>\ninst u of Outer\ninst v of Outer\nu.c <= c1\nu.d <= c2\nv.c <= c2\nv.d <= c1\nu.a <= x\nv.a <= not(x)\nq <= cat(u.s, v.s)\n";

// A trace of five cycles for them.
pub(crate) const DEEP_TRACE: &str = "cycle x\n0 01\n1 10\n2 83\n3 05\n4 62\n";

// A memory of two words, up to its latency. Its reader reads address 0, and its writer writes 7 there in each cycle.
const MEMORY_FRONT: &str =
    "circuit Mem :\nmodule Mem :\ninput clock : Clock\noutput o : UInt<8>\nmem m :\ndata-type => UInt<8>\ndepth => 2\nwrite-latency => 1\nreader => r\nwriter => w\n";

const MEMORY_REST: &str =
    "m.r.clk <= clock\nm.r.addr <= UInt<1>(0)\nm.r.en <= UInt<1>(1)\nm.w.clk <= clock\nm.w.addr <= UInt<1>(0)\nm.w.en <= UInt<1>(1)\nm.w.data <= UInt<8>(7)\nm.w.mask <= UInt<1>(1)\no <= m.r.data\n";

// The memory with these two lines.
fn memory(alloc: Global, latency: &str, under_write: &str) -> Result<String, AllocError> {
    format!(in alloc; "{MEMORY_FRONT}{latency}\n{under_write}\n{MEMORY_REST}")
}

// A circuit of a table.
pub(crate) enum Circuit {
    // This text.
    Whole(&'static str),
    // The memory with these two lines: its latency, and the value that is read of a word that is written.
    Memory(&'static str, &'static str),
}

// The text of a circuit.
pub(crate) fn text_of(alloc: Global, circuit: &Circuit) -> Result<String, AllocError> {
    match circuit {
        Circuit::Whole(text) => String::from_str(alloc, text),
        Circuit::Memory(latency, under_write) => memory(alloc, latency, under_write),
    }
}
