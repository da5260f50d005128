//! Circuits as texts. The tests change a line of them.

// A counter: its sixth line is empty.
pub(crate) const COUNTER: &str =
    "circuit Counter :\n  module Counter :\n    input clock : Clock\n    input reset : UInt<1>\n    output out : UInt<8>\n\n    reg c : UInt<8>, clock with :\n      reset => (UInt<1>(\"h0\"), c) @[Counter.scala 5:20]\n    node n = add(c, UInt<1>(\"h1\"))\n    out <= c\n    c <= mux(reset, UInt<8>(\"h0\"), bits(n, 7, 0))\n";

// A counter in the second spelling, without an empty line.
pub(crate) const SECOND: &str =
    "FIRRTL version 4.0.0\ncircuit Counter :\n  public module Counter :\n    input clock : Clock\n    input reset : UInt<1>\n    output out : UInt<8>\n    regreset c : UInt<8>, clock, UInt<1>(0h0), c\n    node n = add(c, UInt<1>(0b1))\n    connect out, c\n    connect c, mux(reset, UInt<8>(0h0), bits(n, 7, 0))\n";

// A sum of two inputs.
pub(crate) const WIDE: &str =
    "circuit Wide :\nmodule Wide :\ninput x : UInt<127>\ninput y : UInt<127>\noutput z : UInt<128>\nz <= add(x, y)\n";

// A loop through two instances and a memory that is read with latency 0.
pub(crate) const LOOP: &str =
    "circuit Loop :\nmodule Cell :\ninput clock : Clock\ninput a : UInt<2>\noutput d : UInt<2>\nmem m :\ndata-type => UInt<2>\ndepth => 4\nread-latency => 0\nwrite-latency => 1\nreader => r\nread-under-write => undefined\nm.r.addr <= a\nm.r.en <= UInt<1>(\"h1\")\nm.r.clk <= clock\nd <= m.r.data\nmodule Pass :\ninput b : UInt<2>\noutput e : UInt<2>\ne <= b\nmodule Loop :\ninput clock : Clock\noutput z : UInt<2>\ninst c of Cell\ninst p of Pass\nc.clock <= clock\nc.a <= p.e\np.b <= c.d\nz <= p.e\n";

// Two instances that feed each other in one cycle, without a loop.
pub(crate) const PAIR: &str =
    "circuit Pair :\nmodule A :\ninput clock : Clock\ninput x : UInt<8>\ninput k : UInt<8>\noutput p : UInt<8>\noutput q : UInt<8>\np <= x\nq <= xor(x, k)\nmodule B :\ninput m : UInt<8>\noutput n : UInt<8>\nn <= bits(shl(m, 1), 7, 0)\nmodule Pair :\ninput clock : Clock\ninput x : UInt<8>\noutput q : UInt<8>\ninst a of A\ninst b of B\na.clock <= clock\na.x <= x\nb.m <= a.p\na.k <= b.n\nq <= a.q\n";

// A memory with two readers and two writers.
pub(crate) const MEM: &str =
    "circuit Mem :\nmodule Mem :\ninput clock : Clock\ninput a : UInt<2>\ninput v : UInt<8>\noutput o0 : UInt<8>\noutput o1 : UInt<8>\nmem m :\ndata-type => UInt<8>\ndepth => 3\nread-latency => 0\nwrite-latency => 1\nreader => r\nreader => s\nwriter => w\nwriter => x\nread-under-write => undefined\nm.r.clk <= clock\nm.s.clk <= clock\nm.w.clk <= clock\nm.x.clk <= clock\nm.r.addr <= a\nm.s.addr <= a\nm.w.addr <= a\nm.x.addr <= a\nm.r.en <= UInt<1>(\"h1\")\nm.s.en <= bits(v, 0, 0)\nm.w.en <= UInt<1>(\"h1\")\nm.x.en <= UInt<1>(\"h1\")\nm.w.mask <= UInt<1>(\"h1\")\nm.x.mask <= UInt<1>(\"h1\")\nm.w.data <= v\nm.x.data <= not(v)\no0 <= m.r.data\no1 <= m.s.data\n";

// A memory that is read with latency 1.
pub(crate) const LATE: &str =
    "circuit Late :\nmodule Late :\ninput clock : Clock\ninput a : UInt<2>\ninput e : UInt<1>\ninput v : UInt<8>\noutput o : UInt<8>\nmem m :\ndata-type => UInt<8>\ndepth => 3\nread-latency => 1\nwrite-latency => 1\nreader => r\nwriter => w\nread-under-write => new\nm.r.clk <= clock\nm.w.clk <= clock\nm.r.addr <= a\nm.w.addr <= a\nm.r.en <= e\nm.w.en <= UInt<1>(\"h1\")\nm.w.mask <= UInt<1>(\"h1\")\nm.w.data <= v\no <= m.r.data\n";

// An instance in an instance.
pub(crate) const TOP: &str =
    "circuit Top :\nmodule Core :\noutput o : UInt<4>\no <= UInt<4>(10)\nmodule Tile :\noutput o : UInt<4>\ninst core of Core\no <= core.o\nmodule Top :\noutput o : UInt<4>\ninst tile of Tile\no <= tile.o\n";

// An instance of a module that has a memory with a reader and a writer.
pub(crate) const STORE: &str =
    "circuit Top :\nmodule Store :\ninput clock : Clock\ninput at : UInt<2>\ninput v : UInt<8>\noutput o : UInt<8>\nmem m :\ndata-type => UInt<8>\ndepth => 4\nread-latency => 0\nwrite-latency => 1\nreader => r\nwriter => w\nm.r.clk <= clock\nm.r.addr <= at\nm.r.en <= UInt<1>(\"h1\")\nm.w.clk <= clock\nm.w.addr <= at\nm.w.en <= UInt<1>(\"h1\")\nm.w.mask <= UInt<1>(\"h1\")\nm.w.data <= v\no <= m.r.data\nmodule Top :\ninput clock : Clock\ninput at : UInt<2>\ninput v : UInt<8>\noutput o : UInt<8>\ninst s of Store\ns.clock <= clock\ns.at <= at\ns.v <= v\no <= s.o\n";

// Two clocks: one goes down two levels under other names, the other is only used by a stop.
pub(crate) const CLOCKS: &str =
    "circuit Top :\nmodule Leaf :\ninput k : Clock\ninput v : UInt<1>\noutput o : UInt<1>\nreg r : UInt<1>, k\nr <= v\no <= r\nmodule Mid :\ninput m : Clock\ninput v : UInt<1>\noutput o : UInt<1>\ninst leaf of Leaf\nleaf.k <= m\nleaf.v <= v\no <= leaf.o\nmodule Top :\ninput fast : Clock\ninput slow : Clock\ninput v : UInt<1>\noutput o : UInt<1>\ninst mid of Mid\nmid.m <= slow\nmid.v <= v\no <= mid.o\nstop(fast, v, 1) : done\n";
