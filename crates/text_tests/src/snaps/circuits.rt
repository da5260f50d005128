//! Circuits as texts.

// A counter: a register of 8 bits.
pub(crate) const COUNTER: &str =
    "circuit Counter :\nmodule Counter :\ninput clock : Clock\noutput out : UInt<8>\nreg c : UInt<8>, clock\nout <= c\nc <= tail(add(c, UInt<1>(1)), 1)\n";

// Registers of 5 bits and of one, not in the order of their names, and one of 4 bits in an instance.
pub(crate) const THREE: &str =
    "circuit Three :\nmodule Inner :\ninput clock : Clock\noutput o : UInt<4>\nreg r : UInt<4>, clock\no <= r\nr <= r\nmodule Three :\ninput clock : Clock\noutput o : UInt<4>\ninst i of Inner\nreg b : UInt<5>, clock\nreg a : UInt<1>, clock\ni.clock <= clock\no <= i.o\nb <= b\na <= a\n";

// A memory of three words of 8 bits that is read at once.
pub(crate) const PROMPT: &str =
    "circuit Mem :\nmodule Mem :\ninput clock : Clock\noutput o : UInt<8>\nmem m :\ndata-type => UInt<8>\ndepth => 3\nread-latency => 0\nwrite-latency => 1\nreader => r\nwriter => w\nread-under-write => undefined\nm.r.clk <= clock\nm.r.addr <= UInt<2>(0)\nm.r.en <= UInt<1>(1)\nm.w.clk <= clock\nm.w.addr <= UInt<2>(0)\nm.w.en <= UInt<1>(1)\nm.w.data <= UInt<8>(7)\nm.w.mask <= UInt<1>(1)\no <= m.r.data\n";

// A memory of two words of 8 bits that is read a cycle later, so that it has a read register.
pub(crate) const LATE: &str =
    "circuit Mem :\nmodule Mem :\ninput clock : Clock\noutput o : UInt<8>\nmem m :\ndata-type => UInt<8>\ndepth => 2\nread-latency => 1\nwrite-latency => 1\nreader => r\nwriter => w\nread-under-write => undefined\nm.r.clk <= clock\nm.r.addr <= UInt<1>(0)\nm.r.en <= UInt<1>(1)\nm.w.clk <= clock\nm.w.addr <= UInt<1>(0)\nm.w.en <= UInt<1>(1)\nm.w.data <= UInt<8>(7)\nm.w.mask <= UInt<1>(1)\no <= m.r.data\n";
