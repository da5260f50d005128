//! Circuits by name, and steps.

// Circuits of one clock.
pub(crate) const CIRCUITS: &str = r#"
# The counter: its sixth line is empty.
counter
| circuit Counter :
|   module Counter :
|     input clock : Clock
|     input reset : UInt<1>
|     output out : UInt<8>
|
|     reg c : UInt<8>, clock with :
|       reset => (UInt<1>("h0"), c) @[Counter.scala 5:20]
|     node n = add(c, UInt<1>("h1"))
|     out <= c
|     c <= mux(reset, UInt<8>("h0"), bits(n, 7, 0))

# The counter with a stop at 1.
counted
| circuit Counter :
|   module Counter :
|     input clock : Clock
|     input reset : UInt<1>
|     output out : UInt<8>
|
|     reg c : UInt<8>, clock with :
|       reset => (UInt<1>("h0"), c) @[Counter.scala 5:20]
|     node n = add(c, UInt<1>("h1"))
|     out <= c
|     c <= mux(reset, UInt<8>("h0"), bits(n, 7, 0))
|     stop(clock, eq(c, UInt<8>(1)), 1) : done

# Two instances of a module with a register.
two
| circuit Two :
| module Acc : | input clock : Clock | input a : UInt<8> | output s : UInt<8>
| reg r : UInt<8>, clock
| s <= r | r <= bits(add(r, a), 7, 0)
| module Two : | input clock : Clock | input x : UInt<8> | output p : UInt<8> | output q : UInt<8>
| inst u of Acc | inst v of Acc
| u.clock <= clock | v.clock <= clock | u.a <= x | v.a <= not(x) | p <= u.s | q <= v.s

# Two adders of which each may feed the other from outside, and an output of both.
cross
| circuit Cross :
| module Inc : | input clock : Clock | input a : UInt<8> | output b : UInt<8>
| b <= tail(add(a, UInt<8>(1)), 1)
| module Cross : | input clock : Clock | input a : UInt<8> | input s : UInt<8> | input b : UInt<8> | output c : UInt<8> | output e : UInt<16>
| output d : UInt<8>
| inst u of Inc
| u.clock <= clock | u.a <= b | c <= u.b | d <= xor(a, s) | e <= cat(a, b)

# A register that counts what is seen, and a stop.
ends
| circuit Ends :
| module Ends : | input clock : Clock | input x : UInt<8> | output n : UInt<8> | output y : UInt<8>
| reg r : UInt<8>, clock
| r <= tail(add(x, UInt<8>(1)), 1) | y <= r | n <= x | stop(clock, eq(x, UInt<8>(2)), 1) : done

# A signed input and a signed output.
signed
| circuit Signed :
| module Signed : | input x : SInt<8> | input v : UInt<8> | output y : SInt<8> | output w : UInt<8>
| y <= x | w <= v

# Two instances that feed each other in one cycle.
pair
| circuit Pair :
| module A :
| input clock : Clock
| input x : UInt<8>
| input k : UInt<8>
| output p : UInt<8>
| output q : UInt<8>
| p <= x
| q <= xor(x, k)
| module B :
| input m : UInt<8>
| output n : UInt<8>
| n <= bits(shl(m, 1), 7, 0)
| module Pair :
| input clock : Clock
| input x : UInt<8>
| output q : UInt<8>
| inst a of A
| inst b of B
| a.clock <= clock
| a.x <= x
| b.m <= a.p
| a.k <= b.n
| q <= a.q

# An instance in an instance.
tiles
| circuit Top :
| module Core : | output o : UInt<4>
| o <= UInt<4>(10)
| module Tile : | output o : UInt<4>
| inst core of Core
| o <= core.o
| module Top : | output o : UInt<4>
| inst tile of Tile
| o <= tile.o

# A memory, and beside it an instance that works its address out.
addressed
| circuit Top :
| module Leaf : | input a : UInt<2> | output b : UInt<2>
| b <= not(a)
| module Cell : | input clock : Clock | input i : UInt<2> | output o : UInt<4>
| mem m : | data-type => UInt<4> | depth => 4 | read-latency => 0 | write-latency => 1 | reader => r
| inst leaf of Leaf
| leaf.a <= i | m.r.clk <= clock | m.r.addr <= leaf.b | m.r.en <= UInt<1>(1) | o <= m.r.data
| module Top : | input clock : Clock | input x : UInt<2> | output y : UInt<4>
| inst c of Cell
| c.clock <= clock | c.i <= x | y <= c.o

# Five instances of two modules, in a chain.
chain
| circuit Top :
| module Inc : | input a : UInt<4> | output b : UInt<4>
| b <= bits(add(a, UInt<4>(1)), 3, 0)
| module Neg : | input a : UInt<4> | output b : UInt<4>
| b <= not(a)
| module Top : | input x : UInt<4> | output y : UInt<4>
| inst u of Inc | inst p of Neg | inst v of Inc | inst q of Neg | inst w of Inc
| u.a <= x | p.a <= u.b | v.a <= p.b | q.a <= v.b | w.a <= q.b | y <= w.b

# An instance that is fed by itself within a cycle.
back
| circuit Top :
| module Pass : | input a : SInt<4> | input b : SInt<4> | output p : SInt<4> | output q : SInt<5>
| p <= a | q <= add(a, b)
| module Top : | input x : SInt<4> | output y : SInt<5>
| inst u of Pass
| u.a <= x | u.b <= u.p | y <= u.q

# A memory of latency 1.
late
| circuit Late :
| module Late :
| input clock : Clock
| input a : UInt<2>
| input e : UInt<1>
| input v : UInt<8>
| output o : UInt<8>
| mem m :
| data-type => UInt<8>
| depth => 3
| read-latency => 1
| write-latency => 1
| reader => r
| writer => w
| read-under-write => new
| m.r.clk <= clock
| m.w.clk <= clock
| m.r.addr <= a
| m.w.addr <= a
| m.r.en <= e
| m.w.en <= UInt<1>("h1")
| m.w.mask <= UInt<1>("h1")
| m.w.data <= v
| o <= m.r.data

# Two instances of a module with a memory that has no ports.
banks
| circuit Banks :
| module Bank :
| mem m : | data-type => UInt<1> | depth => 1 | read-latency => 0 | write-latency => 1
| module Banks :
| inst u of Bank | inst v of Bank

# An instance whose output goes to two others and to the outside.
fork
| circuit Fork :
| module Neg : | input a : UInt<4> | output b : UInt<4>
| b <= not(a)
| module Fork : | input x : UInt<4> | output p : UInt<4> | output q : UInt<5>
| inst u of Neg | inst v of Neg | inst w of Neg
| u.a <= x | v.a <= u.b | w.a <= u.b | p <= u.b | q <= add(v.b, w.b)
"#;

// More of them, and steps.
pub(crate) const MORE: &str = r#"
# An instance whose output is the address of a memory, and an output that is read.
kept
| circuit Kept :
| module Neg : | input a : UInt<2> | output b : UInt<2>
| b <= not(a)
| module Kept : | input clock : Clock | input x : UInt<2> | output y : UInt<2> | output z : UInt<2> | output r : UInt<2> | output q : UInt<2>
| mem m : | data-type => UInt<2> | depth => 4 | read-latency => 0 | write-latency => 1 | reader => r | writer => w | read-under-write => undefined
| inst u of Neg
| u.a <= x | m.r.clk <= clock | m.w.clk <= clock | m.r.addr <= u.b | m.w.addr <= u.b | m.r.en <= UInt<1>(1) | m.w.en <= UInt<1>(1)
| m.w.mask <= UInt<1>(1) | m.w.data <= x | y <= m.r.data | z <= u.b | r <= u.b | q <= not(r)

# A memory of latency 0 with two readers and two writers.
memory
| circuit Mem :
| module Mem :
| input clock : Clock
| input a : UInt<2>
| input v : UInt<8>
| output o0 : UInt<8>
| output o1 : UInt<8>
| mem m :
| data-type => UInt<8>
| depth => 3
| read-latency => 0
| write-latency => 1
| reader => r
| reader => s
| writer => w
| writer => x
| read-under-write => undefined
| m.r.clk <= clock
| m.s.clk <= clock
| m.w.clk <= clock
| m.x.clk <= clock
| m.r.addr <= a
| m.s.addr <= a
| m.w.addr <= a
| m.x.addr <= a
| m.r.en <= UInt<1>("h1")
| m.s.en <= bits(v, 0, 0)
| m.w.en <= UInt<1>("h1")
| m.x.en <= UInt<1>("h1")
| m.w.mask <= UInt<1>("h1")
| m.x.mask <= UInt<1>("h1")
| m.w.data <= v
| m.x.data <= not(v)
| o0 <= m.r.data
| o1 <= m.s.data

# A memory of latency 0 with a reader and a writer, and one that is only read.
beside
| circuit Both :
| module Both : | input clock : Clock | input a : UInt<2> | input v : UInt<8> | output o : UInt<8>
| mem m : | data-type => UInt<8> | depth => 3 | read-latency => 0 | write-latency => 1 | reader => r | writer => w | read-under-write => undefined
| m.r.clk <= clock | m.w.clk <= clock | m.r.addr <= a | m.w.addr <= a | m.r.en <= UInt<1>("h1") | m.w.en <= UInt<1>("h1")
| m.w.mask <= UInt<1>("h1") | m.w.data <= v | o <= m.r.data

# A loop across two instances and a read of latency 0.
loop
| circuit Loop :
| module Cell :
| input clock : Clock
| input a : UInt<2>
| output d : UInt<2>
| mem m :
| data-type => UInt<2>
| depth => 4
| read-latency => 0
| write-latency => 1
| reader => r
| read-under-write => undefined
| m.r.addr <= a
| m.r.en <= UInt<1>("h1")
| m.r.clk <= clock
| d <= m.r.data
| module Pass :
| input b : UInt<2>
| output e : UInt<2>
| e <= b
| module Loop :
| input clock : Clock
| output z : UInt<2>
| inst c of Cell
| inst p of Pass
| c.clock <= clock
| c.a <= p.e
| p.b <= c.d
| z <= p.e

# A register of a signed number, and one of 128 bits that all turn.
kinds
| circuit Kinds :
| module Kinds : | input clock : Clock | input x : SInt<5> | output y : SInt<5>
| reg w : UInt<128>, clock | reg s : SInt<5>, clock
| y <= s | s <= x | w <= not(w)

# A stop where the input is 3.
halt
| circuit Halt :
| module Halt : | input clock : Clock | input x : UInt<2> | output y : UInt<2>
| y <= x | stop(clock, eq(x, UInt<2>(3)), 1) : done

# A stop where the input is 3, and one where it is odd.
halt_twice
| circuit Halt :
| module Halt : | input clock : Clock | input x : UInt<2> | output y : UInt<2>
| y <= x | stop(clock, eq(x, UInt<2>(3)), 1) | stop(clock, bits(x, 0, 0), 0)

# A stop in each of two instances, where the input is 1 and where it is 2, and one in the top.
stops_below
| circuit Top :
| module Cell : | input clock : Clock | input i : UInt<2>
| stop(clock, eq(i, UInt<2>(1)), 1) : done
| module Top : | input clock : Clock | input x : UInt<2> | output y : UInt<2>
| inst c of Cell | inst d of Cell
| c.clock <= clock | d.clock <= clock | c.i <= x | d.i <= not(x) | y <= x | stop(clock, eq(x, UInt<2>(3)), 0) : last

# A stop in an instance in an instance, where the input is 1.
stop_deep
| circuit Top :
| module Core : | input clock : Clock | input i : UInt<2>
| stop(clock, eq(i, UInt<2>(2)), 1) : done
| module Tile : | input clock : Clock | input i : UInt<2>
| inst core of Core
| core.clock <= clock | core.i <= not(i)
| module Top : | input clock : Clock | input x : UInt<2> | output y : UInt<2>
| inst tile of Tile
| tile.clock <= clock | tile.i <= x | y <= x

# A stop in an instance, and one in the top.
stop_below
| circuit Top :
| module Cell : | input clock : Clock | input i : UInt<2>
| stop(clock, eq(i, UInt<2>(1)), 1) : done
| module Top : | input clock : Clock | input x : UInt<2> | output y : UInt<2>
| inst c of Cell
| c.clock <= clock | c.i <= x | y <= x | stop(clock, eq(x, UInt<2>(3)), 0) : last

# Fourteen steps of the memory that is listed: both readers have their data.
read
| fire a | fire v | latch a | latch v | fire m.r.addr | fire m.r.en | fire m.s.addr | fire m.s.en | latch m.r.addr | latch m.r.en | latch m.s.addr
| latch m.s.en | fire m.r.data | fire m.s.data
"#;

// Circuits of two clocks.
pub(crate) const CLOCKED: &str = r#"
# The registers of `DUAL` in two instances. The first has a Clock input that it doesn't use before its own, so that it has the top's clocks in the
# other order.
parts
| circuit Parts :
| module Count : | input spare : Clock | input clock : Clock | output o : UInt<4>
| reg r : UInt<4>, clock
| o <= r | r <= tail(add(r, UInt<1>(1)), 1)
| module Sum : | input clock : Clock | input a : UInt<4> | output o : UInt<4>
| reg s : UInt<4>, clock
| o <= s | s <= tail(add(s, a), 1)
| module Parts : | input c1 : Clock | input c2 : Clock | output p : UInt<4> | output q : UInt<4>
| inst count of Count | inst sum of Sum
| count.spare <= c2 | count.clock <= c1 | sum.clock <= c2 | sum.a <= count.o | p <= count.o | q <= sum.o

# Two instances of a module that sums its input up in a memory. Each has a clock of its own.
sums
| circuit Sums :
| module Sum : | input clock : Clock | input a : UInt<4> | output s : UInt<4>
| mem m : | data-type => UInt<4> | depth => 2 | read-latency => 0 | write-latency => 1 | reader => r | writer => w
| m.r.addr <= UInt<1>(0) | m.r.en <= UInt<1>(1) | m.r.clk <= clock | m.w.addr <= UInt<1>(0) | m.w.en <= UInt<1>(1) | m.w.clk <= clock
| m.w.mask <= UInt<1>(1) | m.w.data <= tail(add(m.r.data, a), 1) | s <= m.r.data
| module Sums : | input c1 : Clock | input c2 : Clock | input x : UInt<4> | output p : UInt<4> | output q : UInt<4>
| inst u of Sum | inst v of Sum
| u.clock <= c1 | v.clock <= c2 | u.a <= x | v.a <= x | p <= u.s | q <= v.s

# A memory of latency 1. One of its readers has a clock, the other reader and the writer have another.
words
| circuit Words :
| module Words :
| input c1 : Clock
| input c2 : Clock
| input a : UInt<1>
| input v : UInt<4>
| output o : UInt<4>
| output q : UInt<4>
| mem m :
| data-type => UInt<4>
| depth => 2
| read-latency => 1
| write-latency => 1
| reader => r
| reader => s
| writer => w
| read-under-write => new
| m.r.clk <= c1
| m.s.clk <= c2
| m.w.clk <= c2
| m.r.addr <= a
| m.s.addr <= a
| m.w.addr <= a
| m.r.en <= UInt<1>(1)
| m.s.en <= UInt<1>(1)
| m.w.en <= UInt<1>(1)
| m.w.mask <= UInt<1>(1)
| m.w.data <= v
| o <= m.r.data
| q <= m.s.data

# Three instances of a module with two clocks, which they have in one order, in the other, and of one of the top's clocks.
crossed
| circuit Crossed :
| module Cell : | input a : Clock | input b : Clock | output o : UInt<4>
| reg r : UInt<4>, a | reg s : UInt<4>, b
| o <= s | r <= tail(add(r, UInt<1>(1)), 1) | s <= tail(add(s, r), 1)
| module Crossed : | input c1 : Clock | input c2 : Clock | output p : UInt<4> | output q : UInt<4> | output r : UInt<4>
| inst u of Cell | inst v of Cell | inst w of Cell
| u.a <= c1 | u.b <= c2 | v.a <= c2 | v.b <= c1 | w.a <= c2 | w.b <= c2 | p <= u.o | q <= v.o | r <= w.o

# A handshake between two instances of a module, each with a clock of its own: examples/domains/domains.fir without its blanks.
domains
| circuit Domains :
| module Side : | input clock : Clock | input gives : UInt<1> | input other : UInt<1> | input given : UInt<4> | output flag : UInt<1>
| output data : UInt<4>
| reg f : UInt<1>, clock | reg d : UInt<4>, clock | node next = xor(other, gives)
| flag <= f | data <= d | f <= next | d <= mux(neq(next, f), given, d)
| module Domains : | input fast : Clock | input slow : Clock | input x : UInt<4> | output p : UInt<4> | output q : UInt<4> | output valid : UInt<1>
| inst left of Side | inst right of Side
| left.clock <= fast | left.gives <= UInt<1>(1) | left.other <= right.flag | left.given <= x | right.clock <= slow | right.gives <= UInt<1>(0)
| right.other <= left.flag | right.given <= left.data | p <= left.data | q <= right.data | valid <= xor(left.flag, right.flag)

# Two registers of two clocks. The second adds the first.
dual
| circuit Dual :
| module Dual :
| input c1 : Clock
| input c2 : Clock
| output p : UInt<4>
| output q : UInt<4>
| reg r : UInt<4>, c1
| reg s : UInt<4>, c2
| p <= r
| q <= s
| r <= tail(add(r, UInt<1>("h1")), 1)
| s <= tail(add(s, r), 1)

# A stop in each of two instances, each with a clock of its own, where the input is 1 and where it is 2. The top has no register on either.
stops_ticked
| circuit Top :
| module Cell : | input clock : Clock | input i : UInt<2>
| stop(clock, eq(i, UInt<2>(1)), 1)
| module Top : | input c1 : Clock | input c2 : Clock | input x : UInt<2> | output y : UInt<2>
| inst c of Cell | inst d of Cell
| c.clock <= c1 | d.clock <= c2 | c.i <= x | d.i <= not(x) | y <= x
"#;
