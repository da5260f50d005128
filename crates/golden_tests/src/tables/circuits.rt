//! Circuits that are run.

pub(crate) const RUNS: &str = r#"
given
# Circuits of one module.
$ golden run k1.fir p.json k1.trace, in each way
p.json | {}

# the counter with lines that end with CR LF, comments, tabs and file information
k1.fir: "circuit Counter :\r\nmodule Counter : ; the top\r\n\tinput clock : Clock\r\ninput reset : UInt<1> @[a b] @[c]\r\noutput out : UInt<8>\r\nreg c : UInt<8> , clock with : (reset => (UInt<1>(\"h0\"), c)) ; @[ no\r\nnode n = add(c,UInt<1>(\"h1\"))\r\nout<=c\r\nc <= mux(reset, UInt<8>(\"h0\"), bits(n, 7, 0))"
k1.trace: "cycle \treset\r\n0 1\r\n1 0\r\n2 0\r\n3 0" -> prints after 3 loads | cycle out | 0 00 | 1 00 | 2 01 | 3 02

# and with a trace whose value has zeros before it
k1.fir = counter
k1.trace | cycle reset | 0 0001 -> prints after 3 loads | cycle out | 0 00

# the counter with a line of the version, and a report
k1.fir: "FIRRTL version 1.2.0\r\ncircuit Counter :\r\n  module Counter :\r\n    input clock : Clock\r\n    input reset : UInt<1>\r\n    output out : UInt<8>\r\n\r\n    reg c : UInt<8>, clock with : (reset => (UInt<1>(\"h0\"), c))\r\n    node n = add(c, UInt<1>(\"h1\"))\r\n    out <= c\r\n    c <= mux(reset, UInt<8>(\"h0\"), bits(n, 7, 0))\r\n    printf(clock, reset, \"x;@[%d]\\n\", c) : p ; done"
k1.trace | cycle reset | 0 1 | 1 0 | 2 0 | 3 0 -> prints after 3 loads | cycle out | 0 00 | 1 00 | 2 01 | 3 02

# the counter in the second spelling, the same with an output that is invalid, and both spellings in one file
k1.fir
| FIRRTL version 4.0.0
| circuit Counter :
|   public module Counter :
|     input clock : Clock
|     input reset : UInt<1>
|     output out : UInt<8>
|     regreset c : UInt<8>, clock, UInt<1>(0h0), c
|     node n = add(c, UInt<1>(0b1))
|     connect out, c
|     connect c, mux(reset, UInt<8>(0h0), bits(n, 7, 0))
k1.trace | cycle reset | 0 1 | 1 0 | 2 0 | 3 0
prints after 3 loads | cycle out | 0 00 | 1 00 | 2 01 | 3 02

k1.fir
| FIRRTL version 4.0.0
| circuit Counter :
|   public module Counter :
|     input clock : Clock
|     input reset : UInt<1>
|     output out : UInt<8>
|     regreset c : UInt<8>, clock, UInt<1>(0h0), c
|     node n = add(c, UInt<1>(0b1))
|     invalidate out
|     connect c, mux(reset, UInt<8>(0h0), bits(n, 7, 0))
k1.trace | cycle reset | 0 1 | 1 0 | 2 0 | 3 0
prints after 3 loads | cycle out | 0 00 | 1 00 | 2 00 | 3 00

k1.fir
| circuit Counter :
|   module Counter :
|     input clock : Clock
|     input reset : UInt<1>
|     output out : UInt<8>
|     regreset c : UInt<8>, clock, UInt<1>("h0"), c
|     node n = add(c, UInt<1>(0d1))
|     out <= c
|     connect c, mux(reset, UInt<8>(0), bits(n, 7, 0))
k1.trace | cycle reset | 0 1 | 1 0 | 2 0 | 3 0
prints after 3 loads | cycle out | 0 00 | 1 00 | 2 01 | 3 02

# a register that isn't reset
k1.fir
| circuit Free :
| module Free : | input clock : Clock | output q : UInt<1>
| reg r : UInt<1>, clock
| q <= r | r <= not(r)
k1.trace | cycle | 0 | 1 | 2
prints after 3 loads | cycle q | 0 0 | 1 1 | 2 0

# the widest signals
k1.fir
| circuit Wide :
| module Wide : | input x : UInt<127> | input y : UInt<127> | output z : UInt<128>
| z <= add(x, y)
k1.trace | cycle x y | 0 7fffffffffffffffffffffffffffffff 7fffffffffffffffffffffffffffffff
prints after 3 loads | cycle z | 0 fffffffffffffffffffffffffffffffe

k1.fir
| circuit Wide :
| module Wide : | input x : SInt<64> | input y : SInt<64> | output z : SInt<128>
| z <= mul(x, y)
k1.trace | cycle x y | 0 8000000000000000 8000000000000000
prints after 3 loads | cycle z | 0 40000000000000000000000000000000

# signed numbers: a shift past the width, a quotient and a remainder
k1.fir
| circuit Shift :
| module Shift : | output z : SInt<1> | output w : SInt<8>
| z <= shr(SInt<4>("h-3"), 9) | w <= shr(SInt<4>("h-3"), 9)
k1.trace | cycle | 0
prints after 3 loads | cycle z w | 0 1 ff

# and with the number's radix before its digits, where the sign may stand at two places
k1.fir
| circuit Shift :
| module Shift : | output z : SInt<1> | output w : SInt<8>
| z <= shr(SInt<4>(-0h3), 9) | w <= shr(SInt<4>(-0h3), 9)
k1.trace | cycle | 0
prints after 3 loads | cycle z w | 0 1 ff

k1.fir
| circuit Shift :
| module Shift : | output z : SInt<1> | output w : SInt<8>
| z <= shr(SInt<4>(0h-3), 9) | w <= shr(SInt<4>(0h-3), 9)
k1.trace | cycle | 0
prints after 3 loads | cycle z w | 0 1 ff

k1.fir
| circuit Parts :
| module Parts : | input x : SInt<4> | input y : SInt<4> | output q : SInt<5> | output r : SInt<4>
| q <= div(x, y) | r <= rem(x, y)
k1.trace | cycle x y | 0 8 f | 1 9 2 | 2 5 0
prints after 3 loads | cycle q r | 0 08 0 | 1 1d f | 2 00 0

# operations on signed numbers, what is invalid, a wire
k1.fir
| circuit A :
| module A : | input x : SInt<4> | input y : SInt<4> | input u : UInt<4> | output o1 : SInt<8> | output o2 : UInt<8> | output o3 : UInt<8>
| output o4 : UInt<5> | output o5 : SInt<1> | output o6 : UInt<8> | output o7 : UInt<1> | output o8 : SInt<8> | output o9 : UInt<3>
| output o10 : SInt<5>
| wire w : SInt<6>
| w <= y | o1 <= x | o2 <= u | o3 <= and(x, SInt<8>("h-1")) | o4 <= asUInt(neg(x)) | o5 <= shr(x, 9) | o6 <= cat(x, y) | o7 <= lt(x, y)
| o8 <= mux(orr(u), x, SInt<8>(-100)) | o9 is invalid | o10 <= div(x, y)
k1.trace | cycle x y u | 0 8 f 0 | 1 7 2 3 | 2 f 0 8
prints after 3 loads
| cycle o1 o2 o3 o4 o5 o6 o7 o8 o9 o10 | 0 f8 00 f8 08 1 8f 1 9c 0 08 | 1 07 03 07 19 0 72 0 07 0 03 | 2 ff 08 ff 01 1 f0 1 ff 0 00

# a reset that wins over a connection, a register of a register, one that is never connected
k1.fir
| circuit B :
| module B :
| input clock : Clock
| input rst : UInt<1>
| input d : UInt<4>
| output a : UInt<4>
| output b : UInt<4>
| output c : UInt<8>
| output e : SInt<8>
| reg r1 : UInt<4>, clock with :
|
|   ; a comment between
|   reset => (rst, UInt<4>(5))
| reg r2 : UInt<4>, clock
| reg r3 : UInt<8>, clock with : (reset => (rst, UInt<2>(3)))
| reg r4 : SInt<8>, clock
| r1 <= d
| r2 <= r1
| r4 <= asSInt(d)
| a <= r1
| b <= r2
| c <= r3
| e <= r4
k1.trace | cycle d rst | 0 9 1 | 1 7 0 | 2 2 0
prints after 3 loads | cycle a b c e | 0 0 0 00 00 | 1 5 0 03 f9 | 2 7 5 03 07

# no cycle
k1.fir
| circuit Counter :
|   module Counter :
|     input clock : Clock
|     input reset : UInt<1>
|     output out : UInt<8>
|
|     reg c : UInt<8>, clock with :
|       reset => (UInt<1>("h0"), c)
|     node n = add(c, UInt<1>("h1"))
|     out <= c
|     c <= mux(reset, UInt<8>("h0"), bits(n, 7, 0))
k1.trace: cycle reset
prints after 3 loads | cycle out

# each operation that no circuit above has, on unsigned numbers and on signed ones; the values come from a script that works the table of operations
# of docs/FORMATS.md out in Python's whole numbers
k1.fir
| circuit Operations :
| module Operations : | input x : SInt<4> | input z : SInt<6> | input u : UInt<4> | input v : UInt<6> | input a : UInt<3> | input c : UInt<1>
| output sub_u : UInt<7> | output leq_u : UInt<1> | output gt_u : UInt<1> | output geq_u : UInt<1> | output eq_u : UInt<1> | output neq_u : UInt<1>
| output dshl_u : UInt<11> | output dshr_u : UInt<6> | output or_u : UInt<6> | output xor_u : UInt<6> | output cvt_u : SInt<5>
| output andr_u : UInt<1> | output xorr_u : UInt<1> | output pad_u : UInt<7> | output shl_u : UInt<7> | output head_u : UInt<2>
| output tail_u : UInt<4> | output vif_u : UInt<6> | output sub_s : SInt<7> | output leq_s : UInt<1> | output gt_s : UInt<1>
| output geq_s : UInt<1> | output eq_s : UInt<1> | output neq_s : UInt<1> | output dshl_s : SInt<11> | output dshr_s : SInt<6>
| output or_s : UInt<6> | output xor_s : UInt<6> | output cvt_s : SInt<4> | output andr_s : UInt<1> | output xorr_s : UInt<1>
| output pad_s : SInt<7> | output shl_s : SInt<7> | output head_s : UInt<2> | output tail_s : UInt<4> | output vif_s : SInt<6>
| sub_u <= sub(u, v) | leq_u <= leq(u, v) | gt_u <= gt(u, v) | geq_u <= geq(u, v) | eq_u <= eq(u, v) | neq_u <= neq(u, v) | dshl_u <= dshl(u, a)
| dshr_u <= dshr(v, a) | or_u <= or(u, v) | xor_u <= xor(u, v) | cvt_u <= cvt(u) | andr_u <= andr(u) | xorr_u <= xorr(u) | pad_u <= pad(u, 7)
| shl_u <= shl(u, 3) | head_u <= head(v, 2) | tail_u <= tail(v, 2) | vif_u <= validif(c, v) | sub_s <= sub(x, z) | leq_s <= leq(x, z)
| gt_s <= gt(x, z) | geq_s <= geq(x, z) | eq_s <= eq(x, z) | neq_s <= neq(x, z) | dshl_s <= dshl(x, a) | dshr_s <= dshr(z, a) | or_s <= or(x, z)
| xor_s <= xor(x, z) | cvt_s <= cvt(x) | andr_s <= andr(x) | xorr_s <= xorr(x) | pad_s <= pad(x, 7) | shl_s <= shl(x, 3) | head_s <= head(z, 2)
| tail_s <= tail(z, 2) | vif_s <= validif(c, z)
k1.trace | cycle x z u v a c | 0 0 00 0 00 0 0 | 1 8 20 f 3f 7 1 | 2 7 1f f 0f 1 0 | 3 f 3f 6 29 2 1 | 4 d 05 9 09 3 0 | 5 b 3a 3 30 5 1
prints after 3 loads
| cycle sub_u leq_u gt_u geq_u eq_u neq_u dshl_u dshr_u or_u xor_u cvt_u andr_u xorr_u pad_u shl_u head_u tail_u vif_u sub_s leq_s gt_s geq_s eq_s neq_s dshl_s dshr_s or_s xor_s cvt_s andr_s xorr_s pad_s shl_s head_s tail_s vif_s
| 0 00 1 0 1 1 0 000 00 00 00 00 0 0 00 00 0 0 00 00 1 0 1 1 0 000 00 00 00 0 0 0 00 00 0 0 00
| 1 50 1 0 0 0 1 780 00 3f 30 0f 1 0 0f 78 3 f 3f 18 0 1 1 0 1 400 3f 38 18 8 0 1 78 40 2 0 20
| 2 00 1 0 1 1 0 01e 07 0f 00 0f 1 0 0f 78 0 f 0f 68 1 0 0 0 1 00e 0f 1f 18 7 0 1 07 38 1 f 1f
| 3 5d 1 0 0 0 1 018 0a 2f 2f 06 0 0 06 30 2 9 29 00 1 0 1 1 0 7fc 3f 3f 00 f 1 0 7f 78 3 f 3f
| 4 00 1 0 1 1 0 048 01 09 00 09 0 0 09 48 0 9 09 78 1 0 0 0 1 7e8 00 3d 38 d 0 1 7d 68 0 5 05
| 5 53 1 0 0 0 1 060 01 33 33 03 0 0 03 18 3 0 30 01 0 1 1 0 1 760 3f 3b 01 b 0 1 7b 58 3 a 3a
"#;

pub(crate) const WHOLE: &str = r#"
given
# Circuits with instances and memories, with a line changed.
$ golden run k1.fir p.json k1.trace, in each way
p.json: {}

k1.fir = loop, line 9 | read-latency => 1
k1.trace | cycle | 0 | 1 -> prints after 3 loads | cycle z | 0 0 | 1 0

k1.fir = pair
k1.trace | cycle x | 0 0f | 1 81 -> prints after 3 loads | cycle q | 0 11 | 1 83

# a register where a pipe of `q` would be
k1.fir = pair, line 24 | reg r : UInt<8>, clock | r <= a.q | q <= r
k1.trace | cycle x | 0 0f | 1 81 -> prints after 3 loads | cycle q | 0 00 | 1 11

k1.fir = memory
k1.trace | cycle a v | 0 1 0f | 1 1 21 | 2 3 55 | 3 1 00 -> prints after 3 loads | cycle o0 o1 | 0 00 00 | 1 f0 f0 | 2 00 00 | 3 de 00

k1.fir = late
k1.trace | cycle a e v | 0 1 1 11 | 1 1 0 22 | 2 3 1 33 | 3 1 1 44 | 4 0 0 00 -> prints after 3 loads | cycle o | 0 00 | 1 11 | 2 00 | 3 00 | 4 44

k1.fir = late, line 15 | read-under-write => old
k1.trace | cycle a e v | 0 1 1 11 | 1 1 0 22 | 2 3 1 33 | 3 1 1 44 | 4 0 0 00 -> prints after 3 loads | cycle o | 0 00 | 1 00 | 2 00 | 3 00 | 4 22
"#;

pub(crate) const CUT: &str = r#"
given
# The counter cut after so many lines.
$ golden run k1.fir p.json k1.trace, in each way
p.json: {}
k1.trace | cycle reset | 0 1 | 1 0 | 2 0 | 3 0

k1.fir = counter, 0 lines -> status 1 after 1 load | golden: circuit: syntax line 1
k1.fir = counter, 1 lines -> status 1 after 1 load | golden: circuit: F1 Counter
k1.fir = counter, 2 lines -> status 7 after 3 loads | golden: trace: T1 field 1
k1.fir = counter, 3 lines -> status 7 after 3 loads | golden: trace: T1 field 1
k1.fir = counter, 4 lines -> prints after 3 loads | cycle | 0 | 1 | 2 | 3
k1.fir = counter, 5 lines -> status 1 after 1 load | golden: circuit: F5 line 5 out
k1.fir = counter, 6 lines -> status 1 after 1 load | golden: circuit: F5 line 5 out
k1.fir = counter, 7 lines -> status 1 after 1 load | golden: circuit: syntax line 8
k1.fir = counter, 8 lines -> status 1 after 1 load | golden: circuit: F5 line 5 out
k1.fir = counter, 9 lines -> status 1 after 1 load | golden: circuit: F5 line 5 out
k1.fir = counter, 10 lines -> prints after 3 loads | cycle out | 0 00 | 1 00 | 2 00 | 3 00
k1.fir = counter -> prints after 3 loads | cycle out | 0 00 | 1 00 | 2 01 | 3 02
"#;
