//! Runs with echoes, and `check`, `replay`, `save` and `resume` with them. Expected texts are worked by a model in Python that has nothing of golden,
//! and the short ones by hand from docs/FORMATS.md.

pub(crate) const BRIDGED: &str = r#"
given
# An echo that sees `q` and drives `x`; the same in a cut, with hosts that are shared and channels of one token, with pipes before and behind the
# echo, and with a clock that has an edge in each second cycle. Two echoes of one kind, the one fed by way of the other; the same in the other
# order, and with their ports changed. An echo with other inputs beside it. Runs that a stop ends, behind a pipe too. A memory whose address an echo
# drives. A signed port beside it. No entry.
$ golden run k1.fir p.json k1.trace, in each way

k1.fir = two
p.json: {"bridges":[{"name":"echo8","sees":["q"],"drives":["x"]}]}
k1.trace | cycle | 0 | 1 | 2 | 3 | 4
prints after 3 loads | cycle p | 0 00 | 1 00 | 2 00 | 3 ff | 4 fd

k1.fir = two
p.json: {"units":["u","v"],"bridges":[{"name":"echo8","sees":["q"],"drives":["x"]}]}
k1.trace | cycle | 0 | 1 | 2 | 3 | 4
prints after 3 loads | cycle p | 0 00 | 1 00 | 2 00 | 3 ff | 4 fd

k1.fir = two
p.json: {"units":["u","v"],"share":[["u","v"]],"capacity":{"x":1,"q":1},"bridges":[{"name":"echo8","sees":["q"],"drives":["x"]}]}
k1.trace | cycle | 0 | 1 | 2 | 3 | 4
prints after 3 loads | cycle p | 0 00 | 1 00 | 2 00 | 3 ff | 4 fd

k1.fir = two
p.json: {"units":["u","v"],"pipe":["q"],"bridges":[{"name":"echo8","sees":["q"],"drives":["x"]}]}
k1.trace | cycle | 0 | 1 | 2 | 3 | 4
prints after 3 loads | cycle p | 0 00 | 1 00 | 2 00 | 3 00 | 4 ff

k1.fir = two
p.json: {"units":["v"],"pipe":["x","q"],"capacity":{"x":3,"q":1},"bridges":[{"name":"echo8","sees":["q"],"drives":["x"]}]}
k1.trace | cycle | 0 | 1 | 2 | 3 | 4 | 5 | 6 | 7
prints after 3 loads | cycle p | 0 00 | 1 00 | 2 00 | 3 00 | 4 00 | 5 ff | 6 fd | 7 fa

k1.fir = two
p.json: {"clocks":{"clock":[1,2]},"bridges":[{"name":"echo8","sees":["p"],"drives":["x"]}]}
k1.trace | cycle | 0 | 1 | 2 | 3 | 4 | 5
prints after 3 loads | cycle q | 0 00 | 1 00 | 2 ff | 3 ff | 4 fe | 5 fe

k1.fir = cross
p.json: {"bridges":[{"name":"echo8","sees":["c"],"drives":["a"]},{"name":"other8","sees":["d"],"drives":["b"]}]}
k1.trace | cycle s | 0 01 | 1 10 | 2 00 | 3 ff | 4 80 | 5 03
prints after 3 loads | cycle e | 0 0000 | 1 0101 | 2 0211 | 3 1202 | 4 03ed | 5 ee83

k1.fir = cross
p.json: {"units":["u"],"bridges":[{"name":"other8","sees":["d"],"drives":["b"]},{"name":"echo8","sees":["c"],"drives":["a"]}]}
k1.trace | cycle s | 0 01 | 1 10 | 2 00 | 3 ff | 4 80 | 5 03
prints after 3 loads | cycle e | 0 0000 | 1 0101 | 2 0211 | 3 1202 | 4 03ed | 5 ee83

k1.fir = cross
p.json: {"units":["u"],"pipe":["d"],"bridges":[{"name":"other8","sees":["c"],"drives":["b"]},{"name":"echo8","sees":["d"],"drives":["a"]}]}
k1.trace | cycle s | 0 01 | 1 10 | 2 00 | 3 ff | 4 80 | 5 03
prints after 3 loads | cycle e | 0 0000 | 1 0001 | 2 0102 | 3 1003 | 4 0104 | 5 ef05

k1.fir = cross
p.json: {"bridges":[{"name":"echo8","sees":["c"],"drives":["s"]}]}
k1.trace | cycle a b | 0 01 02 | 1 ff fe | 2 00 ff
prints after 3 loads | cycle e d | 0 0102 01 | 1 fffe fc | 2 00ff ff

k1.fir = ends
p.json: {"bridges":[{"name":"echo8","sees":["y"],"drives":["x"]}]}
k1.trace | cycle | 0 | 1 | 2 | 3 | 4 | 5 | 6 | 7
prints after 3 loads | cycle n | 0 00 | 1 00 | 2 01 | 3 01 | 4 02

k1.fir = ends
p.json: {"pipe":["stop:0"],"bridges":[{"name":"echo8","sees":["y"],"drives":["x"]}]}
k1.trace | cycle | 0 | 1 | 2 | 3 | 4 | 5 | 6 | 7 | 8
prints after 3 loads | cycle n | 0 00 | 1 00 | 2 01 | 3 01 | 4 02 | 5 02

k1.fir
| circuit Cell :
| module Cell : | input clock : Clock | input a : UInt<1> | input v : UInt<8> | output o : UInt<1> | output z : UInt<8>
| mem m : | data-type => UInt<8> | depth => 2 | read-latency => 0 | write-latency => 1 | reader => r | writer => w | read-under-write => undefined
| m.r.clk <= clock | m.w.clk <= clock | m.r.addr <= a | m.w.addr <= a | m.r.en <= UInt<1>(1) | m.w.en <= UInt<1>(1) | m.w.mask <= UInt<1>(1)
| m.w.data <= v | z <= m.r.data | o <= bits(v, 0, 0)
p.json: {"memories":["m"],"bridges":[{"name":"echo1","sees":["o"],"drives":["a"]}]}
k1.trace | cycle v | 0 01 | 1 02 | 2 03 | 3 05 | 4 07 | 5 00
prints after 3 loads | cycle z | 0 00 | 1 00 | 2 01 | 3 02 | 4 05 | 5 07

k1.fir = signed
p.json: {"bridges":[{"name":"echo8","sees":["w"],"drives":["v"]}]}
k1.trace | cycle x | 0 ff | 1 80
prints after 3 loads | cycle y | 0 ff | 1 80

k1.fir = two
p.json: {"bridges":[]}
k1.trace | cycle x | 0 01 | 1 10 | 2 00
prints after 3 loads | cycle p q | 0 00 00 | 1 01 fe | 2 11 ed
"#;

pub(crate) const BRIDGED_WAYS: &str = r#"
given
# The same with channels of one token, without workers and with two, by the simulator, and with as many of both as there may be; and where a put on
# `out` takes three bytes and fails.
k1.fir = two
p.json: {"units":["u","v"],"bridges":[{"name":"echo8","sees":["q"],"drives":["x"]}]}
k1.trace | cycle | 0 | 1 | 2 | 3 | 4

$ golden run k1.fir p.json k1.trace --capacity 1 --workers 0 -> prints after 3 loads | cycle p | 0 00 | 1 00 | 2 00 | 3 ff | 4 fd
$ golden run k1.fir p.json k1.trace --capacity 1 --workers 2 -> prints after 3 loads | cycle p | 0 00 | 1 00 | 2 00 | 3 ff | 4 fd
$ golden run k1.fir p.json k1.trace --mono -> prints after 3 loads | cycle p | 0 00 | 1 00 | 2 00 | 3 ff | 4 fd
$ golden run k1.fir p.json k1.trace --capacity 4096 --workers 64 -> prints after 3 loads | cycle p | 0 00 | 1 00 | 2 00 | 3 ff | 4 fd

$ golden run k1.fir p.json k1.trace --capacity 1 --workers 0
p.json: {"bridges":[{"name":"echo8","sees":["q"],"drives":["x"]}]} -> prints after 3 loads | cycle p | 0 00 | 1 00 | 2 00 | 3 ff | 4 fd

$ golden run k1.fir p.json k1.trace --capacity 1 --workers 2
p.json: {"bridges":[{"name":"echo8","sees":["q"],"drives":["x"]}]} -> prints after 3 loads | cycle p | 0 00 | 1 00 | 2 00 | 3 ff | 4 fd

$ golden run k1.fir p.json k1.trace --mono
p.json: {"bridges":[{"name":"echo8","sees":["q"],"drives":["x"]}]} -> prints after 3 loads | cycle p | 0 00 | 1 00 | 2 00 | 3 ff | 4 fd

$ golden run k1.fir p.json k1.trace --workers 2
out fails at put 2, byte 3
out: "cycle p\n0 00\n1 0"
status 4 after 3 loads | golden: cannot write
"#;

pub(crate) const BRIDGED_CUTS: &str = r#"
given
# Bridges as machines, behind all others: in a cut; with direct channels, of which none begins or ends at a source that an echo takes the place of,
# and one goes from a unit to the echo; two of them.
$ golden check k1.fir p.json
k1.fir = two
k1.trace: ""

p.json: {"units":["u","v"],"bridges":[{"name":"echo8","sees":["q"],"drives":["x"]}]}
prints after 2 loads
| machine hub: host 0 | machine u host 1 | machine v host 2 | machine out:p host 3 | machine bridge:echo8 host 4
| channel x bridge:echo8 hub: UInt<8> capacity 2 needs -
| channel u.a hub: u UInt<8> capacity 2 needs x
| channel u.s u hub: UInt<8> capacity 2 needs -
| channel v.a hub: v UInt<8> capacity 2 needs x
| channel v.s v hub: UInt<8> capacity 2 needs -
| channel p hub: out:p UInt<8> capacity 2 needs u.s
| channel q hub: bridge:echo8 UInt<8> capacity 2 needs v.s

p.json: {"units":["u","v"],"direct":true,"bridges":[{"name":"echo8","sees":["q"],"drives":["x"]}]}
prints after 2 loads
| machine hub: host 0 | machine u host 1 | machine v host 2 | machine out:p host 3 | machine bridge:echo8 host 4
| channel x bridge:echo8 hub: UInt<8> capacity 2 needs -
| channel u.a hub: u UInt<8> capacity 2 needs x
| channel v.a hub: v UInt<8> capacity 2 needs x
| channel p u out:p UInt<8> capacity 2 needs -
| channel q v bridge:echo8 UInt<8> capacity 2 needs -

k1.fir = cross
p.json: {"capacity":{"c":1,"b":7},"bridges":[{"name":"echo8","sees":["c"],"drives":["a"]},{"name":"other8","sees":["d"],"drives":["b"]}]}
prints after 2 loads
| machine hub: host 0 | machine in:s host 1 | machine out:e host 2 | machine bridge:echo8 host 3 | machine bridge:other8 host 4
| channel a bridge:echo8 hub: UInt<8> capacity 2 needs -
| channel s in:s hub: UInt<8> capacity 2 needs -
| channel b bridge:other8 hub: UInt<8> capacity 7 needs -
| channel c hub: bridge:echo8 UInt<8> capacity 1 needs b
| channel e hub: out:e UInt<16> capacity 2 needs a b
| channel d hub: bridge:other8 UInt<8> capacity 2 needs a s
"#;

pub(crate) const BRIDGED_STEPS: &str = r#"
given
# Steps of an echo: it says what it has before it sees anything, once a cycle, and ends a cycle when it has seen all.
$ golden replay k1.fir p.json k1.trace s.steps
k1.fir = two
p.json: {"bridges":[{"name":"echo8","sees":["q"],"drives":["x"]}]}
k1.trace | cycle | 0 | 1 | 2 | 3 | 4

s.steps | fire x | latch x | fire p | fire q | latch q | finish bridge:echo8 | finish hub: | fire x | fire p
prints after 4 loads | x 2/1 00 00 | p 2/0 00 00 | q 1/1 00

s.steps | fire x | fire x -> status 9 after 4 loads | golden: step 2: Fired
s.steps | fire x | finish bridge:echo8 -> status 9 after 4 loads | golden: step 2: NeedsInput q
s.steps | fire x | latch x | fire q | latch q | finish bridge:echo8 | fire q -> status 9 after 4 loads | golden: step 6: Fired
"#;

pub(crate) const BRIDGED_TRACES: &str = r#"
given
# Traces that name an input that a bridge drives, or that lack another.
$ golden run k1.fir p.json k1.trace, in each way
k1.fir = cross
p.json: {"bridges":[{"name":"echo8","sees":["c"],"drives":["a"]}]}

k1.fir = two
p.json: {"bridges":[{"name":"echo8","sees":["q"],"drives":["x"]}]}
k1.trace | cycle x | 0 01
status 7 after 3 loads | golden: trace: T1 field 1

k1.trace | cycle a s b -> status 7 after 3 loads | golden: trace: T1 field 1
k1.trace | cycle s -> status 7 after 3 loads | golden: trace: T1 field 2
k1.trace | cycle s b | 0 01 02 | 1 1 -> status 7 after 3 loads | golden: trace: T5 row 1 2
"#;

pub(crate) const BRIDGES_UNSAVED: &str = r#"
given
# `save` and `resume` take no bridges, which is the last fault of a partition. They take a list without entries.
$ golden save k1.fir p.json k1.trace 2, in each way
k1.fir = two
k1.trace | cycle | 0 | 1 | 2 | 3 | 4

p.json: {"bridges":[{"name":"echo8","sees":["q"],"drives":["x"]}]} -> status 6 after 2 loads | golden: partition: P17

p.json: {"bridges":[{"name":"echo8","sees":["q"],"drives":["x"]}]}
k1.trace | cycle x y -> status 6 after 2 loads | golden: partition: P17

p.json: {"bridges":[{"name":"echo9","sees":["q"],"drives":["x"]}]} -> status 6 after 2 loads | golden: partition: P14 echo9
p.json: {"bridges":[{"name":"echo32","sees":["q"],"drives":["x"]}]} -> status 6 after 2 loads | golden: partition: P16 echo32

$ golden resume k1.fir p.json k1.trace k1.snap, in each way
p.json: {"bridges":[{"name":"echo8","sees":["q"],"drives":["x"]}]}
k1.snap | golden snapshot 1 | cycle 2
status 6 after 2 loads | golden: partition: P17

$ golden resume k1.fir p.json k1.trace k1.snap, in each way
p.json: {"bridges":[{"name":"echo8","sees":["q"],"drives":["y"]}]}
k1.snap: ""
status 6 after 2 loads | golden: partition: P15 y

p.json: {"units":["u"],"bridges":[]}
k1.trace | cycle x | 0 01 | 1 10 | 2 00 -> saves after 3 loads | golden snapshot 1 | cycle 2 | reg u.r 11 | reg v.r ed

$ golden resume k1.fir p.json k1.trace k1.snap, in each way
p.json: {"units":["u"],"bridges":[]}
k1.trace | cycle x | 0 01 | 1 10 | 2 00
k1.snap | golden snapshot 1 | cycle 2 | reg u.r 11 | reg v.r ed
prints after 4 loads | cycle p q | 2 11 ed
"#;
