//! Circuits with stops: which rows are written, which faults after a stop are reported, and what `check` and `replay`
//! show of stops.

pub(crate) const ROWS: &str = r#"
given
# Stops in circuits of one module.
$ golden run k1.fir p.json k1.trace, in each way
k1.fir = halt
p.json: {}

k1.fir = counted
k1.trace | cycle reset | 0 1 | 1 0 | 2 0 | 3 0 -> prints after 3 loads | cycle out | 0 00 | 1 00 | 2 01

# in the middle, in the first row, in the last one, and nowhere
k1.trace | cycle x | 0 1 | 1 3 | 2 0 -> prints after 3 loads | cycle y | 0 1 | 1 3
k1.trace | cycle x | 0 3 | 1 1 -> prints after 3 loads | cycle y | 0 3
k1.trace | cycle x | 0 1 | 1 3 -> prints after 3 loads | cycle y | 0 1 | 1 3
k1.trace | cycle x | 0 1 | 1 2 -> prints after 3 loads | cycle y | 0 1 | 1 2
k1.trace | cycle x -> prints after 3 loads | cycle y

# the second of two, both in one row, and both in the last
k1.fir = halt_twice
k1.trace | cycle x | 0 2 | 1 1 | 2 3 -> prints after 3 loads | cycle y | 0 2 | 1 1

k1.fir = halt_twice
k1.trace | cycle x | 0 2 | 1 3 | 2 0 -> prints after 3 loads | cycle y | 0 2 | 1 3

k1.fir = halt_twice
k1.trace | cycle x | 0 0 | 1 2 | 2 3 -> prints after 3 loads | cycle y | 0 0 | 1 2 | 2 3

# rows without values
k1.fir
| circuit Halt :
| module Halt : | input clock : Clock
| reg c : UInt<4>, clock
| c <= tail(add(c, UInt<1>(1)), 1) | stop(clock, eq(c, UInt<4>(2)), 1)
k1.trace | cycle | 0 | 1 | 2 | 3
prints after 3 loads | cycle | 0 | 1 | 2

given
# Stops in units that share a host, and in the hub beside them; two levels down, in a unit and as a part of one; behind a pipe, which acts a cycle
# later; and where a pipe is before its condition.
$ golden run k1.fir p.json k1.trace, in each way
k1.fir = stops_below

p.json: {"units":["c","d"],"share":[["c","d"]]}
k1.trace | cycle x | 0 0 | 1 2 | 2 3 -> prints after 3 loads | cycle y | 0 0 | 1 2

p.json: {"units":["c","d"],"share":[["c","d"]]}
k1.trace | cycle x | 0 0 | 1 1 | 2 2 -> prints after 3 loads | cycle y | 0 0 | 1 1

p.json: {"units":["c","d"],"share":[["c","d"]]}
k1.trace | cycle x | 0 0 | 1 3 | 2 2 -> prints after 3 loads | cycle y | 0 0 | 1 3

k1.fir = stop_deep
p.json: {"units":["tile.core"]}
k1.trace | cycle x | 0 0 | 1 1 | 2 0
prints after 3 loads | cycle y | 0 0 | 1 1

k1.fir = stop_deep
p.json: {"units":["tile"]}
k1.trace | cycle x | 0 0 | 1 1 | 2 0
prints after 3 loads | cycle y | 0 0 | 1 1

k1.fir = halt
p.json: {"pipe":["stop:0"]}
k1.trace | cycle x | 0 0 | 1 3 | 2 2 | 3 1
prints after 3 loads | cycle y | 0 0 | 1 3 | 2 2

p.json: {"units":["c","d"],"share":[["c","d"]],"pipe":["d.stop:0"]}
k1.trace | cycle x | 0 0 | 1 2 | 2 0 | 3 1 -> prints after 3 loads | cycle y | 0 0 | 1 2 | 2 0

k1.fir = halt
p.json: {"pipe":["x"]}
k1.trace | cycle x | 0 0 | 1 3 | 2 1 | 3 2
prints after 3 loads | cycle y | 0 0 | 1 0 | 2 3

given
# Stops act where their clocks have an edge. By hand, the counter whose clock has one in each second cycle: c is 0 0 1 1, with edges in the cycles 1
# and 3, so that the stop doesn't act in cycle 2. A stop whose clock has no edge in the trace. Behind a pipe the edge counts that comes a cycle
# later. Two stops with a clock of their own each, whole, on one host, and in a unit and the hub.
$ golden run k1.fir p.json k1.trace, in each way
k1.fir = stops_ticked

k1.fir = counted
p.json: {"clocks":{"clock":[1,2]}}
k1.trace | cycle reset | 0 1 | 1 0 | 2 0 | 3 0 | 4 0 | 5 0
prints after 3 loads | cycle out | 0 00 | 1 00 | 2 01 | 3 01

k1.fir = halt
p.json: {"clocks":{"clock":[1,65535]}}
k1.trace | cycle x | 0 3 | 1 3 | 2 3
prints after 3 loads | cycle y | 0 3 | 1 3 | 2 3

k1.fir = halt
p.json: {"pipe":["stop:0"],"clocks":{"clock":[1,2]}}
k1.trace | cycle x | 0 3 | 1 0 | 2 0
prints after 3 loads | cycle y | 0 3 | 1 0

k1.fir = halt
p.json: {"pipe":["stop:0"],"clocks":{"clock":[1,2]}}
k1.trace | cycle x | 0 0 | 1 3 | 2 0 | 3 0
prints after 3 loads | cycle y | 0 0 | 1 3 | 2 0 | 3 0

p.json: {"clocks":{"c2":[1,2]}}
k1.trace | cycle x | 0 2 | 1 0 | 2 2 | 3 2 | 4 0 -> prints after 3 loads | cycle y | 0 2 | 1 0 | 2 2 | 3 2

p.json: {"clocks":{"c2":[1,2]},"units":["c","d"],"share":[["c","d"]]}
k1.trace | cycle x | 0 2 | 1 0 | 2 2 | 3 2 | 4 0 -> prints after 3 loads | cycle y | 0 2 | 1 0 | 2 2 | 3 2

p.json: {"clocks":{"c2":[1,2]},"units":["c","d"],"share":[["c","d"]]}
k1.trace | cycle x | 0 2 | 1 0 | 2 1 | 3 2 | 4 0 -> prints after 3 loads | cycle y | 0 2 | 1 0 | 2 1

p.json: {"clocks":{"c1":[1,2]},"units":["d"]}
k1.trace | cycle x | 0 1 | 1 0 | 2 1 | 3 1 | 4 0 -> prints after 3 loads | cycle y | 0 1 | 1 0 | 2 1 | 3 1

given
# Traces with a fault behind the row of a stop.
$ golden run k1.fir p.json k1.trace, in each way
k1.fir = halt
p.json: {}

k1.trace | cycle x | 0 3 | 1 4 -> status 7 after 3 loads | golden: trace: T4 row 1 field 1
k1.trace | cycle x | 0 3 | 1 g -> status 7 after 3 loads | golden: trace: T3 row 1 field 1
k1.trace | cycle x | 0 3 | 1 0 | 3 0 -> status 7 after 3 loads | golden: trace: T2 row 2
k1.trace | cycle x | 0 3 | 1 3 | 2 -> status 7 after 3 loads | golden: trace: T5 row 2 1

given
# The row of a stop can't be written; and no row behind it is put.
$ golden run k1.fir p.json k1.trace
k1.fir = counted
p.json: {}
k1.trace | cycle reset | 0 1 | 1 0 | 2 0 | 3 0

out fails at put 3, byte 3
out: "cycle out\n0 00\n1 00\n2 0" -> status 4 after 3 loads | golden: cannot write

$ golden run k1.fir p.json k1.trace --workers 2
out fails at put 3, byte 3
out: "cycle out\n0 00\n1 00\n2 0"
status 4 after 3 loads | golden: cannot write

$ golden run k1.fir p.json k1.trace --mono
out fails at put 3, byte 3
out: "cycle out\n0 00\n1 00\n2 0"
status 4 after 3 loads | golden: cannot write

out fails at put 4, byte 3 -> prints after 3 loads | cycle out | 0 00 | 1 00 | 2 01

given
# Each stop has a channel and a tray, behind those of the outputs: also with direct channels, and with a pipe.
$ golden check k1.fir p.json
k1.fir = stop_below
k1.trace: ""

k1.fir = counted
p.json: {}
prints after 2 loads
| machine hub: host 0 | machine in:reset host 1 | machine out:out host 2 | machine halt:stop:0 host 3
| channel reset in:reset hub: UInt<1> capacity 2 needs -
| channel out hub: out:out UInt<8> capacity 2 needs -
| channel stop:0 hub: halt:stop:0 UInt<1> capacity 2 needs -

p.json: {"units":["c"]}
prints after 2 loads
| machine hub: host 0 | machine c host 1 | machine in:x host 2 | machine out:y host 3 | machine halt:stop:0 host 4 | machine halt:c.stop:0 host 5
| channel x in:x hub: UInt<2> capacity 2 needs -
| channel c.i hub: c UInt<2> capacity 2 needs x
| channel y hub: out:y UInt<2> capacity 2 needs x
| channel stop:0 hub: halt:stop:0 UInt<1> capacity 2 needs x
| channel c.stop:0 c halt:c.stop:0 UInt<1> capacity 2 needs c.i

p.json: {"units":["c"],"direct":true}
prints after 2 loads
| machine hub: host 0 | machine c host 1 | machine in:x host 2 | machine out:y host 3 | machine halt:stop:0 host 4 | machine halt:c.stop:0 host 5
| channel x in:x hub: UInt<2> capacity 2 needs -
| channel c.i in:x c UInt<2> capacity 2 needs -
| channel y in:x out:y UInt<2> capacity 2 needs -
| channel stop:0 hub: halt:stop:0 UInt<1> capacity 2 needs x
| channel c.stop:0 c halt:c.stop:0 UInt<1> capacity 2 needs c.i

p.json: {"units":["c"],"pipe":["c.stop:0"]}
prints after 2 loads
| machine hub: host 0 | machine c host 1 | machine in:x host 2 | machine out:y host 3 | machine halt:stop:0 host 4 | machine halt:c.stop:0 host 5
| channel x in:x hub: UInt<2> capacity 2 needs -
| channel c.i hub: c UInt<2> capacity 2 needs x
| channel y hub: out:y UInt<2> capacity 2 needs x
| channel stop:0 hub: halt:stop:0 UInt<1> capacity 2 needs x
| channel c.stop:0 c halt:c.stop:0 UInt<1> capacity 2 pipe needs c.i

given
# Steps go over all rows of a trace: all steps of two cycles, where a stop acts in the first.

$ golden replay k1.fir p.json k1.trace s.steps
k1.fir = halt
p.json: {}
k1.trace | cycle x | 0 3 | 1 1
s.steps
| fire x | latch x | finish in:x | fire y | latch y | finish out:y | fire stop:0 | latch stop:0 | finish halt:stop:0 | finish hub: | fire x
| latch x | finish in:x | fire y | latch y | finish out:y | fire stop:0 | latch stop:0 | finish halt:stop:0 | finish hub:
prints after 4 loads | x 2/2 3 1 | y 2/2 3 1 | stop:0 2/2 1 0
"#;
