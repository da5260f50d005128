//! `save` and `resume`: the snapshot of a run, and the rows that begin with a snapshot. Expected texts of the counter are worked by hand from
//! docs/FORMATS.md, and the texts of cuts by a model in Python that has nothing of golden.

pub(crate) const SAVED: &str = r#"
given
# The counter: in its middle, before its first cycle and one where all values are 0, behind its last cycle, and later. A trace without rows. The
# faults of the partition and the trace come first.
k1.fir = counter
p.json: {}
k1.trace | cycle reset | 0 1 | 1 0 | 2 0 | 3 0

$ golden save k1.fir p.json k1.trace 3, in each way -> saves after 3 loads | golden snapshot 1 | cycle 3 | reg c 02
$ golden save k1.fir p.json k1.trace 0, in each way -> saves after 3 loads | golden snapshot 1 | cycle 0
$ golden save k1.fir p.json k1.trace 1, in each way -> saves after 3 loads | golden snapshot 1 | cycle 1
$ golden save k1.fir p.json k1.trace 4, in each way -> saves after 3 loads | golden snapshot 1 | cycle 4 | reg c 03
$ golden save k1.fir p.json k1.trace 5, in each way -> status 10 after 3 loads | golden: snapshot: S2 5 4

$ golden save k1.fir p.json k1.trace 0, in each way
k1.trace: cycle reset -> saves after 3 loads | golden snapshot 1 | cycle 0

$ golden save k1.fir p.json k1.trace 1, in each way
k1.trace: cycle reset -> status 10 after 3 loads | golden: snapshot: S2 1 0

$ golden save k1.fir p.json k1.trace 5, in each way
k1.trace | cycle reset | 0 1 | 1 2 -> status 7 after 3 loads | golden: trace: T4 row 1 field 1

$ golden save k1.fir p.json k1.trace 5, in each way
p.json: {"units":["c"]}
k1.trace: cycle
status 6 after 2 loads | golden: partition: P2 c

$ golden save k1.fir p.json k1.trace 1, in each way
k1.fir = kinds
k1.trace | cycle x | 0 1d | 1 00
saves after 3 loads | golden snapshot 1 | cycle 1 | reg s 1d | reg w ffffffffffffffffffffffffffffffff
"#;

pub(crate) const SAVED_STOPS: &str = r#"
given
# Runs that a stop ends: a state after the stop is none of theirs. A stop in the middle, in the first cycle, and in the last, which has its row.
# Behind a pipe, and with a slow clock.
k1.fir = halt
p.json: {}

$ golden save k1.fir p.json k1.trace 2, in each way
k1.fir = counted
k1.trace | cycle reset | 0 1 | 1 0 | 2 0 | 3 0
saves after 3 loads | golden snapshot 1 | cycle 2 | reg c 01

$ golden save k1.fir p.json k1.trace 3, in each way
k1.fir = counted
k1.trace | cycle reset | 0 1 | 1 0 | 2 0 | 3 0
status 10 after 3 loads | golden: snapshot: S2 3 2

$ golden save k1.fir p.json k1.trace 5, in each way
k1.fir = counted
k1.trace | cycle reset | 0 1 | 1 0 | 2 0 | 3 0
status 10 after 3 loads | golden: snapshot: S2 5 2

$ golden save k1.fir p.json k1.trace 0, in each way
k1.trace | cycle x | 0 3 | 1 1 -> saves after 3 loads | golden snapshot 1 | cycle 0

$ golden save k1.fir p.json k1.trace 1, in each way
k1.trace | cycle x | 0 3 | 1 1 -> status 10 after 3 loads | golden: snapshot: S2 1 0

$ golden save k1.fir p.json k1.trace 2, in each way
k1.trace | cycle x | 0 1 | 1 3 -> saves after 3 loads | golden snapshot 1 | cycle 2

$ golden save k1.fir p.json k1.trace 3, in each way
k1.trace | cycle x | 0 1 | 1 3 -> status 10 after 3 loads | golden: snapshot: S2 3 2

$ golden save k1.fir p.json k1.trace 2, in each way
p.json: {"pipe":["stop:0"]}
k1.trace | cycle x | 0 0 | 1 3 | 2 2 | 3 1
saves after 3 loads | golden snapshot 1 | cycle 2 | pipe stop:0 1

$ golden save k1.fir p.json k1.trace 3, in each way
p.json: {"pipe":["stop:0"]}
k1.trace | cycle x | 0 0 | 1 3 | 2 2 | 3 1
status 10 after 3 loads | golden: snapshot: S2 3 2

$ golden save k1.fir p.json k1.trace 3, in each way
k1.fir = counted
p.json: {"clocks":{"clock":[1,2]}}
k1.trace | cycle reset | 0 1 | 1 0 | 2 0 | 3 0 | 4 0 | 5 0
saves after 3 loads | golden snapshot 1 | cycle 3 | reg c 01

$ golden save k1.fir p.json k1.trace 4, in each way
k1.fir = counted
p.json: {"clocks":{"clock":[1,2]}}
k1.trace | cycle reset | 0 1 | 1 0 | 2 0 | 3 0 | 4 0 | 5 0
status 10 after 3 loads | golden: snapshot: S2 4 3
"#;

pub(crate) const RESUMED: &str = r#"
given
# From each cycle, from the last one on, and later. From states to which no run comes. A trace without rows. A stop counts from the snapshot on,
# also in its first cycle.
$ golden resume k1.fir p.json k1.trace k1.snap, in each way
k1.fir = counter
p.json: {}
k1.trace | cycle reset | 0 1 | 1 0 | 2 0 | 3 0

k1.snap | golden snapshot 1 | cycle 3 | reg c 02 -> prints after 4 loads | cycle out | 3 02
k1.snap | golden snapshot 1 | cycle 0 -> prints after 4 loads | cycle out | 0 00 | 1 00 | 2 01 | 3 02
k1.snap | golden snapshot 1 | cycle 4 | reg c 03 -> prints after 4 loads | cycle out
k1.snap | golden snapshot 1 | cycle 2 | reg c fe -> prints after 4 loads | cycle out | 2 fe | 3 ff
k1.snap | golden snapshot 1 | cycle 5 | reg c 04 -> status 10 after 4 loads | golden: snapshot: S2 5 4
k1.snap | golden snapshot 1 | cycle 1000000 -> status 10 after 4 loads | golden: snapshot: S2 1000000 4

k1.trace: cycle reset
k1.snap | golden snapshot 1 | cycle 0 -> prints after 4 loads | cycle out

k1.fir = counted
k1.snap | golden snapshot 1 | cycle 1 -> prints after 4 loads | cycle out | 1 00 | 2 01

k1.fir = counted
k1.snap | golden snapshot 1 | cycle 2 | reg c 01 -> prints after 4 loads | cycle out | 2 01

k1.fir = counted
k1.snap | golden snapshot 1 | cycle 3 | reg c 02 -> prints after 4 loads | cycle out | 3 02

k1.fir = halt
p.json: {"pipe":["stop:0"]}
k1.trace | cycle x | 0 0 | 1 3 | 2 2 | 3 1
k1.snap | golden snapshot 1 | cycle 2 | pipe stop:0 1
prints after 4 loads | cycle y | 2 2

k1.fir = kinds
k1.trace | cycle x | 0 1d | 1 00
k1.snap | golden snapshot 1 | cycle 1 | reg s 1d | reg w ffffffffffffffffffffffffffffffff
prints after 4 loads | cycle y | 1 1d
"#;

pub(crate) const MOVED: &str = r#"
given
# Saved under one partition, and resumed under another with the same pipes and clocks: a memory that is listed and one that is not, each way; pipes
# between two units in either order, and out of one.
$ golden resume k1.fir p.json k1.trace k1.snap, in each way
k1.fir = late
k1.trace | cycle a e v | 0 1 1 11 | 1 1 0 22 | 2 3 1 33 | 3 1 1 44 | 4 0 0 00

$ golden save k1.fir p.json k1.trace 2, in each way
p.json: {"memories":["m"]} -> saves after 3 loads | golden snapshot 1 | cycle 2 | mem m 1 22

p.json: {}
k1.snap | golden snapshot 1 | cycle 2 | mem m 1 22 -> prints after 4 loads | cycle o | 2 00 | 3 00 | 4 44

$ golden save k1.fir p.json k1.trace 1, in each way
p.json: {} -> saves after 3 loads | golden snapshot 1 | cycle 1 | read m.r.data 11 | mem m 1 11

p.json: {"memories":["m"]}
k1.snap | golden snapshot 1 | cycle 1 | read m.r.data 11 | mem m 1 11 -> prints after 4 loads | cycle o | 1 11 | 2 00 | 3 00 | 4 44

$ golden save k1.fir p.json k1.trace 2, in each way
k1.fir = pair
p.json: {"units":["a","b"],"pipe":["b.m","a.k"]}
k1.trace | cycle x | 0 11 | 1 83 | 2 05 | 3 00
saves after 3 loads | golden snapshot 1 | cycle 2 | pipe a.k 22 | pipe b.m 83

k1.fir = pair
p.json: {"units":["b","a"],"pipe":["a.k","b.m"]}
k1.trace | cycle x | 0 11 | 1 83 | 2 05 | 3 00
k1.snap | golden snapshot 1 | cycle 2 | pipe a.k 22 | pipe b.m 83
prints after 4 loads | cycle q | 2 27 | 3 06

$ golden save k1.fir p.json k1.trace 3, in each way
k1.fir = pair
p.json: {"units":["b"],"pipe":["b.n","q"]}
k1.trace | cycle x | 0 11 | 1 83 | 2 05 | 3 00
saves after 3 loads | golden snapshot 1 | cycle 3 | pipe b.n 0a | pipe q 03

k1.fir = pair
p.json: {"units":["a","b"],"pipe":["b.n","q"]}
k1.trace | cycle x | 0 11 | 1 83 | 2 05 | 3 00
k1.snap | golden snapshot 1 | cycle 3 | pipe b.n 0a | pipe q 03
prints after 4 loads | cycle q | 3 03
"#;

pub(crate) const MOVED_CLOCKS: &str = r#"
given
# The same with clocks: shared units with memories, listed and not; a memory of two clocks; a pipe; units of one module; the handshake with a pipe.
# The cycle of a snapshot counts for its edges. A run may also go on with other clocks.
$ golden resume k1.fir p.json k1.trace k1.snap, in each way

$ golden save k1.fir p.json k1.trace 4, in each way
k1.fir = sums
p.json: {"clocks":{"c2":[1,2]},"units":["u","v"],"share":[["u","v"]],"memories":["u.m","v.m"]}
k1.trace | cycle x | 0 1 | 1 2 | 2 3 | 3 4 | 4 5 | 5 6
saves after 3 loads | golden snapshot 1 | cycle 4 | mem u.m 0 a | mem v.m 0 6

k1.fir = sums
p.json: {"clocks":{"c2":[1,2]},"units":["v"]}
k1.trace | cycle x | 0 1 | 1 2 | 2 3 | 3 4 | 4 5 | 5 6
k1.snap | golden snapshot 1 | cycle 4 | mem u.m 0 a | mem v.m 0 6
prints after 4 loads | cycle p q | 4 a 6 | 5 f 6

$ golden save k1.fir p.json k1.trace 3, in each way
k1.fir = words
p.json: {"clocks":{"c2":[1,2]},"memories":["m"]}
k1.trace | cycle a v | 0 0 1 | 1 0 2 | 2 0 3 | 3 0 4 | 4 0 5 | 5 1 6
saves after 3 loads | golden snapshot 1 | cycle 3 | read m.r.data 2 | read m.s.data 2 | mem m 0 2

k1.fir = words
p.json: {"clocks":{"c2":[1,2]}}
k1.trace | cycle a v | 0 0 1 | 1 0 2 | 2 0 3 | 3 0 4 | 4 0 5 | 5 1 6
k1.snap | golden snapshot 1 | cycle 3 | read m.r.data 2 | read m.s.data 2 | mem m 0 2
prints after 4 loads | cycle o q | 3 2 2 | 4 4 4 | 5 4 4

$ golden save k1.fir p.json k1.trace 3, in each way
k1.fir = parts
p.json: {"clocks":{"c2":[2,3]},"units":["count","sum"],"pipe":["sum.a"]}
k1.trace | cycle | 0 | 1 | 2 | 3 | 4 | 5
saves after 3 loads | golden snapshot 1 | cycle 3 | reg count.r 3 | reg sum.s 1 | pipe sum.a 2

k1.fir = parts
p.json: {"clocks":{"c2":[2,3]},"units":["sum"],"pipe":["sum.a"]}
k1.trace | cycle | 0 | 1 | 2 | 3 | 4 | 5
k1.snap | golden snapshot 1 | cycle 3 | reg count.r 3 | reg sum.s 1 | pipe sum.a 2
prints after 4 loads | cycle p q | 3 3 1 | 4 4 1 | 5 5 4

$ golden save k1.fir p.json k1.trace 3, in each way
k1.fir = crossed
p.json: {"clocks":{"c1":[1,2],"c2":[2,3]},"units":["u","v","w"],"share":[["u","v","w"]]}
k1.trace | cycle | 0 | 1 | 2 | 3 | 4 | 5
saves after 3 loads | golden snapshot 1 | cycle 3 | reg u.r 1 | reg u.s 1 | reg v.r 2 | reg w.r 2 | reg w.s 1

k1.fir = crossed
p.json: {"clocks":{"c1":[1,2],"c2":[2,3]},"units":["w","v"]}
k1.trace | cycle | 0 | 1 | 2 | 3 | 4 | 5
k1.snap | golden snapshot 1 | cycle 3 | reg u.r 1 | reg u.s 1 | reg v.r 2 | reg w.r 2 | reg w.s 1
prints after 4 loads | cycle p q r | 3 1 0 1 | 4 1 2 1 | 5 3 2 3

$ golden save k1.fir p.json k1.trace 5, in each way
k1.fir = domains
p.json: {"clocks":{"slow":[2,3]},"units":["left","right"],"share":[["left","right"]],"pipe":["right.other"]}
k1.trace | cycle x | 0 1 | 1 2 | 2 3 | 3 4 | 4 5 | 5 6 | 6 7 | 7 8 | 8 9 | 9 a | 10 b | 11 c
saves after 3 loads | golden snapshot 1 | cycle 5 | reg left.d 4 | reg right.d 1 | reg right.f 1

k1.fir = domains
p.json: {"clocks":{"slow":[2,3]},"units":["right"],"pipe":["right.other"]}
k1.trace | cycle x | 0 1 | 1 2 | 2 3 | 3 4 | 4 5 | 5 6 | 6 7 | 7 8 | 8 9 | 9 a | 10 b | 11 c
k1.snap | golden snapshot 1 | cycle 5 | reg left.d 4 | reg right.d 1 | reg right.f 1
prints after 4 loads | cycle p q valid | 5 4 1 1 | 6 4 4 0 | 7 7 4 1 | 8 7 4 1 | 9 7 7 0 | 10 a 7 1 | 11 a 7 1

k1.fir = dual
p.json: {}
k1.trace | cycle | 0 | 1 | 2 | 3 | 4 | 5
k1.snap | golden snapshot 1 | cycle 3 | reg r 3 | reg s 3
prints after 4 loads | cycle p q | 3 3 3 | 4 4 6 | 5 5 a
"#;
