//! Snapshots that are refused; loads and puts of `save` and `resume` that fail.

pub(crate) const ROWS: &str = r#"
given
# Texts that are no snapshot of the counter: without lines, with one, not as it would be written, with a line twice, of another circuit, and without
# the last line end. S1 comes before S2, and the trace's fault before both.
$ golden resume k1.fir p.json k1.trace k1.snap, in each way
k1.fir = counter
p.json: {}
k1.trace | cycle reset | 0 1 | 1 0 | 2 0 | 3 0

k1.snap: "" -> status 10 after 4 loads | golden: snapshot: S1 line 1
k1.snap: golden snapshot 1 -> status 10 after 4 loads | golden: snapshot: S1 line 1
k1.snap | golden snapshot 1 -> status 10 after 4 loads | golden: snapshot: S1 line 2
k1.snap: "golden snapshot 1\r\ncycle 3\r\nreg c 02\r\n" -> status 10 after 4 loads | golden: snapshot: S1 line 1
k1.snap | golden snapshot 1 | cycle 1000001 -> status 10 after 4 loads | golden: snapshot: S1 line 2
k1.snap | golden snapshot 1 | cycle 03 -> status 10 after 4 loads | golden: snapshot: S1 line 2
k1.snap | golden snapshot 1 | cycle 3 | reg c 00 -> status 10 after 4 loads | golden: snapshot: S1 line 3
k1.snap | golden snapshot 1 | cycle 3 | reg c 2 -> status 10 after 4 loads | golden: snapshot: S1 line 3
k1.snap | golden snapshot 1 | cycle 3 | reg c 0A -> status 10 after 4 loads | golden: snapshot: S1 line 3
k1.snap | golden snapshot 1 | cycle 3 | reg c 100 -> status 10 after 4 loads | golden: snapshot: S1 line 3
k1.snap: "golden snapshot 1\ncycle 3\nreg c 02" -> status 10 after 4 loads | golden: snapshot: S1 line 3
k1.snap | golden snapshot 1 | cycle 3 | reg c 02 | reg c 02 -> status 10 after 4 loads | golden: snapshot: S1 line 4
k1.snap | golden snapshot 1 | cycle 3 | mem m 1 22 -> status 10 after 4 loads | golden: snapshot: S1 line 3
k1.snap | golden snapshot 1 | cycle 9 | reg c 00 -> status 10 after 4 loads | golden: snapshot: S1 line 3

k1.trace | cycle reset | 0 1 | 1 2
k1.snap: "" -> status 7 after 3 loads | golden: trace: T4 row 1 field 1

given
# Texts that are no snapshot of a memory, and of a circuit with a pipe: an address at the depth and one with a leading zero, words out of order,
# kinds in another order, the register of a pipe as one of the circuit, registers out of order, and a pipe that isn't asked for.
$ golden resume k1.fir p.json k1.trace k1.snap, in each way
k1.fir = late
k1.trace | cycle a e v | 0 1 1 11 | 1 1 0 22 | 2 3 1 33 | 3 1 1 44 | 4 0 0 00

p.json: {}
k1.snap | golden snapshot 1 | cycle 2 | mem m 3 22 -> status 10 after 4 loads | golden: snapshot: S1 line 3

p.json: {}
k1.snap | golden snapshot 1 | cycle 2 | mem m 01 22 -> status 10 after 4 loads | golden: snapshot: S1 line 3

p.json: {}
k1.snap | golden snapshot 1 | cycle 2 | mem m 1 22 | mem m 0 11 -> status 10 after 4 loads | golden: snapshot: S1 line 4

p.json: {"memories":["m"]}
k1.snap | golden snapshot 1 | cycle 2 | mem m 1 22 | read m.r.data 11 -> status 10 after 4 loads | golden: snapshot: S1 line 4

p.json: {"memories":["m"]}
k1.snap | golden snapshot 1 | cycle 2 | read m.r 11 -> status 10 after 4 loads | golden: snapshot: S1 line 3

k1.fir = parts
p.json: {"units":["count","sum"],"pipe":["sum.a"]}
k1.trace | cycle | 0 | 1 | 2 | 3 | 4 | 5
k1.snap | golden snapshot 1 | cycle 3 | reg pipe:sum.a 2
status 10 after 4 loads | golden: snapshot: S1 line 3

k1.fir = parts
p.json: {"units":["count","sum"],"pipe":["sum.a"]}
k1.trace | cycle | 0 | 1 | 2 | 3 | 4 | 5
k1.snap | golden snapshot 1 | cycle 3 | reg sum.s 1 | reg count.r 3
status 10 after 4 loads | golden: snapshot: S1 line 4

k1.fir = parts
p.json: {"units":["count","sum"],"pipe":["sum.a"]}
k1.trace | cycle | 0 | 1 | 2 | 3 | 4 | 5
k1.snap | golden snapshot 1 | cycle 3 | pipe sum.a 2 | reg count.r 3
status 10 after 4 loads | golden: snapshot: S1 line 4

k1.fir = parts
p.json: {"units":["count","sum"]}
k1.trace | cycle | 0 | 1 | 2 | 3 | 4 | 5
k1.snap | golden snapshot 1 | cycle 3 | pipe sum.a 2
status 10 after 4 loads | golden: snapshot: S1 line 3

given
# A file of a snapshot that is missing or can't be loaded. Puts that fail: the only one of `save`, a row of `resume`; and a failing `err` changes no
# status.
$ golden resume k1.fir p.json k1.trace k1.snap
k1.fir = counter
p.json: {}
k1.trace | cycle reset | 0 1 | 1 0 | 2 0 | 3 0

status 3 after 4 loads | golden: cannot load k1.snap

$ golden save k1.fir p.json k1.trace 3
load 2 fails -> status 3 after 3 loads | golden: cannot load k1.trace

$ golden save k1.fir p.json k1.trace 3
out fails at put 0, byte 3
out: gol
status 4 after 3 loads | golden: cannot write

$ golden save k1.fir p.json k1.trace 5
err fails at put 0, byte 8 -> status 10 after 3 loads: "golden: "

k1.snap | golden snapshot 1 | cycle 3 | reg c 02
out fails at put 0, byte 3
out: cyc
status 4 after 4 loads | golden: cannot write

k1.snap | golden snapshot 1 | cycle 3 | reg c 02
out fails at put 1, byte 3
out: "cycle out\n3 0"
status 4 after 4 loads | golden: cannot write

k1.snap | golden snapshot 1 | cycle 1
out fails at put 3, byte 3
out: "cycle out\n1 00\n2 01\n3 0"
status 4 after 4 loads | golden: cannot write

k1.snap | golden snapshot 1 | cycle 3 | reg c 02
out fails at put 2, byte 3 -> prints after 4 loads | cycle out | 3 02
"#;
