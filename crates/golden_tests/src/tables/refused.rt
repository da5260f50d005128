//! A call that is refused with each status.

pub(crate) const ROWS: &str = r#"
$ golden run k1.fir p.json k1.trace
k1.fir: ""
p.json: {}
k1.trace | cycle reset | 0 1 | 1 0 | 2 0 | 3 0
status 1 after 1 load | golden: circuit: syntax line 1

$ golden run k1.fir
k1.fir: ""
p.json: ""
k1.trace: ""
usage: golden: words: a file or a number is missing

$ golden check k1.fir p2.json
k1.fir = counter
p.json: {}
k1.trace: ""
status 3 after 2 loads | golden: cannot load p2.json

$ golden check k1.fir p.json
k1.fir = counter
p.json: ""
k1.trace: ""
status 6 after 2 loads | golden: partition: P1 -

$ golden run k1.fir p.json k1.trace
k1.fir = counter
p.json: {}
k1.trace: cycle
status 7 after 3 loads | golden: trace: T1 field 1

$ golden replay k1.fir p.json k1.trace s.steps
k1.fir = counter
p.json: {}
k1.trace | cycle reset | 0 1 | 1 0 | 2 0 | 3 0
s.steps | latch reset
status 9 after 4 loads | golden: step 1: NoToken reset

$ golden resume k1.fir p.json k1.trace k1.snap
k1.fir = counter
p.json: {}
k1.trace | cycle reset | 0 1 | 1 0 | 2 0 | 3 0
k1.snap | golden
status 10 after 4 loads | golden: snapshot: S1 line 1

$ golden save k1.fir p.json k1.trace 5
k1.fir = counter
p.json: {}
k1.trace | cycle reset | 0 1 | 1 0 | 2 0 | 3 0
status 10 after 3 loads | golden: snapshot: S2 5 4
"#;
