//! A call of each command that prints: `run` without workers and with two, by the simulator and with a bridge, `check`, `replay`, `save`, `resume`
//! and `demo`.

pub(crate) const ROWS: &str = r#"
$ golden run k1.fir p.json k1.trace --capacity 1 --workers 0
k1.fir = pair
p.json: {"units":["a","b"]}
k1.trace | cycle x | 0 0f | 1 81
prints after 3 loads | cycle q | 0 11 | 1 83

$ golden run k1.fir p.json k1.trace --capacity 1 --workers 2
k1.fir = pair
p.json: {"units":["a","b"]}
k1.trace | cycle x | 0 0f | 1 81
prints after 3 loads | cycle q | 0 11 | 1 83

$ golden run k1.fir p.json k1.trace --mono
k1.fir = counter
p.json: {}
k1.trace | cycle reset | 0 1 | 1 0 | 2 0 | 3 0
prints after 3 loads | cycle out | 0 00 | 1 00 | 2 01 | 3 02

$ golden run k1.fir p.json k1.trace
k1.fir = two
p.json: {"bridges":[{"name":"echo8","sees":["q"],"drives":["x"]}]}
k1.trace | cycle | 0 | 1 | 2 | 3 | 4
prints after 3 loads | cycle p | 0 00 | 1 00 | 2 00 | 3 ff | 4 fd

$ golden check k1.fir p.json --capacity 1
k1.fir = pair
p.json: {"units":["a","b"]}
k1.trace: ""
prints after 2 loads
| machine hub: host 0 | machine a host 1 | machine b host 2 | machine in:x host 3 | machine out:q host 4
| channel x in:x hub: UInt<8> capacity 1 needs -
| channel a.x hub: a UInt<8> capacity 1 needs x
| channel a.k hub: a UInt<8> capacity 1 needs b.n
| channel a.p a hub: UInt<8> capacity 1 needs a.x
| channel a.q a hub: UInt<8> capacity 1 needs a.x a.k
| channel b.m hub: b UInt<8> capacity 1 needs a.p
| channel b.n b hub: UInt<8> capacity 1 needs b.m
| channel q hub: out:q UInt<8> capacity 1 needs a.q

$ golden replay k1.fir p.json k1.trace s.steps --capacity 1
k1.fir = pair
p.json: {"units":["a","b"]}
k1.trace | cycle x | 0 0f | 1 81
s.steps | fire x | latch x | fire a.x | finish in:x
prints after 4 loads | x 1/1 0f | a.x 1/0 0f | a.k 0/0 | a.p 0/0 | a.q 0/0 | b.m 0/0 | b.n 0/0 | q 0/0

$ golden save k1.fir p.json k1.trace 3
k1.fir = counter
p.json: {}
k1.trace | cycle reset | 0 1 | 1 0 | 2 0 | 3 0
saves after 3 loads | golden snapshot 1 | cycle 3 | reg c 02

$ golden resume k1.fir p.json k1.trace k1.snap
k1.fir = counter
p.json: {}
k1.trace | cycle reset | 0 1 | 1 0 | 2 0 | 3 0
k1.snap | golden snapshot 1 | cycle 2 | reg c 01
prints after 4 loads | cycle out | 2 01 | 3 02

$ golden demo 0 1
k1.fir: ""
p.json: ""
k1.trace: ""
prints after 0 loads | demo seed 0 size 1 cycles 4 | machines 5 channels 6 steps 68 | last 5273ea78 83bf1c91 | fold 1523c34a bfd1efce
"#;
