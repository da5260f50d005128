//! Partitions that run, and partitions that are refused.

pub(crate) const ROWS: &str = r#"
given
# Partitions without pipes.
$ golden run k1.fir p.json k1.trace, in each way

k1.fir = pair
p.json: {"units":["a","b"]}
k1.trace | cycle x | 0 0f | 1 81
prints after 3 loads | cycle q | 0 11 | 1 83

k1.fir = pair
p.json: "{\"capacity\":{\"a.k\":4096,\"q\":1},\"units\":[\"b\",\"a\"],\"share\":[[],[\"a\"]]}\r\n"
k1.trace | cycle x | 0 0f | 1 81
prints after 3 loads | cycle q | 0 11 | 1 83

k1.fir = memory
p.json: {"memories":["m"]}
k1.trace | cycle a v | 0 1 0f | 1 1 21 | 2 3 55 | 3 1 00
prints after 3 loads | cycle o0 o1 | 0 00 00 | 1 f0 f0 | 2 00 00 | 3 de 00

k1.fir = late
p.json: {"memories":["m"],"capacity":{"m.r.data":3}}
k1.trace | cycle a e v | 0 1 1 11 | 1 1 0 22 | 2 3 1 33 | 3 1 1 44 | 4 0 0 00
prints after 3 loads | cycle o | 0 00 | 1 11 | 2 00 | 3 00 | 4 44

k1.fir = late, line 15 | read-under-write => old
p.json: {"memories":["m"]}
k1.trace | cycle a e v | 0 1 1 11 | 1 1 0 22 | 2 3 1 33 | 3 1 1 44 | 4 0 0 00
prints after 3 loads | cycle o | 0 00 | 1 00 | 2 00 | 3 00 | 4 22

k1.fir = two
p.json: {"units":["u","v"]}
k1.trace | cycle x | 0 01 | 1 10 | 2 00
prints after 3 loads | cycle p q | 0 00 00 | 1 01 fe | 2 11 ed

k1.fir = two
p.json: {"units":["u","v"],"share":[["u","v"]]}
k1.trace | cycle x | 0 01 | 1 10 | 2 00
prints after 3 loads | cycle p q | 0 00 00 | 1 01 fe | 2 11 ed

k1.fir = tiles
p.json: {"units":["tile.core"]}
k1.trace | cycle | 0
prints after 3 loads | cycle o | 0 a

k1.fir = tiles
p.json: " { \"units\" : [ \"tile\" ] , \"units\" : [ ] } "
k1.trace | cycle | 0
prints after 3 loads | cycle o | 0 a

k1.fir = banks
p.json: {"units":["u","v"],"share":[["v","u"]],"memories":["v.m","u.m"]}
k1.trace | cycle | 0
prints after 3 loads | cycle | 0

k1.fir = fork
p.json: {"units":["u","v","w"],"share":[["u","v","w"]]}
k1.trace | cycle x | 0 1 | 1 a
prints after 3 loads | cycle p q | 0 e 02 | 1 5 14

k1.fir = kept
p.json: {"units":["u"]}
k1.trace | cycle x | 0 1 | 1 1 | 2 2
prints after 3 loads | cycle y z r q | 0 0 2 2 1 | 1 1 2 2 1 | 2 0 1 1 2

k1.fir = banks
p.json: "{\n}"
k1.trace | cycle | 0
prints after 3 loads | cycle | 0

given
# Partitions with pipes: a channel between two units; a top output; a top input; a channel that another passes on; two pipes in one path, and two
# that meet; an output that the hub reads, which sees it as it is; the hub's in-channel, by which a memory of the hub is read; a listed memory's
# address; a channel between units of one host.
$ golden run k1.fir p.json k1.trace, in each way
k1.fir = pair
k1.trace | cycle x | 0 0f | 1 81

p.json: {"units":["a","b"],"pipe":["a.k"]} -> prints after 3 loads | cycle q | 0 0f | 1 9f
p.json: {"units":["a","b"],"pipe":["q"]} -> prints after 3 loads | cycle q | 0 00 | 1 11
p.json: {"units":["a","b"],"pipe":["x"]} -> prints after 3 loads | cycle q | 0 00 | 1 11
p.json: {"units":["a","b"],"pipe":["b.n"]} -> prints after 3 loads | cycle q | 0 0f | 1 9f
p.json: {"units":["a","b"],"pipe":["b.n","b.m"]} -> prints after 3 loads | cycle q | 0 0f | 1 81
p.json: {"units":["a","b"],"pipe":["a.x","a.k"]} -> prints after 3 loads | cycle q | 0 00 | 1 0f

k1.fir = kept
p.json: {"units":["u"],"pipe":["r"]}
k1.trace | cycle x | 0 1 | 1 1 | 2 2
prints after 3 loads | cycle y z r q | 0 0 2 0 1 | 1 1 2 2 1 | 2 0 1 2 2

k1.fir = kept
p.json: {"units":["u"],"pipe":["u.b"]}
k1.trace | cycle x | 0 1 | 1 1 | 2 2
prints after 3 loads | cycle y z r q | 0 0 0 0 3 | 1 0 2 2 1 | 2 1 2 2 1

k1.fir = memory
p.json: {"memories":["m"],"pipe":["m.r.addr"]}
k1.trace | cycle a v | 0 1 0f | 1 1 21 | 2 3 55 | 3 1 00
prints after 3 loads | cycle o0 o1 | 0 00 00 | 1 f0 f0 | 2 de 00 | 3 00 00

k1.fir = fork
p.json: {"units":["u","v","w"],"share":[["u","v","w"]],"pipe":["v.a"]}
k1.trace | cycle x | 0 1 | 1 a
prints after 3 loads | cycle p q | 0 e 10 | 1 5 0b

given
# Partitions with a fault, of which the first is told.
$ golden run k1.fir p.json k1.trace, in each way
k1.fir = tiles
k1.trace: cycle

p.json: "" -> status 6 after 2 loads | golden: partition: P1 -
p.json: [] -> status 6 after 2 loads | golden: partition: P1 -
p.json: {} {} -> status 6 after 2 loads | golden: partition: P1 -
p.json: {"unit":[]} -> status 6 after 2 loads | golden: partition: P1 unit
p.json: {"a":0,"share":["tile"],"units":["x"]} -> status 6 after 2 loads | golden: partition: P1 share
p.json: {"capacity":{"o":1.5}} -> status 6 after 2 loads | golden: partition: P1 capacity
p.json: {"direct":1} -> status 6 after 2 loads | golden: partition: P1 direct
p.json: {"pipe":"o"} -> status 6 after 2 loads | golden: partition: P1 pipe

k1.fir = pair
p.json: {"units":["a","b"],"pipe":["zz"]} -> status 6 after 2 loads | golden: partition: P10 zz

k1.fir = pair
p.json: {"units":["a","b"],"pipe":["q","q"]} -> status 6 after 2 loads | golden: partition: P11 q

k1.fir = pair
p.json: {"units":["a","b"],"pipe":["q","q","zz"]} -> status 6 after 2 loads | golden: partition: P10 zz

k1.fir = pair
p.json: {"units":["b"],"pipe":["q","a.k"]} -> status 6 after 2 loads | golden: partition: P10 a.k

k1.fir = pair
p.json: {"units":["a","b"],"pipe":["zz"],"capacity":{"q":0}} -> status 6 after 2 loads | golden: partition: P8 q 0

# the channel has left
k1.fir = pair
p.json: {"units":["a","b"],"direct":true,"pipe":["a.x"],"capacity":{"x":1}} -> status 6 after 2 loads | golden: partition: P7 x

p.json: {"units":["tile.cor"]} -> status 6 after 2 loads | golden: partition: P2 tile.cor
p.json: {"units":[""]} -> status 6 after 2 loads: "golden: partition: P2 \n"
p.json: {"units":["tile","tile"],"share":[["tile.core"]]} -> status 6 after 2 loads | golden: partition: P2 tile.core
p.json: {"units":["tile","tile.core"]} -> status 6 after 2 loads | golden: partition: P3 tile.core
p.json: {"units":["tile.core","tile"]} -> status 6 after 2 loads | golden: partition: P3 tile

k1.fir = pair
p.json: {"units":["a","b"],"share":[["b"],["b"]]} -> status 6 after 2 loads | golden: partition: P3 b

k1.fir = banks
p.json: {"memories":["u.m","w.m","u.m"]} -> status 6 after 2 loads | golden: partition: P3 u.m

k1.fir = pair
p.json: {"units":["a","b"],"share":[["a","b"]]} -> status 6 after 2 loads | golden: partition: P4 b

p.json: {"memories":["tile.m"]} -> status 6 after 2 loads | golden: partition: P5 tile.m

k1.fir = banks
p.json: {"units":["u","v"],"share":[["u","v"]],"memories":["u.m"],"capacity":{"x":0}} -> status 6 after 2 loads | golden: partition: P6 u.m

p.json: {"capacity":{"oo":1}} -> status 6 after 2 loads | golden: partition: P7 oo
p.json: {"capacity":{"tile.o":1,"o":0}} -> status 6 after 2 loads | golden: partition: P7 tile.o

# the channel has left
k1.fir = pair
p.json: {"units":["a","b"],"direct":true,"capacity":{"a.k":1,"a.p":1}} -> status 6 after 2 loads | golden: partition: P7 a.p

p.json: {"capacity":{"o":0}} -> status 6 after 2 loads | golden: partition: P8 o 0
p.json: {"capacity":{"o":4097}} -> status 6 after 2 loads | golden: partition: P8 o 4097
p.json: {"capacity":{"o":18446744073709551616}} -> status 6 after 2 loads | golden: partition: P1 capacity
p.json: {"units":["tile"],"capacity":{"tile.o":18446744073709551615}} -> status 6 after 2 loads | golden: partition: P8 tile.o 18446744073709551615

k1.fir = memory
p.json: {"memories":["m"],"capacity":{"m.r.clk":1}} -> status 6 after 2 loads | golden: partition: P7 m.r.clk
"#;
