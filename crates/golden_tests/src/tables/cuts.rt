//! The texts of `check`.

pub(crate) const UNIT_CUTS: &str = r#"
given
# Cuts that are printed: units, and memories beside them and in them.
$ golden check k1.fir p.json
k1.trace: ""

$ golden check k1.fir p.json --capacity 1
k1.fir = pair
p.json: {"units":["a","b"]}
prints after 2 loads
| machine hub: host 0 | machine a host 1 | machine b host 2 | machine in:x host 3 | machine out:q host 4
| channel x in:x hub: UInt<8> capacity 1 needs -
| channel a.x hub: a UInt<8> capacity 1 needs x
| channel a.k hub: a UInt<8> capacity 1 needs b.n
| channel a.p a hub: UInt<8> capacity 1 needs a.x
| channel a.q a hub: UInt<8> capacity 1 needs a.x a.k
| channel b.m hub: b UInt<8> capacity 1 needs a.p
| channel b.n b hub: UInt<8> capacity 1 needs b.m
| channel q hub: out:q UInt<8> capacity 1 needs a.q

k1.fir = tiles
p.json: {"units":["tile.core"]}
prints after 2 loads
| machine hub: host 0 | machine tile.core host 1 | machine out:o host 2
| channel tile.core.o tile.core hub: UInt<4> capacity 2 needs -
| channel o hub: out:o UInt<4> capacity 2 needs tile.core.o

$ golden check k1.fir p.json --capacity=3
k1.fir = tiles
p.json: {"capacity":{"o":4}}
prints after 2 loads
| machine hub: host 0 | machine out:o host 1
| channel o hub: out:o UInt<4> capacity 4 needs -

k1.fir = two
p.json: {"units":["u","v"],"share":[["u","v"]]}
prints after 2 loads
| machine hub: host 0 | machine u host 1 | machine v host 1 | machine in:x host 2 | machine out:p host 3 | machine out:q host 4
| channel x in:x hub: UInt<8> capacity 2 needs -
| channel u.a hub: u UInt<8> capacity 2 needs x
| channel u.s u hub: UInt<8> capacity 2 needs -
| channel v.a hub: v UInt<8> capacity 2 needs x
| channel v.s v hub: UInt<8> capacity 2 needs -
| channel p hub: out:p UInt<8> capacity 2 needs u.s
| channel q hub: out:q UInt<8> capacity 2 needs v.s

k1.fir
| circuit Sum :
| module Sum : | input x : SInt<4> | output y : SInt<5>
| y <= add(x, x)
p.json: {}
prints after 2 loads
| machine hub: host 0 | machine in:x host 1 | machine out:y host 2
| channel x in:x hub: SInt<4> capacity 2 needs -
| channel y hub: out:y SInt<5> capacity 2 needs x

# a unit in the parent of a listed memory
k1.fir = addressed
p.json: {"units":["c.leaf"],"memories":["c.m"]}
prints after 2 loads
| machine hub: host 0 | machine c.leaf host 1 | machine c.m host 2 | machine in:x host 3 | machine out:y host 4
| channel x in:x hub: UInt<2> capacity 2 needs -
| channel c.leaf.a hub: c.leaf UInt<2> capacity 2 needs x
| channel c.leaf.b c.leaf hub: UInt<2> capacity 2 needs c.leaf.a
| channel c.m.r.addr hub: c.m UInt<2> capacity 2 needs c.leaf.b
| channel c.m.r.en hub: c.m UInt<1> capacity 2 needs -
| channel c.m.r.data c.m hub: UInt<4> capacity 2 needs c.m.r.addr c.m.r.en
| channel y hub: out:y UInt<4> capacity 2 needs c.m.r.data

# a listed memory in a unit
k1.fir = addressed
p.json: {"units":["c"],"memories":["c.m"]}
prints after 2 loads
| machine hub: host 0 | machine c host 1 | machine c.m host 2 | machine in:x host 3 | machine out:y host 4
| channel x in:x hub: UInt<2> capacity 2 needs -
| channel c.i hub: c UInt<2> capacity 2 needs x
| channel c.o c hub: UInt<4> capacity 2 needs c.m.r.data
| channel c.m.r.addr c c.m UInt<2> capacity 2 needs c.i
| channel c.m.r.en c c.m UInt<1> capacity 2 needs -
| channel c.m.r.data c.m c UInt<4> capacity 2 needs c.m.r.addr c.m.r.en
| channel y hub: out:y UInt<4> capacity 2 needs c.o
"#;

pub(crate) const HOST_CUTS: &str = r#"
given
# Units on one host, at several depths, and machines that feed themselves.
$ golden check k1.fir p.json
k1.trace: ""

# a unit with ports that are not used
k1.fir
| circuit Top :
| module Spare : | input a : UInt<4> | input b : UInt<3> | output s : UInt<4> | output t : UInt<4>
| s <= a | t <= UInt<4>(3)
| module Top : | input x : UInt<4> | output y : UInt<4>
| inst u of Spare
| u.a <= x | u.b is invalid | y <= u.s
p.json: {"units":["u"]}
prints after 2 loads
| machine hub: host 0 | machine u host 1 | machine in:x host 2 | machine out:y host 3
| channel x in:x hub: UInt<4> capacity 2 needs -
| channel u.a hub: u UInt<4> capacity 2 needs x
| channel u.b hub: u UInt<3> capacity 2 needs -
| channel u.s u hub: UInt<4> capacity 2 needs u.a
| channel u.t u hub: UInt<4> capacity 2 needs -
| channel y hub: out:y UInt<4> capacity 2 needs u.s

# three units that share a host
k1.fir = chain
p.json: {"units":["u","v","w"],"share":[["w","u","v"]]}
prints after 2 loads
| machine hub: host 0 | machine u host 1 | machine v host 1 | machine w host 1 | machine in:x host 2 | machine out:y host 3
| channel x in:x hub: UInt<4> capacity 2 needs -
| channel u.a hub: u UInt<4> capacity 2 needs x
| channel u.b u hub: UInt<4> capacity 2 needs u.a
| channel v.a hub: v UInt<4> capacity 2 needs u.b
| channel v.b v hub: UInt<4> capacity 2 needs v.a
| channel w.a hub: w UInt<4> capacity 2 needs v.b
| channel w.b w hub: UInt<4> capacity 2 needs w.a
| channel y hub: out:y UInt<4> capacity 2 needs w.b

# three that share a host, two that share another, and a list of none
k1.fir = chain
p.json: {"units":["q","w","p","v","u"],"share":[["u","v","w"],[],["p","q"]]}
prints after 2 loads
| machine hub: host 0 | machine q host 1 | machine w host 2 | machine p host 1 | machine v host 2 | machine u host 2 | machine in:x host 3
| machine out:y host 4
| channel x in:x hub: UInt<4> capacity 2 needs -
| channel q.a hub: q UInt<4> capacity 2 needs v.b
| channel q.b q hub: UInt<4> capacity 2 needs q.a
| channel w.a hub: w UInt<4> capacity 2 needs q.b
| channel w.b w hub: UInt<4> capacity 2 needs w.a
| channel p.a hub: p UInt<4> capacity 2 needs u.b
| channel p.b p hub: UInt<4> capacity 2 needs p.a
| channel v.a hub: v UInt<4> capacity 2 needs p.b
| channel v.b v hub: UInt<4> capacity 2 needs v.a
| channel u.a hub: u UInt<4> capacity 2 needs x
| channel u.b u hub: UInt<4> capacity 2 needs u.a
| channel y hub: out:y UInt<4> capacity 2 needs w.b

# two units at two depths that share a host
k1.fir
| circuit Top :
| module Part : | input a : UInt<4> | output b : UInt<4>
| b <= not(a)
| module Cell : | input i : UInt<4> | output o : UInt<4>
| inst part of Part
| part.a <= i | o <= part.b
| module Top : | input x : UInt<4> | output y : UInt<4>
| inst c of Cell | inst d of Part
| c.i <= x | d.a <= c.o | y <= d.b
p.json: {"units":["d","c.part"],"share":[["c.part","d"]]}
prints after 2 loads
| machine hub: host 0 | machine d host 1 | machine c.part host 1 | machine in:x host 2 | machine out:y host 3
| channel x in:x hub: UInt<4> capacity 2 needs -
| channel d.a hub: d UInt<4> capacity 2 needs c.part.b
| channel d.b d hub: UInt<4> capacity 2 needs d.a
| channel c.part.a hub: c.part UInt<4> capacity 2 needs x
| channel c.part.b c.part hub: UInt<4> capacity 2 needs c.part.a
| channel y hub: out:y UInt<4> capacity 2 needs d.b

# a unit that is fed by itself through the hub
k1.fir = back
p.json: {"units":["u"]}
prints after 2 loads
| machine hub: host 0 | machine u host 1 | machine in:x host 2 | machine out:y host 3
| channel x in:x hub: SInt<4> capacity 2 needs -
| channel u.a hub: u SInt<4> capacity 2 needs x
| channel u.b hub: u SInt<4> capacity 2 needs u.p
| channel u.p u hub: SInt<4> capacity 2 needs u.a
| channel u.q u hub: SInt<5> capacity 2 needs u.a u.b
| channel y hub: out:y SInt<5> capacity 2 needs u.q

# a listed memory that is fed by itself
k1.fir
| circuit Top :
| module Top : | input clock : Clock | input x : UInt<2> | output y : UInt<2>
| mem m : | data-type => UInt<2> | depth => 4 | read-latency => 0 | write-latency => 1 | reader => r | reader => s
| m.r.clk <= clock | m.s.clk <= clock | m.r.addr <= x | m.s.addr <= m.r.data | m.r.en <= UInt<1>(1) | m.s.en <= bits(x, 0, 0) | y <= m.s.data
p.json: {"memories":["m"]}
prints after 2 loads
| machine hub: host 0 | machine m host 1 | machine in:x host 2 | machine out:y host 3
| channel x in:x hub: UInt<2> capacity 2 needs -
| channel m.r.addr hub: m UInt<2> capacity 2 needs x
| channel m.r.en hub: m UInt<1> capacity 2 needs -
| channel m.r.data m hub: UInt<2> capacity 2 needs m.r.addr m.r.en
| channel m.s.addr hub: m UInt<2> capacity 2 needs m.r.data
| channel m.s.en hub: m UInt<1> capacity 2 needs x
| channel m.s.data m hub: UInt<2> capacity 2 needs m.s.addr m.s.en
| channel y hub: out:y UInt<2> capacity 2 needs m.s.data

# two listed memories, against the order of the tree
k1.fir
| circuit Top :
| module Cell : | input clock : Clock | input i : UInt<1> | output o : UInt<1>
| mem m : | data-type => UInt<1> | depth => 2 | read-latency => 1 | write-latency => 1 | reader => r
| m.r.clk <= clock | m.r.addr <= i | m.r.en <= UInt<1>(1) | o <= m.r.data
| module Top : | input clock : Clock | output y : UInt<1>
| mem t : | data-type => UInt<1> | depth => 2 | read-latency => 0 | write-latency => 1 | reader => r
| inst c of Cell
| c.clock <= clock | t.r.clk <= clock | t.r.addr <= c.o | t.r.en <= UInt<1>(1) | c.i <= t.r.data | y <= t.r.data
p.json: {"units":["c"],"memories":["c.m","t"]}
prints after 2 loads
| machine hub: host 0 | machine c host 1 | machine t host 2 | machine c.m host 3 | machine out:y host 4
| channel c.i hub: c UInt<1> capacity 2 needs t.r.data
| channel c.o c hub: UInt<1> capacity 2 needs c.m.r.data
| channel t.r.addr hub: t UInt<1> capacity 2 needs c.o
| channel t.r.en hub: t UInt<1> capacity 2 needs -
| channel t.r.data t hub: UInt<1> capacity 2 needs t.r.addr t.r.en
| channel c.m.r.addr c c.m UInt<1> capacity 2 needs c.i
| channel c.m.r.en c c.m UInt<1> capacity 2 needs -
| channel c.m.r.data c.m c UInt<1> capacity 2 needs -
| channel y hub: out:y UInt<1> capacity 2 needs t.r.data
"#;

pub(crate) const ORDER_CUTS: &str = r#"
given
# Units against the order of the file, and memories without ports.
$ golden check k1.fir p.json
k1.fir = pair
k1.trace: ""

# a listed memory of latency 1
k1.fir = late
p.json: {"memories":["m"],"capacity":{"m.r.data":3}}
prints after 2 loads
| machine hub: host 0 | machine m host 1 | machine in:a host 2 | machine in:e host 3 | machine in:v host 4 | machine out:o host 5
| channel a in:a hub: UInt<2> capacity 2 needs -
| channel e in:e hub: UInt<1> capacity 2 needs -
| channel v in:v hub: UInt<8> capacity 2 needs -
| channel m.r.addr hub: m UInt<2> capacity 2 needs a
| channel m.r.en hub: m UInt<1> capacity 2 needs e
| channel m.r.data m hub: UInt<8> capacity 3 needs -
| channel m.w.addr hub: m UInt<2> capacity 2 needs a
| channel m.w.en hub: m UInt<1> capacity 2 needs -
| channel m.w.data hub: m UInt<8> capacity 2 needs v
| channel m.w.mask hub: m UInt<1> capacity 2 needs -
| channel o hub: out:o UInt<8> capacity 2 needs m.r.data

# units against the order of the file
p.json: {"units":["b","a"]}
prints after 2 loads
| machine hub: host 0 | machine b host 1 | machine a host 2 | machine in:x host 3 | machine out:q host 4
| channel x in:x hub: UInt<8> capacity 2 needs -
| channel b.m hub: b UInt<8> capacity 2 needs a.p
| channel b.n b hub: UInt<8> capacity 2 needs b.m
| channel a.x hub: a UInt<8> capacity 2 needs x
| channel a.k hub: a UInt<8> capacity 2 needs b.n
| channel a.p a hub: UInt<8> capacity 2 needs a.x
| channel a.q a hub: UInt<8> capacity 2 needs a.x a.k
| channel q hub: out:q UInt<8> capacity 2 needs a.q

# one of the two, so that the hub has the other
p.json: {"units":["b"]}
prints after 2 loads
| machine hub: host 0 | machine b host 1 | machine in:x host 2 | machine out:q host 3
| channel x in:x hub: UInt<8> capacity 2 needs -
| channel b.m hub: b UInt<8> capacity 2 needs x
| channel b.n b hub: UInt<8> capacity 2 needs b.m
| channel q hub: out:q UInt<8> capacity 2 needs x b.n

# neither
p.json: {}
prints after 2 loads
| machine hub: host 0 | machine in:x host 1 | machine out:q host 2
| channel x in:x hub: UInt<8> capacity 2 needs -
| channel q hub: out:q UInt<8> capacity 2 needs x

# two units and their memories, which have no ports
k1.fir = banks
p.json: {"units":["u","v"],"share":[["v","u"]],"memories":["v.m","u.m"]}
prints after 2 loads | machine hub: host 0 | machine u host 1 | machine v host 1 | machine u.m host 2 | machine v.m host 3
"#;

pub(crate) const ROUTED: &str = r#"
given
# The same with direct channels, and with pipes.
$ golden check k1.fir p.json
k1.trace: ""

# all channels are direct
$ golden check k1.fir p.json --capacity 1
k1.fir = pair
p.json: {"units":["a","b"],"direct":true}
prints after 2 loads
| machine hub: host 0 | machine a host 1 | machine b host 2 | machine in:x host 3 | machine out:q host 4
| channel a.x in:x a UInt<8> capacity 1 needs -
| channel a.k b a UInt<8> capacity 1 needs b.m
| channel b.m a b UInt<8> capacity 1 needs a.x
| channel q a out:q UInt<8> capacity 1 needs a.x a.k

# a source that gives its values to the hub too
k1.fir = two
p.json: {"units":["u","v"],"share":[["u","v"]],"direct":true}
prints after 2 loads
| machine hub: host 0 | machine u host 1 | machine v host 1 | machine in:x host 2 | machine out:p host 3 | machine out:q host 4
| channel x in:x hub: UInt<8> capacity 2 needs -
| channel u.a in:x u UInt<8> capacity 2 needs -
| channel v.a hub: v UInt<8> capacity 2 needs x
| channel p u out:p UInt<8> capacity 2 needs -
| channel q v out:q UInt<8> capacity 2 needs -

# a fork of three
k1.fir = fork
p.json: {"units":["u","v","w"],"direct":true}
prints after 2 loads
| machine hub: host 0 | machine u host 1 | machine v host 2 | machine w host 3 | machine in:x host 4 | machine out:p host 5 | machine out:q host 6
| channel u.a in:x u UInt<4> capacity 2 needs -
| channel v.a u v UInt<4> capacity 2 needs u.a
| channel v.b v hub: UInt<4> capacity 2 needs v.a
| channel w.a u w UInt<4> capacity 2 needs u.a
| channel w.b w hub: UInt<4> capacity 2 needs w.a
| channel p u out:p UInt<4> capacity 2 needs u.a
| channel q hub: out:q UInt<5> capacity 2 needs v.b w.b

# what the hub needs stays: for a memory that isn't listed, and for an output that is read
k1.fir = kept
p.json: {"direct":true,"units":["u"]}
prints after 2 loads
| machine hub: host 0 | machine u host 1 | machine in:x host 2 | machine out:y host 3 | machine out:z host 4 | machine out:r host 5
| machine out:q host 6
| channel x in:x hub: UInt<2> capacity 2 needs -
| channel u.a in:x u UInt<2> capacity 2 needs -
| channel u.b u hub: UInt<2> capacity 2 needs u.a
| channel y hub: out:y UInt<2> capacity 2 needs u.b
| channel z u out:z UInt<2> capacity 2 needs u.a
| channel r hub: out:r UInt<2> capacity 2 needs u.b
| channel q hub: out:q UInt<2> capacity 2 needs u.b

# a listed memory gives no direct channel
k1.fir = late
p.json: {"memories":["m"],"direct":true}
prints after 2 loads
| machine hub: host 0 | machine m host 1 | machine in:a host 2 | machine in:e host 3 | machine in:v host 4 | machine out:o host 5
| channel m.r.addr in:a m UInt<2> capacity 2 needs -
| channel m.r.en in:e m UInt<1> capacity 2 needs -
| channel m.r.data m hub: UInt<8> capacity 2 needs -
| channel m.w.addr in:a m UInt<2> capacity 2 needs -
| channel m.w.en hub: m UInt<1> capacity 2 needs -
| channel m.w.data in:v m UInt<8> capacity 2 needs -
| channel m.w.mask hub: m UInt<1> capacity 2 needs -
| channel o hub: out:o UInt<8> capacity 2 needs m.r.data

# a unit that feeds itself
k1.fir = back
p.json: {"units":["u"],"direct":true}
prints after 2 loads
| machine hub: host 0 | machine u host 1 | machine in:x host 2 | machine out:y host 3
| channel u.a in:x u SInt<4> capacity 2 needs -
| channel u.b u u SInt<4> capacity 2 needs u.a
| channel y u out:y SInt<5> capacity 2 needs u.a u.b

# a pipe, and one in a channel of the hub, which is then no direct channel
$ golden check k1.fir p.json --capacity 1
k1.fir = pair
p.json: {"units":["a","b"],"pipe":["a.k"]}
prints after 2 loads
| machine hub: host 0 | machine a host 1 | machine b host 2 | machine in:x host 3 | machine out:q host 4
| channel x in:x hub: UInt<8> capacity 1 needs -
| channel a.x hub: a UInt<8> capacity 1 needs x
| channel a.k hub: a UInt<8> capacity 1 pipe needs b.n
| channel a.p a hub: UInt<8> capacity 1 needs a.x
| channel a.q a hub: UInt<8> capacity 1 needs a.x a.k
| channel b.m hub: b UInt<8> capacity 1 needs a.p
| channel b.n b hub: UInt<8> capacity 1 needs b.m
| channel q hub: out:q UInt<8> capacity 1 needs a.q

$ golden check k1.fir p.json --capacity 1
k1.fir = pair
p.json: {"units":["a","b"],"direct":true,"pipe":["b.n"]}
prints after 2 loads
| machine hub: host 0 | machine a host 1 | machine b host 2 | machine in:x host 3 | machine out:q host 4
| channel a.x in:x a UInt<8> capacity 1 needs -
| channel a.k hub: a UInt<8> capacity 1 needs b.n
| channel b.m a b UInt<8> capacity 1 needs a.x
| channel b.n b hub: UInt<8> capacity 1 pipe needs b.m
| channel q a out:q UInt<8> capacity 1 needs a.x a.k
"#;

pub(crate) const CUT_FAULTS: &str = r#"
given
# Partitions with a fault, of which the first is told.
$ golden check k1.fir p.json
k1.fir = tiles
k1.trace: ""

p.json: [] -> status 6 after 2 loads | golden: partition: P1 -
p.json: {"unit":[]} -> status 6 after 2 loads | golden: partition: P1 unit
p.json: {"units":["tile.cor"]} -> status 6 after 2 loads | golden: partition: P2 tile.cor
p.json: {"units":["tile","tile.core"]} -> status 6 after 2 loads | golden: partition: P3 tile.core

k1.fir = pair
p.json: {"units":["a","b"],"share":[["a","b"]]} -> status 6 after 2 loads | golden: partition: P4 b

p.json: {"memories":["tile.m"]} -> status 6 after 2 loads | golden: partition: P5 tile.m

# a unit that shares its host has a memory that the other one doesn't list
k1.fir
| circuit Both :
| module Cell : | input clock : Clock | input a : UInt<2> | output d : UInt<2>
| mem m : | data-type => UInt<2> | depth => 4 | read-latency => 0 | write-latency => 1 | reader => r | read-under-write => undefined
| m.r.addr <= a | m.r.en <= UInt<1>("h1") | m.r.clk <= clock | d <= m.r.data
| module Both : | input clock : Clock | output z : UInt<2>
| inst c of Cell | inst d of Cell
| c.clock <= clock | d.clock <= clock | c.a <= UInt<2>("h1") | d.a <= c.d | z <= d.d
p.json: {"units":["c","d"],"share":[["c","d"]],"memories":["c.m"]}
status 6 after 2 loads | golden: partition: P6 c.m

p.json: {"capacity":{"oo":1}} -> status 6 after 2 loads | golden: partition: P7 oo
p.json: {"capacity":{"o":0}} -> status 6 after 2 loads | golden: partition: P8 o 0
"#;
