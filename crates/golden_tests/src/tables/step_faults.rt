//! Steps that `replay` refuses.

pub(crate) const ROWS: &str = r#"
given
# Steps of the two units of which the last is refused, and one behind the last cycle.
$ golden replay k1.fir p.json k1.trace s.steps --capacity 1
k1.fir = pair
p.json: {"units":["a","b"]}
k1.trace | cycle x | 0 0f | 1 81

s.steps | go x -> status 9 after 4 loads | golden: step 1: Stranger

s.steps
|
status 9 after 4 loads | golden: step 1: Stranger

s.steps | fire x | fire  x -> status 9 after 4 loads | golden: step 2: Stranger
s.steps | fire b.n -> status 9 after 4 loads | golden: step 1: NeedsInput b.m
s.steps | latch x -> status 9 after 4 loads | golden: step 1: NoToken x
s.steps | fire x | fire x -> status 9 after 4 loads | golden: step 2: Fired
s.steps | fire x | latch x | latch x -> status 9 after 4 loads | golden: step 3: Latched
s.steps | fire x | finish in:x | fire x -> status 9 after 4 loads | golden: step 3: Full x 1
s.steps | finish hub: -> status 9 after 4 loads | golden: step 1: Unfired a.x

k1.trace | cycle x
s.steps | fire x -> status 9 after 4 loads | golden: step 1: Ended

given
# Steps of the listed memory behind its reads, of which the last is refused.
$ golden replay k1.fir p.json k1.trace s.steps --capacity 1
k1.fir = memory
p.json: {"memories":["m"]}
k1.trace | cycle a v | 0 1 0f | 1 1 21 | 2 3 55 | 3 1 00

s.steps = read | finish m -> status 9 after 4 loads | golden: step 15: Unserved w
s.steps = read | serve m x -> status 9 after 4 loads | golden: step 15: Order w
s.steps = read | serve m w -> status 9 after 4 loads | golden: step 15: NeedsInput m.w.addr
s.steps = read | serve m z -> status 9 after 4 loads | golden: step 15: Stranger

s.steps = read
| fire m.w.mask | fire m.w.data | fire m.w.en | fire m.w.addr | latch m.w.addr | latch m.w.en | latch m.w.data | latch m.w.mask | serve m w
| serve m w
status 9 after 4 loads | golden: step 24: Order x

s.steps = read
| fire m.w.mask | fire m.w.data | fire m.w.en | fire m.w.addr | latch m.w.addr | latch m.w.en | latch m.w.data | latch m.w.mask | serve m w
| finish m
status 9 after 4 loads | golden: step 24: Unserved x

given
# A reader of the same cycle is a port that is never due: before its data was given; after that; when the writer was served; and where there is no
# writer.
$ golden replay k1.fir p.json k1.trace s.steps --capacity 1
k1.fir = beside
p.json: {"memories":["m"]}
k1.trace | cycle a v | 0 1 0f | 1 1 21 | 2 3 55 | 3 1 00
s.steps | fire a | latch a | fire m.r.addr | fire m.r.en | latch m.r.addr | latch m.r.en | fire m.r.data | serve m r

s.steps | serve m r -> status 9 after 4 loads | golden: step 1: Unfired m.r.data
status 9 after 4 loads | golden: step 8: Order w

s.steps
| fire a | latch a | fire m.r.addr | fire m.r.en | latch m.r.addr | latch m.r.en | fire m.r.data | fire v | latch v | fire m.w.addr | fire m.w.en
| fire m.w.data | fire m.w.mask | latch m.w.addr | latch m.w.en | latch m.w.data | latch m.w.mask | serve m w | serve m r
status 9 after 4 loads | golden: step 19: Order -

k1.fir
| circuit Only :
| module Only : | input clock : Clock | input a : UInt<2> | output o : UInt<8>
| mem m : | data-type => UInt<8> | depth => 3 | read-latency => 0 | write-latency => 1 | reader => r | read-under-write => undefined
| m.r.clk <= clock | m.r.addr <= a | m.r.en <= UInt<1>("h1") | o <= m.r.data
k1.trace | cycle a | 0 1 | 1 2
status 9 after 4 loads | golden: step 8: Order -

given
# One of two units of one host is refused, whatever the other did.
$ golden replay k1.fir p.json k1.trace s.steps --capacity 1
k1.fir = two
p.json: {"units":["u","v"],"share":[["u","v"]]}
k1.trace | cycle x | 0 01 | 1 10 | 2 00

s.steps | fire v.s | finish u -> status 9 after 4 loads | golden: step 2: Unfired u.s
s.steps | fire u.s | finish u -> status 9 after 4 loads | golden: step 2: NeedsInput u.a
s.steps | fire u.s | latch v.s -> status 9 after 4 loads | golden: step 2: NoToken v.s
s.steps | fire v.s | fire p -> status 9 after 4 loads | golden: step 2: NeedsInput u.s

given
# A source owes each of its channels a token.
$ golden replay k1.fir p.json k1.trace s.steps --capacity 1
k1.fir = two
p.json: {"units":["u","v"],"direct":true}
k1.trace | cycle x | 0 01 | 1 10 | 2 00

s.steps | fire u.a | finish in:x -> status 9 after 4 loads | golden: step 2: Unfired x
s.steps | fire x | finish in:x -> status 9 after 4 loads | golden: step 2: Unfired u.a
s.steps | fire u.s -> status 9 after 4 loads | golden: step 1: Stranger

given
# The token that a channel opens with takes room.
$ golden replay k1.fir p.json k1.trace s.steps --capacity 1
k1.fir = pair
p.json: {"units":["a","b"],"pipe":["x"]}
k1.trace | cycle x | 0 0f | 1 81

s.steps | fire x -> status 9 after 4 loads | golden: step 1: Full x 1
s.steps | latch x | latch x -> status 9 after 4 loads | golden: step 2: Latched
s.steps | latch x | fire x | finish in:x | fire x -> status 9 after 4 loads | golden: step 4: Full x 1

given
# A steps file that is missing, and a trace that is refused before the steps.
$ golden replay k1.fir p.json k1.trace s.steps
k1.fir = counter
p.json: {}

k1.trace | cycle reset | 0 1 | 1 0 | 2 0 | 3 0 -> status 3 after 4 loads | golden: cannot load s.steps

k1.trace | cycle out
s.steps | go -> status 7 after 3 loads | golden: trace: T1 field 1
"#;
