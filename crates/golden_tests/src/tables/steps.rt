//! Steps that `replay` does.

pub(crate) const COUNTER_STEPS: &str = r#"
given
# The counter: its output goes ahead of its input; and no steps.
$ golden replay k1.fir p.json k1.trace s.steps
k1.fir = counter
p.json: {}
k1.trace | cycle reset | 0 1 | 1 0 | 2 0 | 3 0

s.steps | fire out | latch out | finish out:out | fire reset | latch reset | finish hub: | fire out
prints after 4 loads | reset 1/1 1 | out 2/1 00 00

s.steps: "" -> prints after 4 loads | reset 0/0 | out 0/0
"#;

pub(crate) const STEPS_DONE: &str = r#"
given
# Two orders of the same steps, and no step. A memory that is read; that is written at its first port. Two units of one host, of which one goes
# ahead. A memory through its first cycle, ahead of the hub; and on to its second, which reads what the later of its two writers wrote. A memory of
# latency 1 that reads new words: its writer is due before its reader. The two units of one host: only outputs; one in its second cycle while the
# other stays; two whole cycles; one tray ahead; both in their second cycle before the hub takes what they gave, where a channel holds two tokens.
# With direct channels: a whole cycle of units that feed each other; a source and its two channels. With a pipe, whose queue opens with a token: no
# steps; its token is latched before its producer goes; and a second token.
$ golden replay k1.fir p.json k1.trace s.steps --capacity 1

k1.fir = pair
p.json: {"units":["a","b"]}
k1.trace | cycle x | 0 0f | 1 81
s.steps | fire x | latch x | fire a.x | finish in:x
prints after 4 loads | x 1/1 0f | a.x 1/0 0f | a.k 0/0 | a.p 0/0 | a.q 0/0 | b.m 0/0 | b.n 0/0 | q 0/0

k1.fir = pair
p.json: {"units":["a","b"]}
k1.trace | cycle x | 0 0f | 1 81
s.steps: "fire x\r\nfinish in:x\nlatch x\nfire a.x"
prints after 4 loads | x 1/1 0f | a.x 1/0 0f | a.k 0/0 | a.p 0/0 | a.q 0/0 | b.m 0/0 | b.n 0/0 | q 0/0

k1.fir = pair
p.json: {"units":["a","b"]}
k1.trace | cycle x | 0 0f | 1 81
s.steps: ""
prints after 4 loads | x 0/0 | a.x 0/0 | a.k 0/0 | a.p 0/0 | a.q 0/0 | b.m 0/0 | b.n 0/0 | q 0/0

k1.fir = memory
p.json: {"memories":["m"]}
k1.trace | cycle a v | 0 1 0f | 1 1 21 | 2 3 55 | 3 1 00
s.steps = read
prints after 4 loads
| a 1/1 1 | v 1/1 0f | m.r.addr 1/1 1 | m.r.en 1/1 1 | m.r.data 1/0 00 | m.s.addr 1/1 1 | m.s.en 1/1 1 | m.s.data 1/0 00 | m.w.addr 0/0 | m.w.en 0/0
| m.w.data 0/0 | m.w.mask 0/0 | m.x.addr 0/0 | m.x.en 0/0 | m.x.data 0/0 | m.x.mask 0/0 | o0 0/0 | o1 0/0

k1.fir = memory
p.json: {"memories":["m"]}
k1.trace | cycle a v | 0 1 0f | 1 1 21 | 2 3 55 | 3 1 00
s.steps
| fire v | latch v | fire a | latch a | fire m.w.mask | fire m.w.data | fire m.w.en | fire m.w.addr | latch m.w.addr | latch m.w.en | latch m.w.data
| latch m.w.mask | fire m.x.data
prints after 4 loads
| a 1/1 1 | v 1/1 0f | m.r.addr 0/0 | m.r.en 0/0 | m.r.data 0/0 | m.s.addr 0/0 | m.s.en 0/0 | m.s.data 0/0 | m.w.addr 1/1 1 | m.w.en 1/1 1
| m.w.data 1/1 0f | m.w.mask 1/1 1 | m.x.addr 0/0 | m.x.en 0/0 | m.x.data 1/0 f0 | m.x.mask 0/0 | o0 0/0 | o1 0/0

k1.fir = two
p.json: {"units":["u","v"],"share":[["u","v"]]}
k1.trace | cycle x | 0 01 | 1 10 | 2 00
s.steps | fire u.s | fire x | latch x | fire u.a | latch u.a | finish u | fire v.a | fire v.s
prints after 4 loads | x 1/1 01 | u.a 1/1 01 | u.s 1/0 00 | v.a 1/0 fe | v.s 1/0 00 | p 0/0 | q 0/0

k1.fir = memory
p.json: {"memories":["m"]}
k1.trace | cycle a v | 0 1 0f | 1 1 21 | 2 3 55 | 3 1 00
s.steps
| fire a | fire v | latch a | latch v | fire m.r.addr | fire m.r.en | fire m.s.addr | fire m.s.en | latch m.r.addr | latch m.r.en | latch m.s.addr
| latch m.s.en | fire m.r.data | fire m.s.data | fire m.w.addr | fire m.w.en | fire m.w.data | fire m.w.mask | latch m.w.addr | latch m.w.en
| latch m.w.data | latch m.w.mask | fire m.x.addr | fire m.x.en | fire m.x.data | fire m.x.mask | latch m.x.addr | latch m.x.en | latch m.x.data
| latch m.x.mask | serve m w | serve m x | finish m
prints after 4 loads
| a 1/1 1 | v 1/1 0f | m.r.addr 1/1 1 | m.r.en 1/1 1 | m.r.data 1/0 00 | m.s.addr 1/1 1 | m.s.en 1/1 1 | m.s.data 1/0 00 | m.w.addr 1/1 1
| m.w.en 1/1 1 | m.w.data 1/1 0f | m.w.mask 1/1 1 | m.x.addr 1/1 1 | m.x.en 1/1 1 | m.x.data 1/1 f0 | m.x.mask 1/1 1 | o0 0/0 | o1 0/0

k1.fir = memory
p.json: {"memories":["m"]}
k1.trace | cycle a v | 0 1 0f | 1 1 21 | 2 3 55 | 3 1 00
s.steps
| fire a | fire v | latch a | latch v | fire m.r.addr | fire m.r.en | fire m.s.addr | fire m.s.en | latch m.r.addr | latch m.r.en | latch m.s.addr
| latch m.s.en | fire m.r.data | fire m.s.data | fire m.w.addr | fire m.w.en | fire m.w.data | fire m.w.mask | latch m.w.addr | latch m.w.en
| latch m.w.data | latch m.w.mask | fire m.x.addr | fire m.x.en | fire m.x.data | fire m.x.mask | latch m.x.addr | latch m.x.en | latch m.x.data
| latch m.x.mask | serve m w | serve m x | finish m | latch m.r.data | latch m.s.data | fire o0 | fire o1 | finish hub: | finish in:a | finish in:v
| fire a | fire v | latch a | latch v | fire m.r.addr | latch m.r.addr | fire m.r.en | latch m.r.en | fire m.r.data
prints after 4 loads
| a 2/2 1 1 | v 2/2 0f 21 | m.r.addr 2/2 1 1 | m.r.en 2/2 1 1 | m.r.data 2/1 00 f0 | m.s.addr 1/1 1 | m.s.en 1/1 1 | m.s.data 1/1 00
| m.w.addr 1/1 1 | m.w.en 1/1 1 | m.w.data 1/1 0f | m.w.mask 1/1 1 | m.x.addr 1/1 1 | m.x.en 1/1 1 | m.x.data 1/1 f0 | m.x.mask 1/1 1 | o0 1/0 00
| o1 1/0 00

k1.fir = late
p.json: {"memories":["m"]}
k1.trace | cycle a e v | 0 1 1 2a | 1 0 0 00
s.steps
| fire m.r.data | fire a | fire e | fire v | latch a | latch e | latch v | fire m.w.addr | fire m.w.en | fire m.w.data | fire m.w.mask
| latch m.w.addr | latch m.w.en | latch m.w.data | latch m.w.mask | serve m w | fire m.r.addr | fire m.r.en | latch m.r.addr | latch m.r.en
| serve m r | finish m | latch m.r.data | fire o | fire m.r.data
prints after 4 loads
| a 1/1 1 | e 1/1 1 | v 1/1 2a | m.r.addr 1/1 1 | m.r.en 1/1 1 | m.r.data 2/1 00 2a | m.w.addr 1/1 1 | m.w.en 1/1 1 | m.w.data 1/1 2a
| m.w.mask 1/1 1 | o 1/0 00

k1.fir = two
p.json: {"units":["u","v"],"share":[["u","v"]]}
k1.trace | cycle x | 0 01 | 1 10 | 2 00
s.steps | fire v.s | latch v.s | fire q | fire u.s | latch u.s | fire p
prints after 4 loads | x 0/0 | u.a 0/0 | u.s 1/1 00 | v.a 0/0 | v.s 1/1 00 | p 1/0 00 | q 1/0 00

k1.fir = two
p.json: {"units":["u","v"],"share":[["u","v"]]}
k1.trace | cycle x | 0 01 | 1 10 | 2 00
s.steps | fire x | latch x | fire u.a | latch u.a | fire u.s | latch u.s | finish u | fire u.s
prints after 4 loads | x 1/1 01 | u.a 1/1 01 | u.s 2/1 00 01 | v.a 0/0 | v.s 0/0 | p 0/0 | q 0/0

k1.fir = two
p.json: {"units":["u","v"],"share":[["u","v"]]}
k1.trace | cycle x | 0 01 | 1 10 | 2 00
s.steps
| fire x | latch x | fire u.a | fire v.a | latch u.a | latch v.a | fire u.s | fire v.s | latch u.s | latch v.s | fire p | fire q | latch p | latch q
| finish in:x | finish hub: | finish u | finish v | finish out:p | finish out:q | fire x | latch x | fire u.a | fire v.a | latch u.a | latch v.a
| fire u.s | fire v.s | latch u.s | latch v.s | fire p | fire q | latch p | latch q | finish in:x | finish hub: | finish u | finish v | finish out:p
| finish out:q
prints after 4 loads | x 2/2 01 10 | u.a 2/2 01 10 | u.s 2/2 00 01 | v.a 2/2 fe ef | v.s 2/2 00 fe | p 2/2 00 01 | q 2/2 00 fe

k1.fir = two
p.json: {"units":["u","v"],"share":[["u","v"]]}
k1.trace | cycle x | 0 01 | 1 10 | 2 00
s.steps | fire v.s | fire u.s | latch u.s | fire p | latch p | finish out:p | latch v.s | fire q
prints after 4 loads | x 0/0 | u.a 0/0 | u.s 1/1 00 | v.a 0/0 | v.s 1/1 00 | p 1/1 00 | q 1/0 00

$ golden replay k1.fir p.json k1.trace s.steps
k1.fir = two
p.json: {"units":["u","v"],"share":[["u","v"]]}
k1.trace | cycle x | 0 01 | 1 10 | 2 00
s.steps | fire x | latch x | fire u.a | fire v.a | latch u.a | latch v.a | fire v.s | finish v | fire u.s | finish u | fire v.s | fire u.s
prints after 4 loads | x 1/1 01 | u.a 1/1 01 | u.s 2/0 00 01 | v.a 1/1 fe | v.s 2/0 00 fe | p 0/0 | q 0/0

k1.fir = pair
p.json: {"units":["a","b"],"direct":true}
k1.trace | cycle x | 0 0f | 1 81
s.steps
| fire a.x | latch a.x | fire b.m | latch b.m | fire a.k | latch a.k | fire q | latch q | finish in:x | finish a | finish b | finish hub:
| finish out:q | fire a.x
prints after 4 loads | a.x 2/1 0f 81 | a.k 1/1 1e | b.m 1/1 0f | q 1/1 11

k1.fir = two
p.json: {"units":["u","v"],"direct":true}
k1.trace | cycle x | 0 01 | 1 10 | 2 00
s.steps | fire u.a | latch u.a | fire p | fire x | finish in:x | fire u.a
prints after 4 loads | x 1/0 01 | u.a 2/1 01 10 | v.a 0/0 | p 1/0 00 | q 0/0

k1.fir = pair
p.json: {"units":["a","b"],"pipe":["a.k"]}
k1.trace | cycle x | 0 0f | 1 81
s.steps: ""
prints after 4 loads | x 0/0 | a.x 0/0 | a.k 0/0 00 | a.p 0/0 | a.q 0/0 | b.m 0/0 | b.n 0/0 | q 0/0

k1.fir = pair
p.json: {"units":["a","b"],"pipe":["a.k"]}
k1.trace | cycle x | 0 0f | 1 81
s.steps | latch a.k | fire x | latch x | fire a.x | latch a.x | fire a.q | latch a.q | fire q
prints after 4 loads | x 1/1 0f | a.x 1/1 0f | a.k 0/1 00 | a.p 0/0 | a.q 1/1 0f | b.m 0/0 | b.n 0/0 | q 1/0 0f

$ golden replay k1.fir p.json k1.trace s.steps
k1.fir = pair
p.json: {"units":["a","b"],"pipe":["a.k"]}
k1.trace | cycle x | 0 0f | 1 81
s.steps | fire x | latch x | fire a.x | latch a.x | fire a.p | latch a.p | fire b.m | latch b.m | fire b.n | latch b.n | fire a.k
prints after 4 loads | x 1/1 0f | a.x 1/1 0f | a.k 1/0 00 1e | a.p 1/1 0f | a.q 0/0 | b.m 1/1 0f | b.n 1/1 1e | q 0/0
"#;
