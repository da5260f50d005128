//! Circuits with clocks of several ratios: their rows, cut and whole, and the partitions that are refused. Expected texts are worked by a model in
//! Python that has nothing of golden, and the short ones by hand from docs/FORMATS.md.

pub(crate) const CLOCKED: &str = r#"
given
# Circuits that aren't cut. Two ratios; no ratio; an edge in each cycle and in each but the first; no edge in six cycles; a name twice, of which the
# last value counts; a Clock input that nothing uses; one without a register; a memory whose writer has an edge in each second cycle, one whose
# first reader has, one that is read with latency 0, and one that reads old words.
$ golden run k1.fir p.json k1.trace, in each way
k1.trace | cycle | 0 | 1 | 2 | 3 | 4 | 5

k1.fir = dual
p.json: {"clocks":{"c2":[2,3]}} -> prints after 3 loads | cycle p q | 0 0 0 | 1 1 0 | 2 2 1 | 3 3 3 | 4 4 3 | 5 5 7

k1.fir = dual
p.json: {} -> prints after 3 loads | cycle p q | 0 0 0 | 1 1 0 | 2 2 1 | 3 3 3 | 4 4 6 | 5 5 a

k1.fir = dual
p.json: {"clocks":{"c1":[65534,65535],"c2":[65535,65535]}} -> prints after 3 loads | cycle p q | 0 0 0 | 1 0 0 | 2 1 0 | 3 2 1 | 4 3 3 | 5 4 6

k1.fir = dual
p.json: {"clocks":{"c2":[1,65535]}} -> prints after 3 loads | cycle p q | 0 0 0 | 1 1 0 | 2 2 0 | 3 3 0 | 4 4 0 | 5 5 0

k1.fir = dual
p.json: {"clocks":{"c2":[1,2],"c\u0032":[2,3]}} -> prints after 3 loads | cycle p q | 0 0 0 | 1 1 0 | 2 2 1 | 3 3 3 | 4 4 3 | 5 5 7

k1.fir = dual, line 4 | input c3 : Clock | input c2 : Clock
p.json: {"clocks":{"c3":[1,2],"c2":[2,3]}} -> prints after 3 loads | cycle p q | 0 0 0 | 1 1 0 | 2 2 1 | 3 3 3 | 4 4 3 | 5 5 7

k1.fir = dual, line 8 | reg s : UInt<4>, c1
p.json: {"clocks":{"c2":[2,3]}} -> prints after 3 loads | cycle p q | 0 0 0 | 1 1 0 | 2 2 1 | 3 3 3 | 4 4 6 | 5 5 a

k1.fir = words
p.json: {"clocks":{"c2":[1,2]}}
k1.trace | cycle a v | 0 0 1 | 1 0 2 | 2 0 3 | 3 0 4 | 4 0 5 | 5 1 6
prints after 3 loads | cycle o q | 0 0 0 | 1 0 0 | 2 2 2 | 3 2 2 | 4 4 4 | 5 4 4

k1.fir = words
p.json: {"clocks":{"c1":[1,2]}}
k1.trace | cycle a v | 0 0 1 | 1 0 2 | 2 0 3 | 3 0 4 | 4 0 5 | 5 1 6
prints after 3 loads | cycle o q | 0 0 0 | 1 0 1 | 2 2 2 | 3 2 3 | 4 4 4 | 5 4 5

k1.fir = words, line 12 | read-latency => 0
p.json: {"clocks":{"c2":[1,2]}}
k1.trace | cycle a v | 0 0 1 | 1 0 2 | 2 0 3 | 3 0 4 | 4 0 5 | 5 1 6
prints after 3 loads | cycle o q | 0 0 0 | 1 0 0 | 2 2 2 | 3 2 2 | 4 4 4 | 5 0 0

k1.fir = words, line 17 | read-under-write => old
p.json: {"clocks":{"c2":[1,2]}}
k1.trace | cycle a v | 0 0 1 | 1 0 2 | 2 0 3 | 3 0 4 | 4 0 5 | 5 1 6
prints after 3 loads | cycle o q | 0 0 0 | 1 0 0 | 2 0 0 | 3 2 0 | 4 2 2 | 5 4 2
"#;

pub(crate) const CLOCK_CUTS: &str = r#"
given
# Cuts: two units of one module each; with a pipe into the second, and out of the first, which move in each cycle; three units of one module, apart
# and on one host; two units on one host with their memories inside, and with their memories listed; and the memories from above, listed.
$ golden run k1.fir p.json k1.trace, in each way
k1.trace | cycle | 0 | 1 | 2 | 3 | 4 | 5

k1.fir = parts
p.json: {"clocks":{"c2":[2,3]},"units":["count","sum"]} -> prints after 3 loads | cycle p q | 0 0 0 | 1 1 0 | 2 2 1 | 3 3 3 | 4 4 3 | 5 5 7

k1.fir = parts
p.json: {"clocks":{"c2":[2,3]},"units":["count","sum"],"pipe":["sum.a"]}
prints after 3 loads | cycle p q | 0 0 0 | 1 1 0 | 2 2 0 | 3 3 1 | 4 4 1 | 5 5 4

k1.fir = parts
p.json: {"clocks":{"c2":[2,3]},"units":["count","sum"],"pipe":["count.o"]}
prints after 3 loads | cycle p q | 0 0 0 | 1 0 0 | 2 1 0 | 3 2 1 | 4 3 1 | 5 4 4

k1.fir = crossed
p.json: {"clocks":{"c1":[1,2],"c2":[2,3]},"units":["u","v","w"]}
prints after 3 loads | cycle p q r | 0 0 0 0 | 1 0 0 0 | 2 0 0 0 | 3 1 0 1 | 4 1 2 1 | 5 3 2 3

k1.fir = crossed
p.json: {"clocks":{"c1":[1,2],"c2":[2,3]},"units":["u","v","w"],"share":[["u","v","w"]]}
prints after 3 loads | cycle p q r | 0 0 0 0 | 1 0 0 0 | 2 0 0 0 | 3 1 0 1 | 4 1 2 1 | 5 3 2 3

k1.fir = crossed
p.json: {"clocks":{"c2":[2,3]},"units":["u","v","w"],"share":[["w","v"]]}
prints after 3 loads | cycle p q r | 0 0 0 0 | 1 0 0 0 | 2 1 0 0 | 3 3 1 1 | 4 3 3 1 | 5 7 5 3

k1.fir = sums
p.json: {"clocks":{"c2":[1,2]},"units":["u","v"],"share":[["u","v"]]}
k1.trace | cycle x | 0 1 | 1 2 | 2 3 | 3 4 | 4 5 | 5 6
prints after 3 loads | cycle p q | 0 0 0 | 1 1 0 | 2 3 2 | 3 6 2 | 4 a 6 | 5 f 6

k1.fir = sums
p.json: {"clocks":{"c2":[1,2]},"units":["u","v"],"share":[["u","v"]],"memories":["u.m","v.m"]}
k1.trace | cycle x | 0 1 | 1 2 | 2 3 | 3 4 | 4 5 | 5 6
prints after 3 loads | cycle p q | 0 0 0 | 1 1 0 | 2 3 2 | 3 6 2 | 4 a 6 | 5 f 6

k1.fir = words
p.json: {"clocks":{"c2":[1,2]},"memories":["m"]}
k1.trace | cycle a v | 0 0 1 | 1 0 2 | 2 0 3 | 3 0 4 | 4 0 5 | 5 1 6
prints after 3 loads | cycle o q | 0 0 0 | 1 0 0 | 2 2 2 | 3 2 2 | 4 4 4 | 5 4 4

k1.fir = words
p.json: {"clocks":{"c1":[1,2]},"memories":["m"]}
k1.trace | cycle a v | 0 0 1 | 1 0 2 | 2 0 3 | 3 0 4 | 4 0 5 | 5 1 6
prints after 3 loads | cycle o q | 0 0 0 | 1 0 1 | 2 2 2 | 3 2 3 | 4 4 4 | 5 4 5

k1.fir = words, line 12 | read-latency => 0
p.json: {"clocks":{"c2":[1,2]},"memories":["m"]}
k1.trace | cycle a v | 0 0 1 | 1 0 2 | 2 0 3 | 3 0 4 | 4 0 5 | 5 1 6
prints after 3 loads | cycle o q | 0 0 0 | 1 0 0 | 2 2 2 | 3 2 2 | 4 4 4 | 5 0 0

k1.fir = words, line 17 | read-under-write => old
p.json: {"clocks":{"c2":[1,2]},"memories":["m"]}
k1.trace | cycle a v | 0 0 1 | 1 0 2 | 2 0 3 | 3 0 4 | 4 0 5 | 5 1 6
prints after 3 loads | cycle o q | 0 0 0 | 1 0 0 | 2 0 0 | 3 2 0 | 4 2 2 | 5 4 2
"#;

pub(crate) const HANDSHAKES: &str = r#"
given
# The handshake: whole, cut at the border, with both sides on one host, and with one side in the hub; then with a pipe in the flag that the right
# side sees, so that it takes a number a cycle later, and where the other clock isn't that of each cycle either.
$ golden run k1.fir p.json k1.trace, in each way
k1.fir = domains
k1.trace | cycle x | 0 1 | 1 2 | 2 3 | 3 4 | 4 5 | 5 6 | 6 7 | 7 8 | 8 9 | 9 a | 10 b | 11 c

p.json: {"clocks":{"slow":[2,3]}}
prints after 3 loads
| cycle p q valid | 0 0 0 0 | 1 1 0 1 | 2 1 1 0 | 3 3 1 1 | 4 3 1 1 | 5 3 3 0 | 6 6 3 1 | 7 6 3 1 | 8 6 6 0 | 9 9 6 1 | 10 9 6 1 | 11 9 9 0

p.json: {"clocks":{"slow":[2,3]},"units":["left","right"]}
prints after 3 loads
| cycle p q valid | 0 0 0 0 | 1 1 0 1 | 2 1 1 0 | 3 3 1 1 | 4 3 1 1 | 5 3 3 0 | 6 6 3 1 | 7 6 3 1 | 8 6 6 0 | 9 9 6 1 | 10 9 6 1 | 11 9 9 0

p.json: {"clocks":{"slow":[2,3]},"units":["right","left"],"share":[["left","right"]]}
prints after 3 loads
| cycle p q valid | 0 0 0 0 | 1 1 0 1 | 2 1 1 0 | 3 3 1 1 | 4 3 1 1 | 5 3 3 0 | 6 6 3 1 | 7 6 3 1 | 8 6 6 0 | 9 9 6 1 | 10 9 6 1 | 11 9 9 0

p.json: {"clocks":{"slow":[2,3]},"units":["right"]}
prints after 3 loads
| cycle p q valid | 0 0 0 0 | 1 1 0 1 | 2 1 1 0 | 3 3 1 1 | 4 3 1 1 | 5 3 3 0 | 6 6 3 1 | 7 6 3 1 | 8 6 6 0 | 9 9 6 1 | 10 9 6 1 | 11 9 9 0

p.json: {"clocks":{"slow":[2,3]},"units":["left","right"],"share":[["left","right"]],"pipe":["right.other"]}
prints after 3 loads
| cycle p q valid | 0 0 0 0 | 1 1 0 1 | 2 1 0 1 | 3 1 1 0 | 4 4 1 1 | 5 4 1 1 | 6 4 4 0 | 7 7 4 1 | 8 7 4 1 | 9 7 7 0 | 10 a 7 1 | 11 a 7 1

p.json: {"clocks":{"fast":[1,2],"slow":[2,3]},"units":["left","right"],"share":[["left","right"]]}
prints after 3 loads
| cycle p q valid | 0 0 0 0 | 1 0 0 0 | 2 2 0 1 | 3 2 2 0 | 4 4 2 1 | 5 4 4 0 | 6 6 4 1 | 7 6 4 1 | 8 6 6 0 | 9 6 6 0 | 10 a 6 1 | 11 a a 0
"#;

pub(crate) const CLOCK_FAULTS: &str = r#"
given
# Ratios that are refused: of another shape, of a clock that isn't there, and out of range.
$ golden run k1.fir p.json k1.trace, in each way
k1.fir = dual
k1.trace: cycle

# not an object of lists of two whole numbers
p.json: {"clocks":{"c2":[1]}} -> status 6 after 2 loads | golden: partition: P1 clocks
p.json: {"clocks":{"c2":[1,2,3]}} -> status 6 after 2 loads | golden: partition: P1 clocks
p.json: {"clocks":{"c2":"1/2"}} -> status 6 after 2 loads | golden: partition: P1 clocks
p.json: {"clocks":{"c2":[2.0,3]}} -> status 6 after 2 loads | golden: partition: P1 clocks
p.json: {"clocks":{"c2":[-1,2]}} -> status 6 after 2 loads | golden: partition: P1 clocks
p.json: {"clocks":{"c2":[1,18446744073709551616]}} -> status 6 after 2 loads | golden: partition: P1 clocks
p.json: {"clocks":[["c2",1,2]]} -> status 6 after 2 loads | golden: partition: P1 clocks
# behind `pipe`, before a key that is unknown
p.json: {"clocks":{"c2":[1]},"pipe":"q"} -> status 6 after 2 loads | golden: partition: P1 pipe
p.json: {"bridges":[],"clocks":{"c2":[1]}} -> status 6 after 2 loads | golden: partition: P1 clocks
p.json: {"bridges":{},"clocks":{"c2":[2,3]}} -> status 6 after 2 loads | golden: partition: P1 bridges
# no Clock input of the top: no name of it, an input of another type, a clock of an instance
p.json: {"clocks":{"c3":[1,1]}} -> status 6 after 2 loads | golden: partition: P12 c3
p.json: {"clocks":{"":[1,1]}} -> status 6 after 2 loads: "golden: partition: P12 \n"

k1.fir = domains
p.json: {"clocks":{"x":[1,1]}} -> status 6 after 2 loads | golden: partition: P12 x

k1.fir = domains
p.json: {"clocks":{"left.clock":[1,1]}} -> status 6 after 2 loads | golden: partition: P12 left.clock

# out of range
p.json: {"clocks":{"c2":[4,3]}} -> status 6 after 2 loads | golden: partition: P13 c2 4 3
p.json: {"clocks":{"c2":[0,1]}} -> status 6 after 2 loads | golden: partition: P13 c2 0 1
p.json: {"clocks":{"c2":[1,65536]}} -> status 6 after 2 loads | golden: partition: P13 c2 1 65536
p.json: {"clocks":{"c2":[2,1]}} -> status 6 after 2 loads | golden: partition: P13 c2 2 1
p.json: {"clocks":{"c2":[1,18446744073709551615]}} -> status 6 after 2 loads | golden: partition: P13 c2 1 18446744073709551615
# of several faults the one of the lesser number, and then of the lesser name
p.json: {"pipe":["q","q"],"clocks":{"c3":[1,1]}} -> status 6 after 2 loads | golden: partition: P11 q
p.json: {"clocks":{"c2":[4,3],"c3":[1,1]}} -> status 6 after 2 loads | golden: partition: P12 c3
p.json: {"clocks":{"c4":[1,1],"c3":[0,0]}} -> status 6 after 2 loads | golden: partition: P12 c3
p.json: {"clocks":{"c2":[2,1],"c1":[0,3]}} -> status 6 after 2 loads | golden: partition: P13 c1 0 3
"#;

pub(crate) const SERVED_WITHOUT_AN_EDGE: &str = r#"
given
# A port whose clock has no edge is served too, and then changes nothing: the memory through a cycle in which its writer has no edge; and the same
# without the writer's step.
$ golden replay k1.fir p.json k1.trace s.steps
k1.fir = words
p.json: {"clocks":{"c2":[1,2]},"memories":["m"]}
k1.trace | cycle a v | 0 0 1 | 1 0 2 | 2 0 3 | 3 0 4 | 4 0 5 | 5 1 6

s.steps
| fire a | fire v | latch a | latch v | fire m.r.addr | latch m.r.addr | fire m.r.en | latch m.r.en | fire m.s.addr | latch m.s.addr | fire m.s.en
| latch m.s.en | fire m.w.addr | latch m.w.addr | fire m.w.en | latch m.w.en | fire m.w.data | latch m.w.data | fire m.w.mask | latch m.w.mask
| fire m.r.data | fire m.s.data | serve m w | serve m r | serve m s | finish m | fire m.r.data | fire m.s.data
prints after 4 loads
| a 1/1 0 | v 1/1 1 | m.r.addr 1/1 0 | m.r.en 1/1 1 | m.r.data 2/0 0 0 | m.s.addr 1/1 0 | m.s.en 1/1 1 | m.s.data 2/0 0 0 | m.w.addr 1/1 0
| m.w.en 1/1 1 | m.w.data 1/1 1 | m.w.mask 1/1 1 | o 0/0 | q 0/0

s.steps
| fire a | fire v | latch a | latch v | fire m.r.addr | latch m.r.addr | fire m.r.en | latch m.r.en | fire m.s.addr | latch m.s.addr | fire m.s.en
| latch m.s.en | fire m.w.addr | latch m.w.addr | fire m.w.en | latch m.w.en | fire m.w.data | latch m.w.data | fire m.w.mask | latch m.w.mask
| fire m.r.data | fire m.s.data | finish m
status 9 after 4 loads | golden: step 23: Unserved w
"#;
