//! Partitions with bridges that are refused.

pub(crate) const ROWS: &str = r#"
given
# Values of the key `bridges` that are no list of objects with just the three keys. It is looked at behind `clocks`, and before a key that is
# unknown.
$ golden run k1.fir p.json k1.trace, in each way
k1.fir = two
k1.trace | cycle

p.json: {"bridges":{}} -> status 6 after 2 loads | golden: partition: P1 bridges
p.json: {"bridges":["echo8"]} -> status 6 after 2 loads | golden: partition: P1 bridges
p.json: {"bridges":[{"name":"echo8","sees":["q"]}]} -> status 6 after 2 loads | golden: partition: P1 bridges
p.json: {"bridges":[{"name":"echo8","sees":["q"],"drives":["x"],"width":8}]} -> status 6 after 2 loads | golden: partition: P1 bridges
p.json: {"bridges":[{"name":8,"sees":["q"],"drives":["x"]}]} -> status 6 after 2 loads | golden: partition: P1 bridges
p.json: {"bridges":[{"name":"echo8","sees":"q","drives":["x"]}]} -> status 6 after 2 loads | golden: partition: P1 bridges
p.json: {"bridges":[{"name":"echo8","sees":["q"],"drives":[1]}]} -> status 6 after 2 loads | golden: partition: P1 bridges
p.json: {"bridge":[],"bridges":0,"clocks":0} -> status 6 after 2 loads | golden: partition: P1 clocks
p.json: {"bridge":[],"bridges":0} -> status 6 after 2 loads | golden: partition: P1 bridges

given
# A name that no bridge has, or that an earlier entry has: also beside ports that aren't there. A fault of an earlier entry is told first, whatever
# its number.
$ golden run k1.fir p.json k1.trace, in each way
k1.fir = two
k1.trace | cycle

p.json: {"bridges":[{"name":"echo9","sees":["q"],"drives":["x"]}]} -> status 6 after 2 loads | golden: partition: P14 echo9
p.json: {"bridges":[{"name":"","sees":["q"],"drives":["x"]}]} -> status 6 after 2 loads: "golden: partition: P14 \n"
p.json: {"bridges":[{"name":"Echo8","sees":["q"],"drives":["x"]}]} -> status 6 after 2 loads | golden: partition: P14 Echo8

k1.fir = cross
p.json: {"bridges":[{"name":"echo8","sees":["c"],"drives":["a"]},{"name":"echo8","sees":["d"],"drives":["b"]}]}
status 6 after 2 loads | golden: partition: P14 echo8

k1.fir = cross
p.json: {"bridges":[{"name":"echo8","sees":["c"],"drives":["a"]},{"name":"echo8","sees":["c"],"drives":["zz"]}]}
status 6 after 2 loads | golden: partition: P14 echo8

p.json: {"bridges":[{"name":"echo9","sees":["zz"],"drives":["zz"]}]} -> status 6 after 2 loads | golden: partition: P14 echo9

p.json: {"bridges":[{"name":"echo8","sees":["zz"],"drives":["x"]},{"name":"echo9","sees":["q"],"drives":["x"]}]}
status 6 after 2 loads | golden: partition: P15 zz

k1.fir = cross
p.json: {"bridges":[{"name":"echo32","sees":["c"],"drives":["a"]},{"name":"echo9","sees":["d"],"drives":["b"]}]}
status 6 after 2 loads | golden: partition: P16 echo32

given
# Ports that are no output to see, or no input to drive, or are listed twice: an input, an output, ports of a unit, a Clock, a stop, a pipe; twice
# in one entry and in two; of several the first, `sees` before `drives`; beside a model of another width.
$ golden run k1.fir p.json k1.trace, in each way
k1.fir = two
k1.trace | cycle

p.json: {"bridges":[{"name":"echo8","sees":["q"],"drives":["y"]}]} -> status 6 after 2 loads | golden: partition: P15 y
p.json: {"bridges":[{"name":"echo8","sees":["x"],"drives":["x"]}]} -> status 6 after 2 loads | golden: partition: P15 x
p.json: {"bridges":[{"name":"echo8","sees":["q"],"drives":["q"]}]} -> status 6 after 2 loads | golden: partition: P15 q
p.json: {"units":["u"],"bridges":[{"name":"echo8","sees":["u.s"],"drives":["x"]}]} -> status 6 after 2 loads | golden: partition: P15 u.s
p.json: {"units":["u"],"bridges":[{"name":"echo8","sees":["q"],"drives":["u.a"]}]} -> status 6 after 2 loads | golden: partition: P15 u.a
p.json: {"bridges":[{"name":"echo8","sees":["q"],"drives":["clock"]}]} -> status 6 after 2 loads | golden: partition: P15 clock

k1.fir = ends
p.json: {"bridges":[{"name":"echo1","sees":["stop:0"],"drives":["x"]}]} -> status 6 after 2 loads | golden: partition: P15 stop:0

p.json: {"bridges":[{"name":"echo8","sees":["q","q"],"drives":["x"]}]} -> status 6 after 2 loads | golden: partition: P15 q
p.json: {"bridges":[{"name":"echo8","sees":["q"],"drives":["x","x"]}]} -> status 6 after 2 loads | golden: partition: P15 x

k1.fir = cross
p.json: {"bridges":[{"name":"echo8","sees":["c"],"drives":["a"]},{"name":"other8","sees":["c"],"drives":["b"]}]}
status 6 after 2 loads | golden: partition: P15 c

k1.fir = cross
p.json: {"bridges":[{"name":"echo8","sees":["c"],"drives":["a"]},{"name":"other8","sees":["d"],"drives":["a"]}]}
status 6 after 2 loads | golden: partition: P15 a

p.json: {"bridges":[{"name":"echo8","sees":["zz"],"drives":["yy"]}]} -> status 6 after 2 loads | golden: partition: P15 zz
p.json: {"bridges":[{"name":"echo8","sees":["q"],"drives":["yy","zz"]}]} -> status 6 after 2 loads | golden: partition: P15 yy
p.json: {"bridges":[{"name":"echo32","sees":["q","q"],"drives":["x"]}]} -> status 6 after 2 loads | golden: partition: P15 q
p.json: {"pipe":["q"],"bridges":[{"name":"echo8","sees":["pipe:q"],"drives":["x"]}]} -> status 6 after 2 loads | golden: partition: P15 pipe:q

given
# Ports that don't fit the model: their width, their number, their kind; of a circuit without outputs.
$ golden run k1.fir p.json k1.trace, in each way
k1.trace | cycle

k1.fir = two
p.json: {"bridges":[{"name":"echo32","sees":["q"],"drives":["x"]}]} -> status 6 after 2 loads | golden: partition: P16 echo32

k1.fir = two
p.json: {"bridges":[{"name":"echo1","sees":["q"],"drives":["x"]}]} -> status 6 after 2 loads | golden: partition: P16 echo1

k1.fir = two
p.json: {"bridges":[{"name":"echo8","sees":["p","q"],"drives":["x"]}]} -> status 6 after 2 loads | golden: partition: P16 echo8

k1.fir = two
p.json: {"bridges":[{"name":"echo8","sees":[],"drives":["x"]}]} -> status 6 after 2 loads | golden: partition: P16 echo8

k1.fir = two
p.json: {"bridges":[{"name":"echo8","sees":["q"],"drives":[]}]} -> status 6 after 2 loads | golden: partition: P16 echo8

k1.fir = cross
p.json: {"bridges":[{"name":"echo8","sees":["c"],"drives":["a","b"]}]} -> status 6 after 2 loads | golden: partition: P16 echo8

k1.fir
| circuit Empty :
| module Empty : | input x : UInt<8>
p.json: {"bridges":[{"name":"echo8","sees":[],"drives":[]}]}
status 6 after 2 loads | golden: partition: P16 echo8

k1.fir = signed
p.json: {"bridges":[{"name":"echo8","sees":["y"],"drives":["v"]}]} -> status 6 after 2 loads | golden: partition: P16 echo8

k1.fir = signed
p.json: {"bridges":[{"name":"echo8","sees":["w"],"drives":["x"]}]} -> status 6 after 2 loads | golden: partition: P16 echo8

k1.fir = cross
p.json: {"bridges":[{"name":"echo8","sees":["e"],"drives":["a"]}]} -> status 6 after 2 loads | golden: partition: P16 echo8

k1.fir = cross
p.json: {"bridges":[{"name":"echo8","sees":["c"],"drives":["a"]},{"name":"echo64","sees":["d"],"drives":["b"]}]}
status 6 after 2 loads | golden: partition: P16 echo64

given
# The other faults come first.
$ golden run k1.fir p.json k1.trace, in each way
k1.fir = two
k1.trace | cycle

p.json: {"clocks":{"clock":[2,1]},"bridges":[{"name":"echo9","sees":["q"],"drives":["x"]}]}
status 6 after 2 loads | golden: partition: P13 clock 2 1

p.json: {"clocks":{"reset":[1,1]},"bridges":[{"name":"echo9","sees":["q"],"drives":["x"]}]} -> status 6 after 2 loads | golden: partition: P12 reset
p.json: {"pipe":["q","q"],"bridges":[{"name":"echo9","sees":["q"],"drives":["x"]}]} -> status 6 after 2 loads | golden: partition: P11 q
p.json: {"pipe":["zz"],"bridges":[{"name":"echo9","sees":["q"],"drives":["x"]}]} -> status 6 after 2 loads | golden: partition: P10 zz
p.json: {"capacity":{"q":0},"bridges":[{"name":"echo9","sees":["q"],"drives":["x"]}]} -> status 6 after 2 loads | golden: partition: P8 q 0

p.json: {"capacity":{"bridge:echo9":1},"bridges":[{"name":"echo9","sees":["q"],"drives":["x"]}]}
status 6 after 2 loads | golden: partition: P7 bridge:echo9

p.json: {"units":["w"],"bridges":[{"name":"echo9","sees":["q"],"drives":["x"]}]} -> status 6 after 2 loads | golden: partition: P2 w
"#;
