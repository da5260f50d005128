//! Files that are missing, that fail, or that are no text; puts that fail.

pub(crate) const ROWS: &str = r#"
given
# A file that is missing, also where the circuit before it is refused.
$ golden run k1.fir p.json k1.trace

k1.fir = counter -> status 3 after 2 loads | golden: cannot load p.json

k1.fir = counter, line 10
|
status 1 after 1 load | golden: circuit: F5 line 5 out

given
# Each load failing in turn, and a circuit that is no text.
$ golden run k1.fir p.json k1.trace
k1.fir = counter
p.json: {}
k1.trace | cycle reset | 0 1 | 1 0 | 2 0 | 3 0

load 0 fails -> status 3 after 1 load | golden: cannot load k1.fir
load 1 fails -> status 3 after 2 loads | golden: cannot load p.json
load 2 fails -> status 3 after 3 loads | golden: cannot load k1.trace
k1.fir: "\x" -> status 1 after 1 load | golden: circuit: not text

given
# Each put on `out` takes three bytes and fails. A failing `err` changes no status: the second load fails, and the put on `err` takes eight bytes
# and fails.
$ golden run k1.fir p.json k1.trace
k1.fir = counter
p.json: {}
k1.trace | cycle reset | 0 1 | 1 0 | 2 0 | 3 0

out fails at put 0, byte 3
out: cyc -> status 4 after 3 loads | golden: cannot write

out fails at put 1, byte 3
out: "cycle out\n0 0" -> status 4 after 3 loads | golden: cannot write

out fails at put 2, byte 3
out: "cycle out\n0 00\n1 0" -> status 4 after 3 loads | golden: cannot write

out fails at put 3, byte 3
out: "cycle out\n0 00\n1 00\n2 0" -> status 4 after 3 loads | golden: cannot write

out fails at put 4, byte 3
out: "cycle out\n0 00\n1 00\n2 01\n3 0" -> status 4 after 3 loads | golden: cannot write

load 1 fails
err fails at put 0, byte 8 -> status 3 after 2 loads: "golden: "
"#;
