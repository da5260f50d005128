//! Traces with a fault.

pub(crate) const ROWS: &str = r#"
given
# Traces of the counter with a fault.
$ golden run k1.fir p.json k1.trace, in each way
k1.fir = counter
p.json: {}

k1.trace: "" -> status 7 after 3 loads | golden: trace: T1 field 0

k1.trace
|
| 0 1
status 7 after 3 loads | golden: trace: T1 field 0

k1.trace: " \n0 1\n" -> status 7 after 3 loads | golden: trace: T1 field 0
k1.trace | cycle -> status 7 after 3 loads | golden: trace: T1 field 1
k1.trace | cycle rst -> status 7 after 3 loads | golden: trace: T1 field 1
k1.trace | cycle reset reset | 0 2 -> status 7 after 3 loads | golden: trace: T1 field 2
k1.trace | cycle reset | 1 0 -> status 7 after 3 loads | golden: trace: T2 row 0
k1.trace | cycle reset | 0 0 | 01 g -> status 7 after 3 loads | golden: trace: T2 row 1
k1.trace: "cycle reset\n \n" -> status 7 after 3 loads | golden: trace: T2 row 0
k1.trace | cycle reset | 0 g -> status 7 after 3 loads | golden: trace: T3 row 0 field 1
k1.trace: "cycle reset\n0 \n" -> status 7 after 3 loads | golden: trace: T3 row 0 field 1
k1.trace | cycle reset | 0 2 -> status 7 after 3 loads | golden: trace: T4 row 0 field 1
k1.trace | cycle reset | 0 -> status 7 after 3 loads | golden: trace: T5 row 0 1
k1.trace | cycle reset | 1 g 0 -> status 7 after 3 loads | golden: trace: T5 row 0 3

k1.trace
| cycle reset | 0 0
|
status 7 after 3 loads | golden: trace: T5 row 1 0
"#;
