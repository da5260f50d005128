//! The command `demo`. Expected texts were worked out outside, by a few lines of another language.

pub(crate) const ROWS: &str = r#"
given
# Demos, and their summaries. In the last the second put on `out` takes three bytes and fails.
k1.fir: ""
p.json: ""
k1.trace: ""

$ golden demo 0 1
prints after 0 loads | demo seed 0 size 1 cycles 4 | machines 5 channels 6 steps 68 | last 5273ea78 83bf1c91 | fold 1523c34a bfd1efce

$ golden demo 0 1 --workers 4
prints after 0 loads | demo seed 0 size 1 cycles 4 | machines 5 channels 6 steps 68 | last 5273ea78 83bf1c91 | fold 1523c34a bfd1efce

$ golden demo 0 2 --workers 3
prints after 0 loads | demo seed 0 size 2 cycles 8 | machines 6 channels 9 steps 192 | last 3f9c776c 6a650976 | fold aef1f888 8e7f0b0c

$ golden demo 7 2
prints after 0 loads | demo seed 7 size 2 cycles 8 | machines 6 channels 9 steps 192 | last db932edc 1f3632f0 | fold dcc173f4 be14775c

$ golden demo 4294967295 03
prints after 0 loads | demo seed 4294967295 size 3 cycles 12 | machines 7 channels 12 steps 372 | last a42119c1 c5ee568f | fold 66767476 61ee34f9

$ golden demo 0 64
prints after 0 loads | demo seed 0 size 64 cycles 256 | machines 68 channels 195 steps 117248 | last 48f80258 7d6b2194 | fold 200eb26c 8acea9fc

$ golden demo 0 64 --workers 2
prints after 0 loads | demo seed 0 size 64 cycles 256 | machines 68 channels 195 steps 117248 | last 48f80258 7d6b2194 | fold 200eb26c 8acea9fc

$ golden demo --workers=1 4294967295 64
prints after 0 loads
| demo seed 4294967295 size 64 cycles 256 | machines 68 channels 195 steps 117248 | last fe6e1094 4586fa60 | fold 70e71ef8 12b6e25c

$ golden demo 0 1
out fails at put 1, byte 3
out: "demo seed 0 size 1 cycles 4\nmac"
status 4 after 0 loads | golden: cannot write
"#;
