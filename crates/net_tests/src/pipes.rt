//! gg_cut and gg_build: channels that open with a token.

// Of two units that feed each other in one cycle, the first takes what the second gave a cycle before; then the output has the value of a cycle
// before, and then the input. The first without the hub; then what the second gives comes a cycle late to the hub, which passes it on as late. A unit
// that gives to itself takes its output a cycle late. Of two units on one host, one takes its input a cycle late. A memory is a machine of its own,
// and its data come a cycle late to the hub.
pub(crate) const PIPED: &str = r#"
circuit pair
trace | cycle x | 0 0f | 1 81
on {"units":["a","b"],"pipe":["a.k"]}
has 5 machines 8 channels 2 cycles 42 steps
hosts 0 1 2 3 4
keeps f 9f
steps 2L 0F 0L 1F 1L 4F 3F 3L 5F 5L 6F 6L 2F 4L 7F 7L 0E 1E 2E 3E 4E
refuses 2F: NeedsInput { channel: 6 }

circuit pair
trace | cycle x | 0 0f | 1 81
on {"units":["a","b"],"pipe":["q"]}
has 5 machines 8 channels 2 cycles 42 steps
hosts 0 1 2 3 4
keeps 0 11
steps 7L 4E 0F 0L 1F 1L 3F 3L 5F 5L 6F 6L 2F 2L 4F 4L 7F 0E 1E 2E 3E
refuses 7F: NeedsInput { channel: 4 }

circuit pair
trace | cycle x | 0 0f | 1 81
on {"units":["a","b"],"pipe":["x"]}
has 5 machines 8 channels 2 cycles 42 steps
hosts 0 1 2 3 4
keeps 0 11
steps 0L 1F 0F 1L 3F 3L 5F 5L 6F 6L 2F 2L 4F 4L 7F 7L 0E 1E 2E 3E 4E
refuses 0F: Full { channel: 0, len: 1 }

circuit pair
trace | cycle x | 0 0f | 1 81
on {"units":["a","b"],"direct":true,"pipe":["a.k"]}
has 5 machines 4 channels 2 cycles 26 steps
hosts 0 1 2 3 4
keeps f 9f
steps 1L 0F 0L 3F 3L 4E 2F 2L 1F 1E 0E 2E 3E
refuses 1F: NeedsInput { channel: 2 }

circuit pair
trace | cycle x | 0 0f | 1 81
on {"units":["a","b"],"direct":true,"pipe":["b.n"]}
has 5 machines 5 channels 2 cycles 30 steps
hosts 0 1 2 3 4
keeps f 9f
steps 3L 1F 1L 0F 0L 2F 2L 3F 4F 4L 0E 1E 2E 3E 4E
refuses 1F: NeedsInput { channel: 3 }

circuit back
trace | cycle x | 0 01 | 1 10 | 2 00
on {"units":["u"],"direct":true,"pipe":["u.a"]}
has 4 machines 3 channels 3 cycles 30 steps
hosts 0 1 2 3
keeps 0 1 10
steps 0L 0F 1F 1L 2F 2L 0E 1E 2E 3E
refuses 0F: Full { channel: 0, len: 1 }

circuit sums
trace | cycle x | 0 01 | 1 10 | 2 00
on {"units":["u","v"],"share":[["u","v"]],"direct":true,"pipe":["v.a"]}
has 6 machines 5 channels 3 cycles 48 steps
hosts 0 1 1 2 3 4
keeps 0 0 fe
steps 4F 2L 2E 3F 1F 0F 3E 1L 1E 0L 2F 0E 3L 4E 4L 5E
refuses 2F: NeedsInput { channel: 0 }

circuit memory
trace | cycle | 0 | 1 | 2
on {"memories":["m"],"pipe":["m.r.data"]}
has 3 machines 8 channels 3 cycles 60 steps
hosts 0 1 2
keeps 0 0 7
steps 2L 7F 0F 0L 1F 1L 2F 3F 3L 4F 4L 5F 5L 6F 6L 7L 1S 0E 1E 2E
serves 2 1 3
refuses 2F: NeedsInput { channel: 0 }
"#;
