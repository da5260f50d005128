//! gg_cut and gg_build: channels that the hub doesn't pass on.

// Two units that feed each other in one cycle do it without the hub, which has no channel. Of the input of two units the hub takes one channel, for
// the complement, and the first unit takes the other; the two share a host, or not. A unit gives its sum to two other units and to an output; the
// three share a host, and give it on three channels, one and one, or share none. A unit gives to itself.
pub(crate) const DIRECT: &str = r#"
circuit pair
trace | cycle x | 0 0f | 1 81
on {"units":["a","b"],"direct":true}
has 5 machines 4 channels 2 cycles 26 steps
hosts 0 1 2 3 4
keeps 11 83
steps 0F 0L 2F 2L 1F 1L 3F 3L 0E 1E 2E 3E 4E
refuses 1F: NeedsInput { channel: 2 }

circuit sums
trace | cycle x | 0 01 | 1 10 | 2 00
on {"units":["u","v"],"share":[["u","v"]],"direct":true}
has 6 machines 5 channels 3 cycles 48 steps
hosts 0 1 1 2 3 4
keeps 0 fe ed
steps 4F 3F 1F 0F 3E 1L 1E 0L 2F 2L 2E 0E 3L 4E 4L 5E
refuses 2F: NeedsInput { channel: 0 }

circuit sums
trace | cycle x | 0 01 | 1 10 | 2 00
on {"units":["u","v"],"direct":true}
has 6 machines 5 channels 3 cycles 48 steps
hosts 0 1 2 3 4 5
keeps 0 fe ed
steps 0F 0L 2F 0E 1F 3E 3F 1L 1E 3L 4E 2L 4F 4L 2E 5E
refuses 2F: NeedsInput { channel: 0 }

circuit fork
trace | cycle x | 0 01 | 1 10 | 2 00 | 3 05
on {"units":["u","v","w"],"share":[["u","v","w"]],"direct":true}
on {"units":["u","v","w"],"direct":true,"share":[["w","u","v"]]}
has 8 machines 8 channels 4 cycles 96 steps
hosts 0 1 1 1 2 3 4 5
keeps 0 0 101 1212
steps 5F 5L 1F 3F 0F 0L 1E 2F 2L 1L 2E 3L 4F 4L 3E 7F 7L 0E 6F 6L 4E 5E 6E 7E
refuses 7F: NeedsInput { channel: 2 }

circuit fork
trace | cycle x | 0 01 | 1 10 | 2 00 | 3 05
on {"units":["u","v","w"],"direct":true}
has 8 machines 8 channels 4 cycles 96 steps
hosts 0 1 2 3 4 5 6 7
keeps 0 0 101 1212
steps 2F 4F 2L 4L 7F 0E 6F 0F 4E 6L 6E 3F 3L 3E 5F 1F 1L 2E 7L 7E 5L 5E 0L 1E
refuses 1L: NoToken { channel: 1 }

circuit back
trace | cycle x | 0 01 | 1 10 | 2 00
on {"units":["u"],"direct":true}
has 4 machines 3 channels 3 cycles 30 steps
hosts 0 1 2 3
keeps 0 1 11
steps 0F 0L 1F 1L 2F 2L 0E 1E 2E 3E
refuses 0L: NoToken { channel: 0 }
"#;
