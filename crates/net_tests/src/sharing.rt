//! gg_build: units that share a host.

// The two units share a host, in lists among empty ones too: in a cycle they take turns. They share none: no list, an empty one, lists of one unit;
// the first is through its cycle ahead of the second. Four units share two hosts, by turns. Two units of many levels share one; the second of the
// circuit's clocks has an edge in two of three ticks, and the units have the clocks the other way round.
pub(crate) const SHARES: &str = r#"
circuit sums
trace | cycle x | 0 01 | 1 10 | 2 00
on {"units":["u","v"],"share":[["u","v"]]}
on {"units":["u","v"],"share":[["v","u"]]}
on {"units":["u","v"],"share":[[],["u","v"],[]]}
has 6 machines 7 channels 3 cycles 60 steps
hosts 0 1 1 2 3 4
keeps 0 fe ed
steps 4F 2F 0F 0L 1F 3F 1L 3L 4L 2L 2E 1E 5F 6F 5L 6L 0E 3E 4E 5E
refuses 1F: NeedsInput { channel: 0 }

circuit sums
trace | cycle x | 0 01 | 1 10 | 2 00
on {"units":["u","v"],"share":[]}
on {"units":["u","v"],"share":[[]]}
on {"units":["u","v"],"share":[["u"]]}
on {"units":["u","v"],"share":[["v"],["u"]]}
has 6 machines 7 channels 3 cycles 60 steps
hosts 0 1 2 3 4 5
keeps 0 fe ed
steps 0F 0L 3E 1F 1L 2F 2L 1E 5F 5L 4E 3F 3L 4F 4L 2E 6F 6L 5E 0E
refuses 1F: NeedsInput { channel: 0 }

circuit four
trace | cycle x | 0 01 | 1 10 | 2 83
on {"units":["u","v","w","z"],"share":[["u","w"],["v","z"]]}
on {"units":["u","v","w","z"],"share":[["z","v"],["w","u"]]}
has 7 machines 10 channels 3 cycles 81 steps
hosts 0 1 2 1 2 3 4
keeps 0 1fef102 11edd122
steps 8F 0F 0L 5F 1F 5L 1L 2F 6F 3E 7F 7L 4E 3F 3L 4F 2L 1E 8L 6L 4L 9F 2E 0E 9L 6E 5E
refuses 1F: NeedsInput { channel: 0 }

circuit deep
trace | cycle x | 0 01 | 1 10 | 2 83 | 3 05 | 4 62
on {"units":["u","v"],"share":[["u","v"]],"clocks":{"c2":[2,3]}}
on {"units":["u","v"],"share":[["v","u"]],"clocks":{"c1":[1,1],"c2":[2,3]}}
has 5 machines 6 channels 5 cycles 85 steps
hosts 0 1 1 2 3
keeps 0 fe 11ef 6f8 9275
steps 0F 0L 3F 1F 1L 3L 4F 2F 2E 4L 2L 5F 0E 1E 5L 4E 3E
refuses 1F: NeedsInput { channel: 0 }
"#;
