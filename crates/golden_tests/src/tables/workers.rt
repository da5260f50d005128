//! Runs by workers.

pub(crate) const ROWS: &str = r#"
given
# Channels of one token, by no worker, one and three, and by the simulator; with direct channels and with pipes, by none and two. As many workers as
# there may be, and channels as large as they may be. Two workers, where the second put on `out` takes three bytes and fails.
k1.fir = pair
p.json: {"units":["a","b"]}
k1.trace | cycle x | 0 0f | 1 81

$ golden run k1.fir p.json k1.trace --capacity 1 --workers 0 -> prints after 3 loads | cycle q | 0 11 | 1 83
$ golden run k1.fir p.json k1.trace --capacity 1 --workers 1 -> prints after 3 loads | cycle q | 0 11 | 1 83
$ golden run k1.fir p.json k1.trace --capacity 1 --workers 3 -> prints after 3 loads | cycle q | 0 11 | 1 83
$ golden run k1.fir p.json k1.trace --capacity 1 --mono -> prints after 3 loads | cycle q | 0 11 | 1 83

$ golden run k1.fir p.json k1.trace --capacity 1 --workers 0
p.json: {"units":["a","b"],"direct":true} -> prints after 3 loads | cycle q | 0 11 | 1 83

$ golden run k1.fir p.json k1.trace --capacity 1 --workers 2
p.json: {"units":["a","b"],"direct":true} -> prints after 3 loads | cycle q | 0 11 | 1 83

$ golden run k1.fir p.json k1.trace --capacity 1 --workers 0
p.json: {"units":["a","b"],"pipe":["a.k"]} -> prints after 3 loads | cycle q | 0 0f | 1 9f

$ golden run k1.fir p.json k1.trace --capacity 1 --workers 2
p.json: {"units":["a","b"],"pipe":["a.k"]} -> prints after 3 loads | cycle q | 0 0f | 1 9f

$ golden run k1.fir p.json k1.trace --capacity 1 --workers 0
p.json: {"units":["a","b"],"pipe":["q"]} -> prints after 3 loads | cycle q | 0 00 | 1 11

$ golden run k1.fir p.json k1.trace --capacity 1 --workers 2
p.json: {"units":["a","b"],"pipe":["q"]} -> prints after 3 loads | cycle q | 0 00 | 1 11

$ golden run k1.fir p.json k1.trace --capacity 4096 --workers 64 -> prints after 3 loads | cycle q | 0 11 | 1 83

$ golden run k1.fir p.json k1.trace --capacity 1 --workers 2
out fails at put 1, byte 3
out: "cycle q\n0 1"
status 4 after 3 loads | golden: cannot write
"#;
