//! Circuits that are refused; and of several faults the first.

pub(crate) const ROWS: &str = r#"
given
# Circuits with a line changed, and the fault that is told.
$ golden run k1.fir p.json k1.trace, in each way
p.json: {}
k1.trace | cycle reset | 0 1 | 1 0 | 2 0 | 3 0

k1.fir = counter, line 9 | node n add(c, c) -> status 1 after 1 load | golden: circuit: syntax line 9
k1.fir = counter, line 1 | circuit Count : -> status 1 after 1 load | golden: circuit: F1 Count
k1.fir = counter, line 11 | c <= mux(reset, UInt<8>("h0"), bits(n, 7, 0)) | node out = c -> status 1 after 1 load | golden: circuit: F2 line 12 out
k1.fir = counter, line 11 | c <= q -> status 1 after 1 load | golden: circuit: F3 line 11 q
k1.fir = counter, line 11 | c <= mux(reset, UInt<8>("h0"), bits(n, 7, 0)) | out <= c -> status 1 after 1 load | golden: circuit: F4 line 12 out

k1.fir = counter, line 10
|
status 1 after 1 load | golden: circuit: F5 line 5 out

k1.fir = counter, line 11 | c <= mux(reset, UInt<8>("h0"), bits(n, 7, 0)) | reset <= c -> status 1 after 1 load | golden: circuit: F6 line 12 reset

k1.fir = counter, line 11 | c <= mux(reset, UInt<8>("h0"), bits(n, 7, 0)) | inst x of Counter | x.clock <= clock | x.reset <= reset
status 1 after 1 load | golden: circuit: F7 Counter Counter

k1.fir = memory, line 11 | read-latency => 2 -> status 1 after 1 load | golden: circuit: F8 line 8 read-latency
k1.fir = counter, line 10 | out <= asSInt(c) -> status 1 after 1 load | golden: circuit: F9 line 10 connect
k1.fir = counter, line 10 | out <= dshl(c, UInt<32>("h0")) -> status 1 after 1 load | golden: circuit: F10 line 10 4294967295

k1.fir
| circuit Wide :
| module Wide : | input x : UInt<128> | input y : UInt<128> | output z : UInt<128>
| z <= add(x, y)
status 1 after 1 load | golden: circuit: F10 line 6 129

k1.fir = counter, line 11 | c <= bits(n, 9, 0) -> status 1 after 1 load | golden: circuit: F11 line 11 bits
k1.fir = counter, line 9 | node n = add(c, UInt<1>("h2")) -> status 1 after 1 load | golden: circuit: F12 line 9
k1.fir = counter, line 11 | c <= n -> status 1 after 1 load | golden: circuit: F13 line 11 9 8
k1.fir = loop, line 26 | c.clock is invalid -> status 1 after 1 load | golden: circuit: F14 line 26 c.clock
k1.fir = pair, line 20 | a.clock is invalid -> status 1 after 1 load | golden: circuit: F14 line 20 a.clock
k1.fir = memory, line 10 | depth => 65537 -> status 1 after 1 load | golden: circuit: F15 memory 65537
k1.fir = loop -> status 1 after 1 load | golden: circuit: F16 c.a p.e p.b c.d c.m.r.data c.m.r.addr
k1.fir = pair, line 23 | a.k <= a.q -> status 1 after 1 load | golden: circuit: F16 a.k a.q
# of two faults the one of the lesser number, whatever their lines
k1.fir = counter, line 9 | node n = add(c, UInt<1>("h2")) | node n = c -> status 1 after 1 load | golden: circuit: F2 line 10 n

given
# The counter with a line changed, and other files.
$ golden run k1.fir p.json k1.trace, in each way
k1.trace: cycle

# the first fault is told: the circuit's before the partition's, the partition's before the trace's
k1.fir = counter, line 10
|
p.json: []
status 1 after 1 load | golden: circuit: F5 line 5 out

k1.fir = counter, line 9 | node n add(c, c)
p.json: [] -> status 1 after 1 load | golden: circuit: syntax line 9

k1.fir = counter
p.json: [] -> status 6 after 2 loads | golden: partition: P1 -

k1.fir = counter
p.json: {} -> status 7 after 3 loads | golden: trace: T1 field 1

k1.fir = counter
p.json | {}
k1.trace | cycle reset | 0 1 | 1 2
status 7 after 3 loads | golden: trace: T4 row 1 field 1

k1.fir = counter
p.json: "{\"units\":[\"c\"]}\r\n" -> status 6 after 2 loads | golden: partition: P2 c

k1.fir = counter, line 3 | input clock : Analog<1>
p.json: {}
k1.trace | cycle reset | 0 1 | 1 0 | 2 0 | 3 0
status 1 after 1 load | golden: circuit: outside line 3 Analog

k1.fir = counter, line 10 | when reset :
p.json: {}
k1.trace | cycle reset | 0 1 | 1 0 | 2 0 | 3 0
status 1 after 1 load | golden: circuit: outside line 10 when

k1.fir = counter, line 1 | circuit Other :
p.json: {}
k1.trace | cycle reset | 0 1 | 1 0 | 2 0 | 3 0
status 1 after 1 load | golden: circuit: F1 Other
"#;
