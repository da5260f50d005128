//! Runs with rings, from tables: few and many workers, several last cycles, channels of capacity 1, direct channels, pipes, and a host without
//! threads.
use crate::cases::is_known;
use crate::workers::runs::{is_expected, row_of};
use gg_io::NoGate;
use gg_ring::Ring;
use std::alloc::Global;
use std::process::Abort;
use std::thread::Threads;

const RUNS: &str = r#"
# two units that feed each other in one cycle: five hosts
circuit pair
trace | cycle x | 0 0f | 1 81
on {"units":["a","b"]}
keeps 11 83
# no worker, or one, for all cycles or for one
run 0 0 2 42 42
run 0 1 2 0 0
run 0 1 1 21 21
run 1 1 18446744073709551615 0 0
run 1 1 1 21 21
# a cycle that all machines have done, or are in
run 1 2 0 21 21
run 1 2 1 21 21
# fewer workers than hosts, and more; with an order and without one
run 0 2 2 0 41
run 0 64 2 0 41
run 1 2 2 0 20
run 1 64 2 0 20

# a memory that is served, by one worker and by three
circuit four_ports
trace | cycle a v | 0 1 0f | 1 1 21 | 2 3 55 | 3 1 00
on {"memories":["m"]}
keeps 0 f0 0 0
run 0 1 4 0 0
run 2 3 4 0 87

# one channel, by one worker and by 64
circuit toggle
trace | cycle | 0 | 1 | 2
on {}
keeps 0 1 0
run 0 1 3 0 0
run 0 64 3 0 11

# the same with a third host, which has no thread: with two workers it is beside the first, and with 64 it is alone
circuit toggle
trace | cycle | 0 | 1 | 2
on {}
keeps 0 1 0
beside a host without threads
run 0 0 3 12 12
run 0 1 3 0 0
run 0 2 3 0 11
run 0 64 3 0 11
run 2 64 1 4 4

# the two units without the hub between them
circuit pair
trace | cycle x | 0 0f | 1 81
on {"units":["a","b"],"direct":true}
keeps 11 83
run 0 0 2 26 26
run 0 2 2 0 25
run 1 2 2 0 12

# an input that goes to the hub and to a unit, which shares its host with another
circuit sums
trace | cycle x | 0 01 | 1 10 | 2 00
on {"units":["u","v"],"share":[["u","v"]],"direct":true}
keeps 0 fe ed
run 0 0 3 48 48
run 0 2 3 0 47
run 1 2 3 0 31

# a unit that gives its sum to two others and to an output: the three on one host
circuit fork
trace | cycle x | 0 01 | 1 10 | 2 00 | 3 05
on {"units":["u","v","w"],"share":[["u","v","w"]],"direct":true}
keeps 0 0 101 1212
run 0 0 4 96 96
run 0 2 4 0 95
run 1 2 4 0 71

# the same on three hosts
circuit fork
trace | cycle x | 0 01 | 1 10 | 2 00 | 3 05
on {"units":["u","v","w"],"direct":true}
keeps 0 0 101 1212
run 0 0 4 96 96
run 0 2 4 0 95

# a unit that gives to itself
circuit back
trace | cycle x | 0 01 | 1 10 | 2 00
on {"units":["u"],"direct":true}
keeps 0 1 11
run 0 0 3 30 30
run 0 2 3 0 29

# a unit that takes what the other gave a cycle before
circuit pair
trace | cycle x | 0 0f | 1 81
on {"units":["a","b"],"pipe":["a.k"]}
keeps f 9f
run 0 0 2 42 42
run 0 1 2 0 0
run 0 2 2 0 41
run 1 2 2 0 20
run 0 64 1 21 41

# the same without the hub between them
circuit pair
trace | cycle x | 0 0f | 1 81
on {"units":["a","b"],"direct":true,"pipe":["a.k"]}
keeps f 9f
run 0 0 2 26 26
run 0 2 2 0 25

# an output that comes a cycle late
circuit pair
trace | cycle x | 0 0f | 1 81
on {"units":["a","b"],"pipe":["q"]}
keeps 0 11
run 0 0 2 42 42
run 0 2 2 0 41

# of two units on one host, one takes its input a cycle late
circuit sums
trace | cycle x | 0 01 | 1 10 | 2 00
on {"units":["u","v"],"share":[["u","v"]],"direct":true,"pipe":["v.a"]}
keeps 0 0 fe
run 0 0 3 48 48
run 0 2 3 0 47

# a unit that takes its own output a cycle late
circuit back
trace | cycle x | 0 01 | 1 10 | 2 00
on {"units":["u"],"direct":true,"pipe":["u.a"]}
keeps 0 1 10
run 0 0 3 30 30
run 0 2 3 0 29
"#;

// The first words of a case's lines.
static KEYS: [&str; 6] = ["circuit", "trace", "on", "keeps", "beside", "run"];

// Checks how each run of a case ends. Returns how many runs there are.
fn check_case<R: Threads + Sync + Abort>(rt: &R, alloc: Global, case: &str) -> u64 {
    assert!(rt; is_known(case, &KEYS), "{case}");
    let mut runs: u64 = 0;
    for line in case.lines() {
        if let Some(numbers) = line.strip_prefix("run ") {
            let row = row_of(numbers).expect(rt, "five numbers");
            let is_right = is_expected::<R, Ring, NoGate>(rt, (), alloc, case, row, &NoGate);
            assert!(rt; is_right, "{line}: {case}");
            runs = runs.saturating_add(1);
        }
    }
    runs
}

// Checks how the runs of each case of a text end.
fn check_cases<R: Threads + Sync + Abort>(rt: &R, alloc: Global, text: &str) {
    for case in text.split("\n\n") {
        assert!(rt; check_case(rt, alloc, case) > 0, "{case}");
    }
}

#[test]
fn workers_leave_what_is_expected(rt: HostRuntime) {
    check_cases(&rt, rt.alloc(), RUNS);
}
