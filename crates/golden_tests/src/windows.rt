//! Runs of more cycles than a tray keeps values, also with a slow clock and from a snapshot; stops about the end of the first window, and snapshots
//! there.
use crate::calls::{Answer, RESUME, RUN, ask, call, files_of};
use gg_io::{FailingPut, hold};
use itoa::Buffer;
use std::alloc::{AllocError, Global};
use std::process::Abort;
use std::thread::Threads;

// A cycle without a stop, or the number of a put that isn't made.
const NONE: u64 = u64::MAX;

// The words of `save`, without the cycle.
const SAVE: &str = "golden save k1.fir p.json k1.trace";

// The lowest bit of a register that counts.
const COUNTS: &str =
    "circuit Free :\nmodule Free :\ninput clock : Clock\noutput q : UInt<1>\nreg r : UInt<11>, clock\nq <= bits(r, 0, 0)\nr <= bits(add(r, UInt<11>(1)), 10, 0)\n";

// The circuit with a stop in this cycle, if it isn't NONE.
fn circuit_of(alloc: Global, stop: u64) -> Result<String, AllocError> {
    if stop == NONE {
        return String::from_str(alloc, COUNTS);
    }
    format!(in alloc; "{COUNTS}stop(clock, eq(r, UInt<11>({stop})), 1)\n")
}

// A header and the rows of the cycles not below `first` and below `end`. They end in turn with one text and with the other. If the clock is slow,
// three in a row end alike.
pub(crate) fn rows_of(
    alloc: Global,
    header: &str,
    first: u64,
    end: u64,
    is_slow: bool,
    even: &str,
    odd: &str,
) -> Result<String, AllocError> {
    let mut buffer = Buffer::new();
    let mut text = String::from_str(alloc, header)?;
    for row in first..end {
        text.push_str(buffer.format(row))?;
        let edges = if is_slow { row / 3 } else { row };
        text.push_str(if edges % 2 == 0 { even } else { odd })?;
    }
    Ok(text)
}

// The clock has an edge in every third cycle.
const SLOW_CLOCK: &str = "{\"clocks\":{\"clock\":[1,3]}}";

// A run of 1,028 cycles with these options and this stop, where the put on `out` of this number takes nothing and fails.
fn run_long<R: Threads + Sync>(
    rt: &R,
    alloc: Global,
    options: &str,
    is_slow: bool,
    stop: u64,
    number: u64,
) -> Result<Answer, AllocError> {
    let circuit = circuit_of(alloc, stop)?;
    let trace = rows_of(alloc, "cycle\n", 0, 1_028, false, "\n", "\n")?;
    let partition = if is_slow { SLOW_CLOCK } else { "{}" };
    let files = files_of(alloc, circuit.as_bytes(), partition, trace.as_str())?;
    let puts = vec![in alloc; FailingPut { number, takes: 0 }]?;
    let line = format!(in alloc; "{RUN} {options}")?;
    let (loads, err_puts) = (Vec::new(alloc), Vec::new(alloc));
    call(rt, alloc, line.as_str(), files, loads, puts, err_puts)
}

// Whether the call answered this status and line, after this many rows.
fn ends_after(
    alloc: Global,
    answer: &Answer,
    status: u8,
    is_slow: bool,
    rows: u64,
    line: &str,
) -> Result<bool, AllocError> {
    let text = rows_of(alloc, "cycle q\n", 0, rows, is_slow, " 0\n", " 1\n")?;
    Ok(
        answer.status == status
            && answer.out.as_slice() == text.as_bytes()
            && answer.err.as_slice() == line.as_bytes(),
    )
}

// The options, the cycle of the stop, the put that fails, the status, the rows that are written, and the line.
type Long = (&'static str, u64, u64, u8, u64, &'static str);

// Runs without a stop.
static LONG: [Long; 5] = [
    ("--workers 0", NONE, NONE, 0, 1_028, ""),
    ("--workers 2", NONE, NONE, 0, 1_028, ""),
    ("--mono", NONE, NONE, 0, 1_028, ""),
    (
        "--workers 0",
        NONE,
        1_025,
        4,
        1_024,
        "golden: cannot write\n",
    ),
    (
        "--workers 2",
        NONE,
        1_025,
        4,
        1_024,
        "golden: cannot write\n",
    ),
];

// A stop in the last cycle of the first window, in the first one of the second, and in a later one; and one with a row that can't be written.
static STOPPED: [Long; 9] = [
    ("--workers 0", 1_023, NONE, 0, 1_024, ""),
    ("--workers 3", 1_023, NONE, 0, 1_024, ""),
    ("--mono", 1_023, NONE, 0, 1_024, ""),
    ("--workers 0", 1_024, NONE, 0, 1_025, ""),
    ("--workers 3", 1_024, NONE, 0, 1_025, ""),
    ("--mono", 1_024, NONE, 0, 1_025, ""),
    ("--workers 2", 1_026, NONE, 0, 1_027, ""),
    (
        "--workers 0",
        1_024,
        1_025,
        4,
        1_024,
        "golden: cannot write\n",
    ),
    ("--mono", 1_024, 1_025, 4, 1_024, "golden: cannot write\n"),
];

// The clock has an edge in every third cycle: in 1,025, the second one of the second window. The register is 341 starting at 1,023.
static SLOW: [Long; 3] = [
    ("--workers 0", 341, NONE, 0, 1_026, ""),
    ("--workers 2", 341, NONE, 0, 1_026, ""),
    ("--mono", 341, NONE, 0, 1_026, ""),
];

// Checks how each run ends.
fn check_long<R: Threads + Sync + Abort>(rt: &R, alloc: Global, is_slow: bool, runs: &[Long]) {
    for (options, stop, number, status, rows, line) in runs {
        let answer = run_long(rt, alloc, options, is_slow, *stop, *number).expect(
            rt,
            "there is memory",
        );
        let is_right = ends_after(alloc, &answer, *status, is_slow, *rows, line).expect(
            rt,
            "there is memory",
        );
        assert!(rt; is_right, "{options}: {rows} rows");
    }
}

#[test]
fn runs_of_two_windows(rt: HostRuntime) {
    check_long(&rt, rt.alloc(), false, &LONG);
}

#[test]
fn stops_about_a_window(rt: HostRuntime) {
    check_long(&rt, rt.alloc(), false, &STOPPED);
}

#[test]
fn a_slow_clock_over_two_windows(rt: HostRuntime) {
    check_long(&rt, rt.alloc(), true, &SLOW);
}

// A call with these words and options on the circuit with this stop, 1,028 rows, and a snapshot before cycle 2.
fn ask_snapped<R: Threads + Sync>(
    rt: &R,
    alloc: Global,
    words: &str,
    options: &str,
    stop: u64,
) -> Result<Answer, AllocError> {
    let circuit = circuit_of(alloc, stop)?;
    let trace = rows_of(alloc, "cycle\n", 0, 1_028, false, "\n", "\n")?;
    let mut files = files_of(alloc, circuit.as_bytes(), "{}", trace.as_str())?;
    hold(
        &mut files,
        alloc,
        "k1.snap",
        b"golden snapshot 1\ncycle 2\nreg r 002\n",
    )?;
    let line = format!(in alloc; "{words}{options}")?;
    ask(rt, alloc, line.as_str(), files)
}

// The options, the cycle of the stop, and the cycle after the last row.
type Rest = (&'static str, u64, u64);

// Starting at cycle 2, and so the first window ends with cycle 1,025: all rows, and stops in its last cycle and after it.
static RESTS: [Rest; 4] = [
    ("", NONE, 1_028),
    (" --workers 2", NONE, 1_028),
    ("", 1_025, 1_026),
    (" --workers 2", 1_026, 1_027),
];

#[test]
fn rests_of_two_windows(rt: HostRuntime) {
    let alloc = rt.alloc();
    for (options, stop, end) in &RESTS {
        let answer = ask_snapped(&rt, alloc, RESUME, options, *stop).expect(&rt, "there is memory");
        let text = rows_of(alloc, "cycle q\n", 2, *end, false, " 0\n", " 1\n").expect(
            &rt,
            "there is memory",
        );
        assert!(rt;
            answer.is(0, 4, text.as_bytes(), b""),
            "{options}: up to {end}"
        );
    }
}

// The cycle and the options, the cycle of the stop, the status, and what is on `out` and on `err`.
type Saved = (&'static str, u64, u8, &'static str, &'static str);

// A snapshot in the second window, at its beginning, and after the last cycle; with a stop in the last cycle of the first window, in the first of the
// second, and in the last of all.
static SAVED: [Saved; 8] = [
    (
        " 1026",
        NONE,
        0,
        "golden snapshot 1\ncycle 1026\nreg r 402\n",
        "",
    ),
    (
        " 1026 --workers 2",
        NONE,
        0,
        "golden snapshot 1\ncycle 1026\nreg r 402\n",
        "",
    ),
    (
        " 1024",
        1_024,
        0,
        "golden snapshot 1\ncycle 1024\nreg r 400\n",
        "",
    ),
    (" 1024", 1_023, 10, "", "golden: snapshot: S2 1024 1023\n"),
    (
        " 1026 --workers 2",
        1_024,
        10,
        "",
        "golden: snapshot: S2 1026 1024\n",
    ),
    (
        " 1028",
        1_027,
        0,
        "golden snapshot 1\ncycle 1028\nreg r 404\n",
        "",
    ),
    (" 1029", NONE, 10, "", "golden: snapshot: S2 1029 1028\n"),
    (" 1029", 1_026, 10, "", "golden: snapshot: S2 1029 1026\n"),
];

// Whether the call answered so, and put its text at once.
fn ends_at_once(answer: &Answer, status: u8, text: &str, line: &str) -> bool {
    if status == 0 {
        answer.is_put(0, 3, 1, text.as_bytes(), b"")
    } else {
        answer.is(status, 3, text.as_bytes(), line.as_bytes())
    }
}

#[test]
fn snapshots_about_a_window(rt: HostRuntime) {
    let alloc = rt.alloc();
    for (options, stop, status, text, line) in &SAVED {
        let answer = ask_snapped(&rt, alloc, SAVE, options, *stop).expect(&rt, "there is memory");
        assert!(rt;
            ends_at_once(&answer, *status, text, line),
            "{options}: stop {stop}"
        );
    }
}
