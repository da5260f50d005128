//! The tables of texts, by circuit, and their check. A circuit's table has texts, each with the answer of reading it.
use super::circuits::{COUNTER, LATE, PROMPT, THREE};
use super::telling::{Row, check_rows};

// The first two lines, for the counter.
static HEADINGS: [Row; 16] = [
    ("", "S1 line 1"),
    ("\n", "S1 line 1"),
    ("golden snapshot 1", "S1 line 1"),
    ("golden snapshot 2\ncycle 3\n", "S1 line 1"),
    ("golden snapshot 1\r\ncycle 3\r\n", "S1 line 1"),
    ("golden snapshot 1\n", "S1 line 2"),
    ("golden snapshot 1\ncycle 3", "S1 line 2"),
    ("golden snapshot 1\ncycle 03\n", "S1 line 2"),
    ("golden snapshot 1\ncycle +3\n", "S1 line 2"),
    ("golden snapshot 1\ncycle \n", "S1 line 2"),
    ("golden snapshot 1\ncycle 3 \n", "S1 line 2"),
    ("golden snapshot 1\ncycle 1000001\n", "S1 line 2"),
    (
        "golden snapshot 1\ncycle 99999999999999999999\n",
        "S1 line 2",
    ),
    ("golden snapshot 1\nreg c 02\n", "S1 line 2"),
    ("golden snapshot 1\ncycle 1000000\n", "ok"),
    ("golden snapshot 1\ncycle 0\n", "ok"),
];

// Lines of values, for the counter.
static VALUES: [Row; 23] = [
    ("golden snapshot 1\ncycle 3\nreg c 02\n", "ok"),
    ("golden snapshot 1\ncycle 3\nreg c ff\n", "ok"),
    ("golden snapshot 1\ncycle 3\nreg c 00\n", "S1 line 3"),
    ("golden snapshot 1\ncycle 3\nreg c 2\n", "S1 line 3"),
    ("golden snapshot 1\ncycle 3\nreg c 002\n", "S1 line 3"),
    ("golden snapshot 1\ncycle 3\nreg c 100\n", "S1 line 3"),
    ("golden snapshot 1\ncycle 3\nreg c FF\n", "S1 line 3"),
    ("golden snapshot 1\ncycle 3\nreg c +2\n", "S1 line 3"),
    ("golden snapshot 1\ncycle 3\nreg c 02", "S1 line 3"),
    ("golden snapshot 1\ncycle 3\nreg c 02\r\n", "S1 line 3"),
    ("golden snapshot 1\ncycle 3\nreg  c 02\n", "S1 line 3"),
    ("golden snapshot 1\ncycle 3\nreg c  02\n", "S1 line 3"),
    ("golden snapshot 1\ncycle 3\nreg c 0 02\n", "S1 line 3"),
    ("golden snapshot 1\ncycle 3\nreg d 02\n", "S1 line 3"),
    ("golden snapshot 1\ncycle 3\nmem c 0 02\n", "S1 line 3"),
    ("golden snapshot 1\ncycle 3\nread c 02\n", "S1 line 3"),
    ("golden snapshot 1\ncycle 3\npipe c 02\n", "S1 line 3"),
    ("golden snapshot 1\ncycle 3\nreg out 02\n", "S1 line 3"),
    ("golden snapshot 1\ncycle 3\n\nreg c 02\n", "S1 line 3"),
    (
        "golden snapshot 1\ncycle 3\nreg c 02\nreg c 02\n",
        "S1 line 4",
    ),
    (
        "golden snapshot 1\ncycle 3\nreg c 02\nreg c 03\n",
        "S1 line 4",
    ),
    ("golden snapshot 1\ncycle 3\nreg c 02\n\n", "S1 line 4"),
    ("golden snapshot 1\ncycle 3\nreg r 1\n", "S1 line 3"),
];

// Several registers.
static ORDERS: [Row; 11] = [
    (
        "golden snapshot 1\ncycle 3\nreg a 1\nreg b 1f\nreg i.r a\n",
        "ok",
    ),
    ("golden snapshot 1\ncycle 3\nreg b 01\n", "ok"),
    (
        "golden snapshot 1\ncycle 3\nreg b 01\nreg a 1\n",
        "S1 line 4",
    ),
    (
        "golden snapshot 1\ncycle 3\nreg i.r 1\nreg b 01\n",
        "S1 line 4",
    ),
    ("golden snapshot 1\ncycle 3\nreg a 2\n", "S1 line 3"),
    ("golden snapshot 1\ncycle 3\nreg b 20\n", "S1 line 3"),
    ("golden snapshot 1\ncycle 3\nreg b 1\n", "S1 line 3"),
    ("golden snapshot 1\ncycle 3\nreg i.r 10\n", "S1 line 3"),
    ("golden snapshot 1\ncycle 3\nreg i 1\n", "S1 line 3"),
    ("golden snapshot 1\ncycle 3\nreg r 1\n", "S1 line 3"),
    ("golden snapshot 1\ncycle 3\nreg c 02\n", "S1 line 3"),
];

// A memory that is read at once.
static WORDS: [Row; 10] = [
    ("golden snapshot 1\ncycle 3\nmem m 1 22\n", "ok"),
    (
        "golden snapshot 1\ncycle 3\nmem m 0 01\nmem m 1 22\nmem m 2 ff\n",
        "ok",
    ),
    ("golden snapshot 1\ncycle 3\nmem m 3 22\n", "S1 line 3"),
    ("golden snapshot 1\ncycle 3\nmem m 01 22\n", "S1 line 3"),
    ("golden snapshot 1\ncycle 3\nmem m 22\n", "S1 line 3"),
    ("golden snapshot 1\ncycle 3\nmem m 1 00\n", "S1 line 3"),
    (
        "golden snapshot 1\ncycle 3\nmem m 4294967296 22\n",
        "S1 line 3",
    ),
    (
        "golden snapshot 1\ncycle 3\nmem m 1 22\nmem m 0 01\n",
        "S1 line 4",
    ),
    (
        "golden snapshot 1\ncycle 3\nmem m 1 22\nmem m 1 22\n",
        "S1 line 4",
    ),
    (
        "golden snapshot 1\ncycle 3\nread m.r.data 01\n",
        "S1 line 3",
    ),
];

// A memory with a read register.
static READS: [Row; 6] = [
    (
        "golden snapshot 1\ncycle 3\nread m.r.data 07\nmem m 0 07\n",
        "ok",
    ),
    ("golden snapshot 1\ncycle 3\nread m.r.data 07\n", "ok"),
    (
        "golden snapshot 1\ncycle 3\nmem m 0 07\nread m.r.data 07\n",
        "S1 line 4",
    ),
    (
        "golden snapshot 1\ncycle 3\nread m.r.data 00\n",
        "S1 line 3",
    ),
    ("golden snapshot 1\ncycle 3\nreg m.r.data 07\n", "S1 line 3"),
    ("golden snapshot 1\ncycle 3\nread m.r 07\n", "S1 line 3"),
];

#[test]
fn lines_are_told(rt: HostRuntime) {
    let alloc = rt.alloc();
    check_rows(&rt, alloc, "HEADINGS", COUNTER, &HEADINGS);
    check_rows(&rt, alloc, "VALUES", COUNTER, &VALUES);
}

#[test]
fn orders_are_told(rt: HostRuntime) {
    let alloc = rt.alloc();
    check_rows(&rt, alloc, "ORDERS", THREE, &ORDERS);
    check_rows(&rt, alloc, "WORDS", PROMPT, &WORDS);
    check_rows(&rt, alloc, "READS", LATE, &READS);
}
