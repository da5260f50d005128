//! gg_io: shelves, the answers of loads, and how the counts rise.
use crate::fakes::Few;
use gg_io::{FileShelf, LoadFail, MemShelf, Shelf, SureShelf, hold};
use std::alloc::Global;
use std::collections::BTreeMap;
use std::process::Abort;
use std::{fs, mem};

// A name and a limit, and the answer of a load.
type Load<'a> = (&'a str, u64, Result<&'a [u8], LoadFail>);

// Checks that each load in turn has the answer of its row. One that hasn't is shown.
fn check_loads<S: Shelf>(rt: &impl Abort, alloc: Global, shelf: &mut S, loads: &[Load<'_>]) {
    for (name, limit, want) in loads {
        let is_right = match shelf.load(alloc, name, *limit) {
            Ok(file) => *want == Ok(file.as_slice()),
            Err(fail) => *want == Err(fail),
        };
        assert!(rt; is_right, "{name} {limit}");
    }
}

// Files by name. The last replaces the first.
static FILES: [(&str, &[u8]); 3] = [("a", b"old"), ("b", b""), ("a", b"hello")];

// The second load is listed as failing, and there is no file `c`.
static LOADS: [Load<'static>; 5] = [
    ("a", 5, Ok(b"hello")),
    ("a", 5, Err(LoadFail::Failed)),
    ("c", 5, Err(LoadFail::Failed)),
    ("a", 4, Err(LoadFail::TooLong { taken: 5 })),
    ("b", 0, Ok(b"")),
];

// Where no load fails, a file `c` is empty.
static SURE_LOADS: [Load<'static>; 3] = [
    ("a", 5, Ok(b"hello")),
    ("c", 0, Ok(b"")),
    ("a", 0, Err(LoadFail::TooLong { taken: 1 })),
];

#[test]
fn shelves_in_memory(rt: HostRuntime) {
    let mut files = BTreeMap::new(rt.alloc());
    for (name, bytes) in &FILES {
        assert!(rt; hold(&mut files, rt.alloc(), name, bytes).is_ok());
    }
    let mut shelf = MemShelf::new(files, Vec::new(rt.alloc()));
    assert!(rt; shelf.failing.push(1).is_ok());
    check_loads(&rt, rt.alloc(), &mut shelf, &LOADS);
    assert!(rt; (shelf.loads, shelf.faults, shelf.cuts) == (5, 2, 1));
    let files = mem::replace(&mut shelf.files, BTreeMap::new(rt.alloc()));
    let mut sure = SureShelf::new(files);
    check_loads(&rt, rt.alloc(), &mut sure, &SURE_LOADS);
    assert!(rt; sure.cuts == 1);
}

// A file of the system that is longer than one read, one that is cut, and one that is missing.
#[test]
fn shelf_of_the_system(rt: HostRuntime) {
    let mut text = Vec::new(rt.alloc());
    for i in 0..10_000u32 {
        assert!(rt; text.push((i % 251) as u8).is_ok());
    }
    assert!(rt; fs::write(&rt, "long.txt", text.as_slice()).is_ok());
    let loads = [
        ("long.txt", 10_000, Ok(text.as_slice())),
        ("long.txt", 9_999, Err(LoadFail::TooLong { taken: 10_000 })),
        ("none.txt", 10_000, Err(LoadFail::Failed)),
    ];
    check_loads(&rt, rt.alloc(), &mut FileShelf::new(rt), &loads);
    assert!(rt; fs::remove_file(&rt, "long.txt").is_ok());
}

// How many bytes a file has, whether reads fail after them, and the answer of a load of at most eight bytes.
static READS: [(usize, bool, Result<&[u8], LoadFail>); 6] = [
    (0, false, Ok(b"")),
    (7, false, Ok(b"1234567")),
    (8, false, Ok(b"12345678")),
    (9, false, Err(LoadFail::TooLong { taken: 9 })),
    (12, true, Err(LoadFail::TooLong { taken: 9 })),
    (8, true, Err(LoadFail::Failed)),
];

#[test]
fn reads_go_on_to_the_end_or_a_fault(rt: HostRuntime) {
    for (room, is_broken, want) in &READS {
        let mut shelf = FileShelf::new(Few {
            bytes: *b"123456789012",
            next: 0,
            room: *room,
            is_broken: *is_broken,
        });
        check_loads(&rt, rt.alloc(), &mut shelf, &[("any", 8, *want)]);
    }
}
