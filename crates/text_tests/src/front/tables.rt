//! The tests of all tables.
use super::calls::{Call, check_rows};
use super::fronts::{CHAINS, CIRCUITS};
use super::lines::{LEXED, TOKENS};
use super::reading::{COUNTERS, SECOND_COUNTERS, TEXTS};
use super::stages::STAGES;

#[test]
fn texts_are_told(rt: HostRuntime) {
    let alloc = rt.alloc();
    check_rows(&rt, alloc, Call::Lex, "LEXED", &LEXED);
    check_rows(&rt, alloc, Call::Tokens, "TOKENS", &TOKENS);
    check_rows(&rt, alloc, Call::Read, "COUNTERS", &COUNTERS);
    check_rows(&rt, alloc, Call::Read, "SECOND_COUNTERS", &SECOND_COUNTERS);
    check_rows(&rt, alloc, Call::Read, "TEXTS", &TEXTS);
    check_rows(&rt, alloc, Call::Front, "CIRCUITS", &CIRCUITS);
    check_rows(&rt, alloc, Call::Stages, "STAGES", &STAGES);
}

// `rt try --test` takes more than a minute for this one.
#[test]
fn limits_are_told(rt: HostRuntime) {
    check_rows(&rt, rt.alloc(), Call::Front, "CHAINS", &CHAINS);
}
