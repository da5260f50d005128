//! The check of each row of each table.
use crate::bits::arithmetic_rows::ARITHMETIC;
use crate::bits::bit_rows::COMPARISONS_SHIFTS_AND_BITS;
use crate::bits::calls::{Row, answer};
use crate::bits::choice_rows::CHOICES_AND_EXTENSIONS;
use crate::bits::fault_rows::FAULTS;
use crate::bits::parameter_rows::PARAMETERS;
use crate::bits::unary_rows::ONE_VALUE;
use std::fmt::Debug;
use std::process::Abort;

// Fails the test if this doesn't hold, and shows `about`.
pub(crate) fn check(rt: &impl Abort, holds: bool, about: &impl Debug) {
    assert!(rt; holds, "{about:?}");
}

// Checks that the call of each row has the row's answer. One that hasn't is shown by its place, its answer, and the
// expected one.
fn check_rows(rt: &impl Abort, rows: &[Row]) {
    for (place, row) in rows.iter().enumerate() {
        let answered = answer(&row.0);
        check(rt, answered == Some(row.1), &(place, answered, row.1));
    }
}

#[test]
fn operations(rt: HostRuntime) {
    check_rows(&rt, &ONE_VALUE);
    check_rows(&rt, &ARITHMETIC);
    check_rows(&rt, &COMPARISONS_SHIFTS_AND_BITS);
    check_rows(&rt, &PARAMETERS);
    check_rows(&rt, &CHOICES_AND_EXTENSIONS);
    check_rows(&rt, &FAULTS);
}
