//! The listed memories in shared units.
ghost use Rattle.std.specs.Prelude.{◌≡◌, ◌++◌, ◌<◌, ◌^◌, not, find, option_map, length, MatchBool, MatchOption, IfOk, IfErr};
ghost use Rattle.std.specs.Prelude.{None, Some};
ghost use Rattle.std.specs.List.{list_any};
ghost use Rattle.gg_cut_plan.specs.Listed.{is_among};
ghost use Rattle.gg_cut_plan.specs.Fault.{Tells, dotted, rest_behind, lacks_counterpart, lacks_in, unmatched};
ghost use Rattle.gg_cut_plan.specs.declared.fault.CutFault.TheVariants.{Unmatched, NoMemory};

use crate::paths::{has, set_of};
use gg_bits::{Name, Names, Paths};
use gg_cut_plan::CutFault;
use std::alloc::{AllocError, Global};

// Checks the counterparts of listed memories. For each listed memory in a shared unit, its counterpart in each unit
// of the unit's list has to be listed too.
//
// # Errors
//
// Returns `Unmatched` with the first memory that lacks a counterpart, or `NoMemory` if an allocation fails.
pub(crate) fn memories_matched(
    alloc: Global,
    memories: &[Name],
    share: &[Names],
) -> Result<(), CutFault>
    requires few { length memories.now < 2 ^ 32 }
    ensures { Tells (option_map Unmatched (unmatched memories.now share.now)) result }
{
    let set = set_of(alloc, memories)?;
    all_matched(alloc, &set, memories, share)
}

// Checks that each memory has its counterparts in a set.
fn all_matched(
    alloc: Global,
    set: &Paths,
    memories: &[Name],
    share: &[Names],
) -> Result<(), CutFault>
    ensures { Tells (option_map Unmatched (find (λ path. list_any (lacks_in set.now path) share.now) memories.now)) result }
{
    for path in memories {
        if lacks(alloc, set, path, share)? {
            return Err(CutFault::Unmatched(path.clone()?));
        }
    }
    Ok(())
}

// Whether a memory lacks a counterpart for one of the lists.
fn lacks(alloc: Global, set: &Paths, path: &Name, share: &[Names]) -> Result<bool, CutFault>
    ensures lacks { IfOk result (λ lacks. lacks ≡ list_any (lacks_in set.now path.now) share.now) }
    ensures err { IfErr result (λ cause. cause ≡ NoMemory) }
{
    for group in share {
        if lacks_in(alloc, set, path, group.as_slice())? {
            return Ok(true);
        }
    }
    Ok(false)
}

// Whether a memory lacks a counterpart for a list.
fn lacks_in(alloc: Global, set: &Paths, path: &Name, group: &[Name]) -> Result<bool, CutFault>
    ensures lacks { IfOk result (λ lacks. lacks ≡ lacks_in set.now path.now group.now) }
    ensures err { IfErr result (λ cause. cause ≡ NoMemory) }
{
    for unit in group {
        if lacks_behind(alloc, set, path, unit, group)? {
            return Ok(true);
        }
    }
    Ok(false)
}

// Whether a memory is in a unit and lacks a counterpart in a unit of the same list.
fn lacks_behind(
    alloc: Global,
    set: &Paths,
    path: &Name,
    unit: &Name,
    group: &[Name],
) -> Result<bool, CutFault>
    ensures lacks { IfOk result (λ lacks. lacks ≡ lacks_counterpart set.now group.now (rest_behind unit.now path.now)) }
    ensures err { IfErr result (λ cause. cause ≡ NoMemory) }
{
    match rest_behind(unit, path) {
        Some(rest) => lacks_rest(alloc, set, group, rest),
        None => Ok(false),
    }
}

// Whether some unit's path, followed by a rest, isn't in a set.
fn lacks_rest(alloc: Global, set: &Paths, group: &[Name], rest: &str) -> Result<bool, CutFault>
    ensures lacks { IfOk result (λ lacks. lacks ≡ list_any (λ unit. not (is_among set.now (unit ++ rest.now))) group.now) }
    ensures err { IfErr result (λ cause. cause ≡ NoMemory) }
{
    for unit in group {
        if !has(set, &appended(alloc, unit, rest)?) {
            return Ok(true);
        }
    }
    Ok(false)
}

// A path followed by a rest.
fn appended(alloc: Global, path: &Name, rest: &str) -> Result<Name, AllocError>
    ensures { IfOk result (λ name. name ≡ path.now ++ rest.now) }
{
    let mut text = String::from_str(alloc, path.as_str())?;
    text.push_str(rest)?;
    Ok(Name::from(text))
}

// What follows a unit's path in a path, including the dot, if the path is in the unit.
fn rest_behind<'a>(unit: &Name, path: &'a Name) -> Option<&'a str>
    ensures { MatchOption result (rest_behind unit.now path.now ≡ None) (λ rest. rest_behind unit.now path.now ≡ Some rest.now) }
{
    match path.as_str().strip_prefix(unit.as_str()) {
        Some(rest) => dotted(rest),
        None => None,
    }
}

// A text, if it begins with a dot.
fn dotted(text: &str) -> Option<&str>
    ensures { MatchOption result (dotted text.now ≡ None) (λ rest. dotted text.now ≡ Some rest.now) }
{
    if begins_with_dot(text) {
        Some(text)
    } else {
        None
    }
}

// Whether a text begins with a dot.
fn begins_with_dot(text: &str) -> bool
    ensures { MatchBool result (dotted text.now ≡ Some text.now) (dotted text.now ≡ None) }
{
    match text.as_bytes() {
        [byte, ..] => *byte == 46,
        [] => false,
    }
}
