//! The header: `cycle` and the names of all ports, each once, in any order.

ghost use Rattle.std.specs.Prelude.{◌≡◌, ◌≢◌, ℕ, ◌+◌, ◌<◌, ◌∷◌, ◌++◌, [], false, true, IfOk, IsOk, MatchOption, MatchResult, codes, length, slice_index, slice_index_or, slice_set, vec_len};
ghost use Rattle.std.specs.Bool.{OnTrue, OnFalse};
ghost use Rattle.gg_trace.specs.Fields.{fields};
ghost use Rattle.gg_trace.specs.Ports.{IsNamed, HasDistinctNames};
ghost use Rattle.gg_trace.specs.inside.Ports.{NamesNone};
ghost use Rattle.gg_trace.specs.inside.Places.{IsHeading, IfHeaderFault, TakesName};

use crate::faults::TraceFault;
use crate::field_cuts::Fields;
use crate::port_table::PortTable;
use crate::texts::same_bytes;
use gg_flat::Port;
use std::alloc::Global;

// Whether each port is named.
fn all_named(named: &[bool]) -> bool
    ensures all { OnTrue result ((i : ℕ) → i < length named.now → slice_index_or named.now i false ≡ true) }
    ensures missing { OnFalse result ((i : ℕ) × (i < length named.now) × (slice_index_or named.now i false ≡ false)) }
{
    !named.contains(&false)
}

// The place of the port with this name, which is then marked as named. None if there is no such port or it was already
// named.
fn take_name(table: &PortTable, name: &[u8], named: &mut Vec<bool>) -> Option<usize>
    requires size { vec_len named.old ≡ length table.now }
    requires distinct { HasDistinctNames table.now }
    ensures { TakesName table.now name.now named.old.items named.new.items result }
{
    let place = table.place(name)?;
    if named[place] {
        return None;
    }
    named[place] = true;
    Some(place)
}

// The places of the ports that the fields after `cycle` name, field by field. `rest` has these fields. The header is
// `cycle` followed by them.
//
// # Errors
//
// Returns `Heading` with the first field that isn't a port's name or repeats an earlier name. Otherwise, if names are
// missing, returns `Heading` with the header's count of fields. Returns `NoMemory` if an allocation fails.
fn take_names(alloc: Global, table: &PortTable, rest: &mut Fields) -> Result<Vec<usize>, TraceFault>
    requires { HasDistinctNames table.now }
    ensures { let header = codes "cycle" ∷ rest.old in
        MatchResult result (λ places. IsHeading table.now header places.items) (IfHeaderFault table.now header) }
{
    let mut places = Vec::new(alloc);
    let mut named = vec![in alloc; false; table.len()]?;
    while let Some(name) = rest.next() {
        let Some(place) = take_name(table, name, &mut named) else {
            return Err(TraceFault::Heading {
                field: places.len() as u64 + 1,
            });
        };
        places.push(place)?;
    }
    if !all_named(&named) {
        return Err(TraceFault::Heading {
            field: places.len() as u64 + 1,
        });
    }
    Ok(places)
}

// The places of the ports that the fields after `cycle` name, as `take_names` returns them. Builds the table.
//
// # Errors
//
// The errors of `take_names`.
fn read_names(alloc: Global, ports: &[Port], rest: &mut Fields) -> Result<Vec<usize>, TraceFault>
    requires { HasDistinctNames ports.now }
    ensures { let header = codes "cycle" ∷ rest.old in
        MatchResult result (λ places. IsHeading ports.now header places.items) (IfHeaderFault ports.now header) }
{
    let table = PortTable::of(alloc, ports)?;
    take_names(alloc, &table, rest)
}

// The places of the ports that the header names after its first field, field by field.
//
// # Errors
//
// Returns `Heading` with the first field that is invalid at its position: the first field has to be `cycle`, and each
// further one the name of a port that wasn't named before. Otherwise, if names are missing, returns `Heading` with the
// count of fields. Returns `NoMemory` if an allocation fails.
pub(crate) fn read_header(
    alloc: Global,
    ports: &[Port],
    line: &[u8],
) -> Result<Vec<usize>, TraceFault>
    requires { HasDistinctNames ports.now }
    ensures { let header = fields line.now in
        MatchResult result (λ places. IsHeading ports.now header places.items) (IfHeaderFault ports.now header) }
{
    let mut rest = Fields::of(line);
    match rest.next() {
        Some(first) if same_bytes(first, b"cycle") => read_names(alloc, ports, &mut rest),
        _ => Err(TraceFault::Heading { field: 0 }),
    }
}
