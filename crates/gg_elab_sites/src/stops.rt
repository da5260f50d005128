//! The stops of a module.
ghost use Rattle.std.specs.Prelude.{◌≡◌, ◌<◌, ◌+◌, ◌^◌, ◌++◌, map, length, option_to_list, IfOk};
ghost use Rattle.gg_elab_sites.specs.Signals.{numbered, own_stops, stop_name as name_of_stop, stop_of_kind};
ghost use Rattle.gg_elab_sites.specs.inside.Views.{own_stop_of};

use gg_ast::{Expr, Stmt, StmtKind};
use gg_bits::Name;
use std::alloc::{AllocError, Global};

/// A stop of a module: its name, and what is written for its clock and its condition.
pub struct OwnStop<'a> {
    pub name: Name,
    pub clock: &'a Expr,
    pub condition: &'a Expr,
}

impl Drop for OwnStop<'_> {
    fn drop(self) {
        let Self {
            name,
            clock: _,
            condition: _,
        } = self;
        drop(name);
    }
}

// The name of the stop of this number.
fn stop_name(alloc: Global, number: u32) -> Result<Name, AllocError>
    ensures { IfOk result (λ name. name ≡ name_of_stop number) }
{
    let text = format!(in alloc; "stop:{number}")?;
    Ok(Name::from(text))
}

// Adds the stop of a statement, if it makes one, under this number. Returns the number of the next stop, or `AllocError`
// for more than 4,294,967,295.
fn add_stop<'a>(
    alloc: Global,
    stops: &mut Vec<OwnStop<'a>>,
    number: u32,
    kind: &'a StmtKind,
) -> Result<u32, AllocError>
    ensures stops { IfOk result (λ _. map own_stop_of stops.new.items ≡ map own_stop_of stops.old.items ++ numbered number (option_to_list (stop_of_kind kind.now))) }
    ensures next { IfOk result (λ next. next ≡ number + length (option_to_list (stop_of_kind kind.now))) }
    ensures few { IfOk result (λ next. next < 2 ^ 32) }
{
    match kind {
        StmtKind::Stop {
            clock,
            condition,
            ..
        } => {
            if number == u32::MAX {
                return Err(AllocError);
            }
            let name = stop_name(alloc, number)?;
            stops.reserve(1)?;
            stops.push_reserved(OwnStop {
                name,
                clock,
                condition,
            });
            Ok(number + 1)
        }
        _ => Ok(number),
    }
}

// The stops of these statements, numbered in the order of the file.
pub(crate) fn stops<'a>(
    alloc: Global,
    statements: &'a [Stmt],
) -> Result<Vec<OwnStop<'a>>, AllocError>
    ensures stops { IfOk result (λ stops. map own_stop_of stops.items ≡ own_stops statements.now) }
    ensures few { IfOk result (λ stops. length stops.items < 2 ^ 32) }
{
    let mut stops = Vec::new(alloc);
    let mut number = 0u32;
    for statement in statements {
        number = add_stop(alloc, &mut stops, number, &statement.kind)?;
    }
    Ok(stops)
}
