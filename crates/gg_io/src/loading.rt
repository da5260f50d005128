//! Loading of a file.
ghost use Rattle.std.specs.Prelude.{◌-◌, ◌^◌, ◌<◌, ◌≤◌, IfOk, IfErr, length};
ghost use Rattle.gg_io.specs.Count.{Rose};
ghost use Rattle.gg_io.specs.Told.{CanHold};
ghost use Rattle.gg_io.specs.inside.Endings.{IfRefused};
ghost use Rattle.gg_io.specs.Order.{LoadReports};
ghost use Rattle.gg_io.specs.WentOn.{ShelfWentOn};

use crate::endings::{Ending, end_cannot_load, end_over};
use crate::{LoadFail, Shelf};
use std::alloc::Global;

/// The bytes of a file, at most `limit` of them.
///
/// # Errors
///
/// Returns what is reported: a refusal if the file can't be loaded (status 3) or is longer than `limit` (status 8), or
/// `NoMemory` if an allocation fails.
pub fn load<S: Shelf>(
    alloc: Global,
    shelf: &mut S,
    name: &str,
    limit: u64,
) -> Result<Vec<u8>, Ending>
    requires { limit < 2 ^ 64 - 1 }
    ensures within { IfOk result (λ bytes. length bytes.items ≤ limit) }
    ensures held { IfOk result (λ bytes. CanHold (S.files shelf.old name.now) bytes.items) }
    ensures refused { IfErr result (IfRefused (LoadReports (S.files shelf.old name.now)
        (Rose (S.faults shelf.old name.now) (S.faults shelf.new name.now)) (Rose (S.cuts shelf.old name.now) (S.cuts shelf.new name.now))
        name.now limit)) }
    ensures shelf { ShelfWentOn S.Shelf shelf.old shelf.new }
{
    match shelf.load(alloc, name, limit) {
        Ok(bytes) => Ok(bytes),
        Err(LoadFail::Failed) => Err(end_cannot_load(alloc, name)),
        Err(LoadFail::TooLong { .. }) => Err(end_over(alloc, name, limit)),
        Err(LoadFail::NoMemory) => Err(Ending::NoMemory),
    }
}
