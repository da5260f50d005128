//! The signal that a reference names.
ghost use Rattle.std.specs.Prelude.{◌≡◌, IfOk};
ghost use Rattle.gg_elab_sites.specs.Meaning.{named};
ghost use Rattle.gg_elab.specs.inside.Growing.{context_of};

use crate::scope::Scope;
use gg_ast::Reference;
use gg_elab_sites::{joined, value_type};
use gg_shape_names::written;
use std::alloc::{AllocError, Global};

// The signal that a reference names, by its number.
pub(crate) fn find(
    alloc: Global,
    scope: &Scope,
    reference: &Reference,
) -> Result<Option<u32>, AllocError>
    ensures { IfOk result (λ found. found ≡ named (context_of scope.now) reference.now) }
{
    if value_type(scope.typed, scope.number, reference).is_none() {
        return Ok(None);
    }
    let name = written(alloc, reference)?;
    let path = joined(alloc, scope.path, &name)?;
    // for the invariant only
    let _ = scope.table.paths.len();
    Ok(scope.table.paths.find(&path))
}
