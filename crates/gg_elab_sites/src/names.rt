//! Names with dots between them.
ghost use Rattle.std.specs.Prelude.{◌≡◌, IfOk};
ghost use Rattle.gg_flat_tree.specs.Tree.{joined as joined_text};
ghost use Rattle.gg_elab_sites.specs.Signals.{dotted as dotted_text, field_name as field_text};

use gg_bits::Name;
use std::alloc::{AllocError, Global};

/// Two names with a dot between them.
///
/// # Errors
///
/// Returns `AllocError` if an allocation fails.
pub fn dotted(alloc: Global, a: &str, b: &str) -> Result<Name, AllocError>
    ensures { IfOk result (λ name. name ≡ dotted_text a.now b.now) }
{
    let mut text = String::from_str(alloc, a)?;
    text.push_str(".")?;
    text.push_str(b)?;
    Ok(Name::from(text))
}

/// A path followed by a name, with a dot between them if the path isn't empty.
///
/// # Errors
///
/// Returns `AllocError` if an allocation fails.
pub fn joined(alloc: Global, outer: &Name, name: &Name) -> Result<Name, AllocError>
    ensures { IfOk result (λ path. path ≡ joined_text outer.now name.now) }
{
    match outer.as_bytes() {
        [] => name.clone(),
        [_, ..] => dotted(alloc, outer.as_str(), name.as_str()),
    }
}

/// A field of a memory's port, as it is written.
///
/// # Errors
///
/// Returns `AllocError` if an allocation fails.
pub fn field_name(
    alloc: Global,
    memory: &Name,
    port: &Name,
    field: &str,
) -> Result<Name, AllocError>
    ensures { IfOk result (λ name. name ≡ field_text memory.now port.now field.now) }
{
    let inner = dotted(alloc, port.as_str(), field)?;
    dotted(alloc, memory.as_str(), inner.as_str())
}
