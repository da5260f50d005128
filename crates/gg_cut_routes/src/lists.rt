//! Lists that grow at the end.
ghost use Rattle.std.specs.Prelude.{◌≡◌, [], ◌∷◌, ◌++◌, if◌then◌else◌, OnOk};
ghost use Rattle.std.specs.Option.{option_to_list};

use std::alloc::AllocError;

// Adds a number at the end, if it is chosen.
//
// # Errors
//
// Returns `AllocError` if an allocation fails.
pub(crate) fn push_if(found: &mut Vec<u32>, number: u32, chosen: bool) -> Result<(), AllocError>
    ensures { OnOk result (found.new.items ≡ found.old.items ++ (if chosen then number ∷ [] else [])) }
{
    if chosen {
        found.push(number)?;
    }
    Ok(())
}

// Adds a number at the end, if there is one.
//
// # Errors
//
// Returns `AllocError` if an allocation fails.
pub(crate) fn push_some(found: &mut Vec<u32>, number: Option<u32>) -> Result<(), AllocError>
    ensures { OnOk result (found.new.items ≡ found.old.items ++ option_to_list number) }
{
    if let Some(number) = number {
        found.push(number)?;
    }
    Ok(())
}
