//! The latches of a machine's ins and the flags of its outs, as a host keeps them.
ghost use Rattle.std.specs.Prelude.{◌≡◌, ◌<◌, All, None, false, length, replicate, IfOk};
ghost use Rattle.gg_node.specs.Machine.{first_empty};

use std::alloc::{AllocError, Global};

/// A list with `count` empty latches.
///
/// # Errors
///
/// Returns `AllocError` if an allocation fails.
pub fn empty_latches(alloc: Global, count: usize) -> Result<Vec<Option<u128>>, AllocError>
    ensures { IfOk result (λ latches. latches.items ≡ replicate count None) }
{
    vec![in alloc; None; count]
}

/// A list with `count` clear flags.
///
/// # Errors
///
/// Returns `AllocError` if an allocation fails.
pub fn clear_flags(alloc: Global, count: usize) -> Result<Vec<bool>, AllocError>
    ensures { IfOk result (λ flags. flags.items ≡ replicate count false) }
{
    vec![in alloc; false; count]
}

/// The first of these ins with an empty latch, if there is one.
pub fn first_empty(latches: &[Option<u128>], ins: &[u32]) -> Option<u32>
    requires { All (λ i. i < length latches.now) ins.now }
    ensures { result ≡ first_empty latches.now ins.now }
{
    for i in ins {
        if latches[*i as usize].is_none() {
            return Some(*i);
        }
    }
    None
}

/// Empties all latches and clears all flags.
pub fn clean(latches: &mut Vec<Option<u128>>, flags: &mut Vec<bool>)
    ensures latches { latches.new.items ≡ replicate (length latches.old.items) None }
    ensures flags { flags.new.items ≡ replicate (length flags.old.items) false }
{
    latches.fill(None);
    flags.fill(false);
}
