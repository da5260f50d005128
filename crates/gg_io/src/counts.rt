//! Counts of what went wrong.
ghost use Rattle.std.specs.Prelude.{◌≡◌, ◌≤◌};
ghost use Rattle.gg_io.specs.Count.{risen};

// One more, unless the count is at the maximum of its type: then it stays the same.
pub(crate) fn raise(count: &mut u64)
    ensures risen { count.new ≡ risen count.old }
    ensures stays_or_rises { count.old ≤ count.new }
{
    *count = count.saturating_add(1);
}
