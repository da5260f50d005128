//! `Rows`: an action on each row of a run.
ghost use Rattle.std.specs.Prelude.{ℕ, ◌≤◌, List, Bool, Result, length};
ghost use Rattle.gg_bits.specs.Limits.{cycle_limit};
ghost use Rattle.gg_io.specs.declared.endings.Ending.{Ending};

use gg_io::Ending;

/// An action on each row of a run, one after another. Each row changes a value of type T, the result of the rows so far.
pub trait Rows<T> {
    // Whether it can take rows of this many values.
    ghost can_take: { Self → ℕ → Type 0 };

    // The taking of a row: the value before, the cycle, the row, the value after, and the answer.
    ghost takes: { Self → T → ℕ → List ℕ → T → Result Bool Ending → Type 0 };

    /// Takes the row of a cycle, which is at most 1,000,000. Returns whether to go on with the next one.
    ///
    /// # Errors
    ///
    /// Returns why the row couldn't be taken.
    fn take(&self, taken: &mut T, cycle: u64, values: &[u128]) -> Result<bool, Ending>
        requires within { cycle ≤ cycle_limit }
        requires can { can_take self.now (length values.now) }
        ensures { takes self.now taken.old cycle values.now taken.new result };
}
