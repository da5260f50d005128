//! The fold of a demo's rows.
ghost use Rattle.std.specs.Prelude.{◌≡◌, ℕ, suc, List, slice_index};

/// The fold of a demo's rows: the last values of y and z, and the exclusive or of all values of each. Before the first row all are 0.
#[derive(Clone, Copy)]
pub struct Fold {
    /// The last value of y.
    pub last_y: u128,
    /// The last value of z.
    pub last_z: u128,
    /// The exclusive or of all values of y.
    pub all_y: u128,
    /// The exclusive or of all values of z.
    pub all_z: u128,
}

impl Fold {
    ghost use Rattle.gg_rows.specs.inside.Folded.{IsFolded};

    /// The fold of no row.
    pub fn new() -> Fold
        ensures { (ys zs : List ℕ) → IsFolded ys zs 0 result }
    {
        Fold {
            last_y: 0,
            last_z: 0,
            all_y: 0,
            all_z: 0,
        }
    }

    /// Adds a row, which is the next one of the columns.
    pub fn add(&mut self, y: u128, z: u128)
        ensures { (ys zs : List ℕ) (n : ℕ) → IsFolded ys zs n self.old → y ≡ slice_index ys n → z ≡ slice_index zs n → IsFolded ys zs (suc n) self.new }
    {
        self.last_y = y;
        self.last_z = z;
        self.all_y ^= y;
        self.all_z ^= z;
    }
}
