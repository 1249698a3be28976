//! How many runs are as they should be.

/// How many runs were the same as another one, or as they should be, and how many weren't.
#[derive(Clone, Copy)]
pub struct Tally {
    pub same: usize,
    pub different: usize,
}

impl Tally {
    /// No run yet.
    pub const NONE: Tally = Tally {
        same: 0,
        different: 0,
    };

    /// Counts a run.
    pub fn count(&mut self, is_same: bool) {
        if is_same {
            self.same = self.same.saturating_add(1);
        } else {
            self.different = self.different.saturating_add(1);
        }
    }
}
