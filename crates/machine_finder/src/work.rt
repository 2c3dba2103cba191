//! How much work is left.

/// The steps that a search may still take.
#[derive(Drop)]
pub(crate) struct Work {
    left: u64,
}

impl Work {
    /// So many steps.
    pub(crate) fn new(steps: u64) -> Work {
        Work { left: steps }
    }

    /// Takes so many steps off.
    pub(crate) fn take(&mut self, steps: u64) {
        self.left = self.left.saturating_sub(steps);
    }

    /// How many are left.
    pub(crate) fn left(&self) -> u64 {
        self.left
    }

    /// Whether none is left.
    pub(crate) fn is_spent(&self) -> bool {
        self.left == 0
    }
}
