//! When the search begins anew.

ghost use Rattle.std.specs.Prelude.{◌≡◌, ◌+◌, ◌/◌, ◌*◌, ◌<◌, ◌≤◌, ◌^◌, ◌==◌, cond};

/// The counts of learnt clauses at which the search goes back to level 0: 64 at first, and each next one
/// is the count before plus half of it, rounded down.
#[derive(Drop)]
pub struct Restarts {
    next: u64,
}

impl Restarts {
    /// None has come.
    pub fn new() -> Restarts
        ensures { result.next ≡ 64 }
    {
        Restarts { next: 64 }
    }

    /// Whether so many learnt clauses are the next count. Then it counts as come.
    pub fn is_due(&mut self, learnt: u64) -> bool
        requires { learnt < 2 ^ 32 }
        ensures due { result ≡ (learnt == self.old.next) }
        ensures next { self.new.next ≡ cond (learnt == self.old.next) (self.old.next + self.old.next / 2) self.old.next }
    {
        if learnt != self.next {
            return false;
        }
        self.next += self.next / 2;
        true
    }
}
