//! When clauses are left out of a trail.

ghost use Rattle.std.specs.Prelude.{◌≡◌, ◌≤◌, true};

/// How many clauses are learnt before the first clauses are left out, at least.
const FIRST_INTERVAL: u64 = 300;

/// How many more than before are learnt before the next ones are.
const MORE: u64 = 100;

/// The counts of learnt clauses at which clauses are left out that were not used of late: each interval is
/// longer than the one before.
#[derive(Drop)]
pub struct Reductions {
    /// Whether clauses are left out at all.
    pub wanted: bool,
    next: u64,
    interval: u64,
}

impl Reductions {
    /// None were left out, of a formula of so many clauses: a large one waits longer, since all its clauses
    /// are looked at again.
    pub fn new(wanted: bool, count: u64) -> Reductions
        ensures { result.wanted ≡ wanted }
    {
        let interval = FIRST_INTERVAL.max(count / 16);
        Reductions {
            wanted,
            next: interval,
            interval,
        }
    }

    /// Whether clauses are to be left out, where so many were learnt. Then the next interval begins.
    pub fn is_due(&mut self, learnt: u64) -> bool
        ensures wanted { result ≡ true → self.old.wanted ≡ true }
        ensures same { self.new.wanted ≡ self.old.wanted }
    {
        if !self.wanted || learnt < self.next {
            return false;
        }
        self.interval = self.interval.saturating_add(MORE);
        self.next = learnt.saturating_add(self.interval);
        true
    }

    /// Of so many learnt clauses the count from which on a clause was used of late: half an interval ago.
    pub fn from(&self, learnt: u64) -> u64
        ensures { result ≤ learnt }
    {
        learnt.saturating_sub(self.interval / 2)
    }
}
