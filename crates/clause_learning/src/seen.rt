//! The entries of a trail that an analysis has seen.

ghost use Rattle.std.specs.Prelude.{◌≡◌, ◌==◌, ◌||◌, ℕ, ◌<◌, All, true, false, nat_lt, List, length, Some, slice_get, IfOk, OnOk};
ghost use Rattle.clause_core.specs.Literals.{Lit};
ghost use Rattle.sat_trail.specs.declared.entries.Entry.{Entry};
ghost use Rattle.sat_trail.specs.Entries.{place_of};
ghost use Rattle.sat_trail.specs.States.{TrailState};
ghost use Rattle.clause_learning.specs.Trails.{IsUsable};
ghost use Rattle.clause_learning.specs.ConflictAnalysis.{is_seen, AreSeen, AreNoneSeen, IsSeenAt, IsCleared, stands_at, is_of_clause, is_covered_at, are_covered};

use base_library::NoMemory;
use clause_core::Literal;
use sat_trail::Trail;
use std::alloc::Global;

/// Which entries of a trail are seen.
#[derive(Drop)]
pub struct Seen {
    /// For each place whether its entry is seen.
    flags: Vec<bool>,
    /// No entry before this place is seen.
    pub lowest: u32,
    /// How many seen entries are of the present level.
    pub waiting: u32,
    /// The variables, by their indices, of the entries above level 0 that were seen.
    pub looked: Vec<u32>,
}

impl Seen {
    /// No entry is seen of as many as there are variables.
    pub fn new(alloc: Global, variables: u32) -> Result<Seen, NoMemory>
        ensures { IfOk result (AreNoneSeen variables) }
    {
        Ok(Seen {
            flags: vec![in alloc; false; variables as usize]?,
            lowest: u32::MAX,
            waiting: 0,
            looked: Vec::new(alloc),
        })
    }

    /// Begins with no entry seen.
    pub fn begin(&mut self)
        ensures same { (place : ℕ) → is_seen self.new place ≡ is_seen self.old place }
        ensures seen { (t : TrailState) → AreNoneSeen t.variables self.old → AreSeen t self.new }
    {
        self.lowest = u32::MAX;
        self.waiting = 0;
        self.looked.clear();
    }

    /// Whether the entry at a place is seen.
    pub fn is_seen(&self, place: u32) -> bool
        requires { place < length self.now.flags.items }
        ensures { result ≡ is_seen self.now place }
    {
        self.flags[place as usize]
    }

    /// Whether more than one entry of the present level is seen.
    pub fn is_crowded(&self) -> bool
        ensures { result ≡ nat_lt 1 self.now.waiting }
    {
        self.waiting > 1
    }

    /// Sees the entries of a clause's variables.
    pub fn see_clause(&mut self, trail: &Trail<'_>, number: u32) -> Result<(), NoMemory>
        requires trail { IsUsable trail.now }
        requires given { number < length trail.now.clauses }
        requires seen { AreSeen trail.now self.old }
        ensures entries_seen { OnOk result ((clause : List Lit) → slice_get trail.now.clauses number ≡ Some clause →
            (place : ℕ) → is_seen self.new place ≡ (is_seen self.old place || is_of_clause trail.now.entries clause place)) }
        ensures seen { OnOk result (AreSeen trail.now self.new) }
    {
        for literal in trail.clause(number) {
            self.see(trail, *literal)?;
        }
        Ok(())
    }

    /// Whether the entry of each variable of a clause is seen, or of level 0.
    pub fn covers(&self, trail: &Trail<'_>, number: u32) -> bool
        requires trail { IsUsable trail.now }
        requires given { number < length trail.now.clauses }
        requires seen { AreSeen trail.now self.now }
        ensures { (clause : List Lit) → slice_get trail.now.clauses number ≡ Some clause →
            result ≡ are_covered trail.now.entries self.now clause }
    {
        for literal in trail.clause(number) {
            if !self.is_covered(trail, *literal) {
                return false;
            }
        }
        true
    }

    /// Whether the entry of a literal's variable is seen, or of level 0.
    fn is_covered(&self, trail: &Trail<'_>, literal: Literal) -> bool
        requires trail { IsUsable trail.now }
        requires over { literal.index < trail.now.variables }
        requires seen { AreSeen trail.now self.now }
        ensures { result ≡ is_covered_at trail.now.entries self.now (place_of trail.now.entries literal.index) }
    {
        match trail.set_place(literal.variable()) {
            None => false,
            Some(place) => self.is_seen(place) || trail.level_at(place) == 0,
        }
    }

    /// The entry at a place is seen no more.
    pub fn clear(&mut self, trail: &Trail<'_>, place: u32)
        requires trail { IsUsable trail.now }
        requires entry { IsSeenAt trail.now place self.old }
        ensures { IsCleared trail.now place self.old self.new }
    {
        self.flags[place as usize] = false;
        self.waiting -= u32::from(is_present(trail, place));
    }

    /// Sees the entry of a literal's variable.
    fn see(&mut self, trail: &Trail<'_>, literal: Literal) -> Result<(), NoMemory>
        requires trail { IsUsable trail.now }
        requires over { literal.index < trail.now.variables }
        requires seen { AreSeen trail.now self.old }
        ensures entries_seen { OnOk result ((place : ℕ) → is_seen self.new place ≡ (is_seen self.old place || stands_at (place_of trail.now.entries literal.index) place)) }
        ensures seen { OnOk result (AreSeen trail.now self.new) }
    {
        let Some(place) = trail.set_place(literal.variable()) else {
            return Ok(());
        };
        if self.is_seen(place) {
            return Ok(());
        }
        self.flags[place as usize] = true;
        self.lowest = self.lowest.min(place);
        self.waiting += u32::from(is_present(trail, place));
        self.note(trail, literal.variable() - 1, place)
    }

    /// Notes the variable of a seen entry, if that is above level 0.
    fn note(&mut self, trail: &Trail<'_>, variable: u32, place: u32) -> Result<(), NoMemory>
        requires usable { trail.now.broken ≡ false }
        requires within { place < length trail.now.entries }
        requires over { variable < trail.now.variables }
        requires looked { All (λ other. other < trail.now.variables) self.old.looked.items }
        ensures looked { OnOk result (All (λ other. other < trail.now.variables) self.new.looked.items) }
        ensures rest { self.new ≡ record self.old { looked = self.new.looked } }
    {
        if trail.level_at(place) > 0 {
            self.looked.push(variable)?;
        }
        Ok(())
    }
}

/// Whether the entry at a place is of the present level.
fn is_present(trail: &Trail<'_>, place: u32) -> bool
    requires usable { trail.now.broken ≡ false }
    requires within { place < length trail.now.entries }
    ensures { (entry : Entry) → slice_get trail.now.entries place ≡ Some entry → result ≡ (entry.level == trail.now.level) }
{
    trail.level_at(place) == trail.level()
}
