//! The analysis of a conflict: it passes the entries of a trail, from the last one on, and finds what is learnt.

ghost use Rattle.std.specs.Prelude.{◌≡◌, ◌==◌, ◌&&◌, ◌+◌, ◌<◌, max, cond, nat_lt, false, true, [], ◌∷◌, ◌++◌, length, Some, None, slice_get, MatchOption, IfSome, OnOk, IfOk};
ghost use Rattle.clause_core.specs.Literals.{negation};
ghost use Rattle.sat_trail.specs.declared.entries.Entry.{Entry};
ghost use Rattle.sat_trail.specs.States.{IsFalseAt};
ghost use Rattle.clause_learning.specs.Levels.{AreNoneFalseBelow};
ghost use Rattle.clause_learning.specs.Trails.{IsUsable};
ghost use Rattle.clause_learning.specs.Units.{AreUnits};
ghost use Rattle.clause_learning.specs.ConflictAnalysis.{is_seen, AreSeen, AreNoneSeen, CanAnalyse, IsSeenAt, IsCleared, TakesPlace, IsAnalysis, IsAnalysed, must_go, MayStay, IsForcing, IsReplaced};

use crate::seen::Seen;
use crate::units::Units;
use base_library::NoMemory;
use clause_core::Literal;
use sat_trail::Trail;
use std::alloc::Global;

/// What an analysis has found so far.
#[derive(Drop)]
pub struct Analysis {
    /// The entries that the analysis is yet to pass and whose opposites are in the clause.
    pub seen: Seen,
    /// The literals of the clause that stay.
    pub kept: Vec<Literal>,
    /// The hints, the last one first.
    pub hints: Vec<u64>,
    /// The largest level below the present one at which a literal that stays is false.
    pub back: u32,
}

impl Analysis {
    /// No analysis has begun.
    pub fn new(alloc: Global, variables: u32) -> Result<Analysis, NoMemory>
        ensures { IfOk result (λ analysis. AreNoneSeen variables analysis.seen) }
    {
        Ok(Analysis {
            seen: Seen::new(alloc, variables)?,
            kept: Vec::new(alloc),
            hints: Vec::new(alloc),
            back: 0,
        })
    }

    /// Analyses a clause that is false, over all entries.
    pub fn run(&mut self, trail: &Trail<'_>, units: &Units, conflict: u32) -> Result<(), NoMemory>
        requires ready { CanAnalyse trail.now units.now self.old.seen }
        requires conflict { IsFalseAt trail.now conflict }
        requires met { AreNoneFalseBelow trail.now trail.now.level }
        ensures { OnOk result (IsAnalysed trail.now self.new) }
    {
        self.begin(trail, conflict)?;
        let mut place = trail.set_count();
        while place > self.seen.lowest {
            place -= 1;
            self.step(trail, units, place)?;
        }
        Ok(())
    }

    /// Begins with a clause that is false.
    fn begin(&mut self, trail: &Trail<'_>, conflict: u32) -> Result<(), NoMemory>
        requires trail { IsUsable trail.now }
        requires conflict { IsFalseAt trail.now conflict }
        requires met { AreNoneFalseBelow trail.now trail.now.level }
        requires seen { AreNoneSeen trail.now.variables self.old.seen }
        ensures { OnOk result (IsAnalysis trail.now (length trail.now.entries) self.new) }
    {
        self.kept.clear();
        self.hints.clear();
        self.back = 0;
        self.seen.begin();
        self.seen.see_clause(trail, conflict)?;
        self.hints.push(u64::from(conflict) + 1)?;
        Ok(())
    }

    /// Passes an entry.
    fn step(&mut self, trail: &Trail<'_>, units: &Units, place: u32) -> Result<(), NoMemory>
        requires trail { IsUsable trail.now }
        requires units { AreUnits trail.now units.now }
        requires within { place < length trail.now.entries }
        requires analysis { IsAnalysis trail.now (place + 1) self.old }
        ensures { OnOk result (IsAnalysis trail.now place self.new) }
    {
        if self.seen.is_seen(place) {
            self.pass(trail, units, place)
        } else {
            Ok(())
        }
    }

    /// Passes a seen entry: its reason takes its place in the clause, or the opposite of its literal stays.
    fn pass(&mut self, trail: &Trail<'_>, units: &Units, place: u32) -> Result<(), NoMemory>
        requires trail { IsUsable trail.now }
        requires units { AreUnits trail.now units.now }
        requires within { place < length trail.now.entries }
        requires here { is_seen self.old.seen place ≡ true }
        requires analysis { IsAnalysis trail.now (place + 1) self.old }
        ensures { OnOk result (IsAnalysis trail.now place self.new) }
    {
        match self.replacement(trail, units, place) {
            Some(reason) => self.replace(trail, place, reason),
            None => self.keep(trail, place),
        }
    }

    /// The number of the clause that takes an entry's place; none where its literal's opposite stays.
    fn replacement(&self, trail: &Trail<'_>, units: &Units, place: u32) -> Option<u32>
        requires trail { IsUsable trail.now }
        requires units { AreUnits trail.now units.now }
        requires within { place < length trail.now.entries }
        requires seen { AreSeen trail.now self.now.seen }
        ensures { (entry : Entry) → slice_get trail.now.entries place ≡ Some entry → MatchOption result
            (MayStay trail.now.level self.now.seen.waiting entry) (IsReplaced trail.now.clauses trail.now.level self.now.seen.waiting entry) }
    {
        let level = trail.level_at(place);
        if level == 0 {
            return start_reason(trail, units, place);
        }
        if self.must_go(trail, level) {
            return trail.reason_at(place);
        }
        if level == trail.level() {
            return None;
        }
        self.covered_reason(trail, place)
    }

    /// Whether the reason of an entry of this level, above 0, must take its place.
    fn must_go(&self, trail: &Trail<'_>, level: u32) -> bool
        requires { trail.now.broken ≡ false }
        ensures { result ≡ must_go trail.now.level self.now.seen.waiting level }
    {
        level == trail.level() && self.seen.is_crowded()
    }

    /// The number of an entry's reason, where the entries of its variables are seen or of level 0: the
    /// clause is shorter then.
    fn covered_reason(&self, trail: &Trail<'_>, place: u32) -> Option<u32>
        requires trail { IsUsable trail.now }
        requires within { place < length trail.now.entries }
        requires seen { AreSeen trail.now self.now.seen }
        ensures { (entry : Entry) → slice_get trail.now.entries place ≡ Some entry → IfSome result (λ reason. entry.reason ≡ Some reason) }
    {
        let reason = trail.reason_at(place)?;
        if self.seen.covers(trail, reason) {
            Some(reason)
        } else {
            None
        }
    }

    /// The reason takes the place of an entry.
    fn replace(&mut self, trail: &Trail<'_>, place: u32, reason: u32) -> Result<(), NoMemory>
        requires trail { IsUsable trail.now }
        requires given { reason < length trail.now.clauses }
        requires entry { IsSeenAt trail.now place self.old.seen }
        ensures replaced { OnOk result (TakesPlace trail.now place reason self.old self.new) }
        ensures rest { self.new ≡ record self.old { seen = self.new.seen; hints = self.new.hints } }
    {
        self.seen.see_clause(trail, reason)?;
        self.seen.clear(trail, place);
        self.hints.push(u64::from(reason) + 1)?;
        Ok(())
    }

    /// The opposite of an entry's literal stays in the clause.
    fn keep(&mut self, trail: &Trail<'_>, place: u32) -> Result<(), NoMemory>
        requires trail { IsUsable trail.now }
        requires entry { IsSeenAt trail.now place self.old.seen }
        ensures cleared { IsCleared trail.now place self.old.seen self.new.seen }
        ensures kept { (entry : Entry) → slice_get trail.now.entries place ≡ Some entry →
            OnOk result (self.new.kept.items ≡ self.old.kept.items ++ negation entry.literal ∷ []) }
        ensures back { (entry : Entry) → slice_get trail.now.entries place ≡ Some entry →
            self.new.back ≡ cond (nat_lt entry.level trail.now.level) (max self.old.back entry.level) self.old.back }
        ensures rest { self.new ≡ record self.old { seen = self.new.seen; kept = self.new.kept; back = self.new.back } }
    {
        self.seen.clear(trail, place);
        let level = trail.level_at(place);
        if level < trail.level() {
            self.back = self.back.max(level);
        }
        self.kept.push(trail.set_at(place).negated())?;
        Ok(())
    }
}

/// Of an entry of level 0 the number of a clause that has its literal alone, or else of its reason.
fn start_reason(trail: &Trail<'_>, units: &Units, place: u32) -> Option<u32>
    requires trail { IsUsable trail.now }
    requires units { AreUnits trail.now units.now }
    requires within { place < length trail.now.entries }
    ensures { (entry : Entry) → slice_get trail.now.entries place ≡ Some entry → MatchOption result (entry.reason ≡ None) (IsForcing trail.now.clauses entry) }
{
    match units.number_of(trail, trail.set_at(place)) {
        Some(number) => Some(number),
        None => trail.reason_at(place),
    }
}
