//! Unit propagation by two watched literals a clause.

ghost use Rattle.std.specs.Prelude.{◌≡◌, ℕ, ◌+◌, ◌-◌, ◌*◌, ◌<◌, ◌≤◌, ◌^◌, ◌&&◌, not, min, cond, nat_lt, true, false, length, List, [], ◌∷◌, ◌++◌, Option, Some, None, IfOk, OnOk, MatchOption, slice_get};
ghost use Rattle.std.specs.Option.{unwrap_or};
ghost use Rattle.clause_core.specs.Literals.{Lit, negation, same, has, code_of};
ghost use Rattle.clause_core.specs.Clauses.{IsOver};
ghost use Rattle.sat_trail.specs.declared.entries.Entry.{Entry};
ghost use Rattle.sat_trail.specs.Entries.{literals_of, place_of};
ghost use Rattle.sat_trail.specs.States.{TrailState, IsSound, Propagates, IsFalseAt, EndsWith};
ghost use Rattle.sat_trail.specs.internal.Watching.{HasList, TakesOut, RenewsBlocker, AddsWatch, Attaches, RenewsWatch, DropsWatch, IsOf};
ghost use Rattle.sat_trail.specs.internal.Watching.{IsPairIn, IsNextPair, AreWatched, AreDue, AreOthersFalse, CanForce, CanWatch};
ghost use Rattle.sat_trail.specs.internal.Watching.{IsOpenBy, HasStatus, IsPair, HasNoMore, IsFirstFree, AreFalseBefore, AreAllBefore, IsOther, IsFree};
ghost use Rattle.sat_trail.specs.internal.Watching.{AreFalseBetween, IsNextWaiting, IsOpenAt, IsWatchedBy, SetsAside, Releases, left_of};
ghost use Rattle.sat_trail.specs.internal.Watching.{LeavesSome, LooksAtOne, MayPropagate, PropagatesWatched, GoesBack, StaysAt, Rewatches};
ghost use Rattle.sat_trail.specs.internal.Watching.{IsVisiting, Visits, IsUnitBy};

use crate::stack::Stack;
use base_library::NoMemory;
use clause_core::{ClauseList, Literal};
use std::alloc::Global;
use std::marker::Model;

/// A clause that watches a literal, and another literal of it: while that one is true, the clause need
/// not be read.
#[derive(Clone, Copy)]
pub struct Watch {
    /// The number of the clause.
    pub clause: u32,
    /// The other literal.
    pub blocker: Literal,
}

/// The watches of one literal. A contract sees them as a list.
#[derive(Drop)]
pub struct WatchList {
    watches: Vec<Watch>,
}

impl Model for WatchList {
    ghost use Rattle.std.specs.Prelude.{List};
    ghost use Rattle.sat_trail.specs.declared.watches.Watch.{Watch};

    ghost Value = { List Watch };

    ghost view = { λ list. list.watches.items };
}

impl WatchList {
    /// No clause watches the literal; there is room for so many.
    fn with_room(alloc: Global, count: usize) -> Result<WatchList, NoMemory>
        ensures { IfOk result (λ list. list ≡ []) }
    {
        let watches = Vec::with_capacity(alloc, count)?;
        Ok(WatchList { watches })
    }

    /// How many watches there are.
    fn len(&self) -> usize
        ensures { result ≡ length self.now }
    {
        self.watches.len()
    }

    /// The watch at an index.
    fn get(&self, index: usize) -> Watch
        requires { index < length self.now }
        ensures { slice_get self.now index ≡ Some result }
    {
        self.watches[index]
    }

    /// Adds a watch at the end.
    fn push(&mut self, watch: Watch) -> Result<(), NoMemory>
        ensures { OnOk result (self.new ≡ self.old ++ watch ∷ []) }
    {
        self.watches.push(watch)?;
        Ok(())
    }

    /// Gives the watch at an index another blocker.
    fn renew(&mut self, index: usize, blocker: Literal)
        requires { index < length self.old }
        ensures { RenewsBlocker self.old index blocker self.new }
    {
        self.watches[index].blocker = blocker;
    }

    /// Takes the watch at an index out: the last one takes its place.
    fn take_out(&mut self, index: usize)
        requires { index < length self.old }
        ensures { TakesOut self.old index self.new }
    {
        let _ = self.watches.swap_remove(index);
    }
}

/// The two literals that a clause watches, and a third one that is tried first where another one is looked for.
#[derive(Clone, Copy)]
pub struct Pair {
    /// One of the literals.
    pub first: Literal,
    /// The other one.
    pub second: Literal,
    /// A literal of the clause, which is tried before the clause is read: the one that was watched before the
    /// last move. In a clause of three literals it is the third one, unless one was false when the clause was taken in.
    pub spare: Literal,
}

impl Pair {
    /// The literal of the pair that is not this one.
    fn other(&self, literal: Literal) -> Literal
        ensures of { IsOf self.now result }
        ensures apart { (self.now.first ≡ self.now.second → ⊥) → result ≡ literal → ⊥ }
    {
        if self.first == literal {
            self.second
        } else {
            self.first
        }
    }

    /// Whether the literal is one of the pair.
    fn is_of(&self, literal: Literal) -> bool
        ensures { result ≡ true → IsOf self.now literal }
    {
        self.first == literal || self.second == literal
    }
}

/// The pair of a clause, or none: then its two literals are the same. So it takes no more memory than a pair. A
/// contract sees an option.
#[derive(Drop)]
pub struct PairSlot {
    pair: Pair,
}

impl Model for PairSlot {
    ghost use Rattle.std.specs.Prelude.{Option, Some, None, cond};
    ghost use Rattle.clause_core.specs.Literals.{same};
    ghost use Rattle.sat_trail.specs.declared.watches.Pair.{Pair};

    ghost Value = { Option Pair };

    ghost view = { λ slot. cond (same slot.pair.first slot.pair.second) None (Some slot.pair) };
}

impl PairSlot {
    /// No pair.
    #[tactic(auto, using(crate::proofs::PairSlots::empty_slot))]
    fn none() -> PairSlot
        ensures { result ≡ None }
    {
        let literal = Literal::default();
        PairSlot {
            pair: Pair {
                first: literal,
                second: literal,
                spare: literal,
            },
        }
    }

    /// A pair.
    #[tactic(auto, using(crate::proofs::PairSlots::full_slot))]
    fn of(pair: Pair) -> PairSlot
        requires { pair.first ≡ pair.second → ⊥ }
        ensures { result ≡ Some pair }
    {
        PairSlot { pair }
    }

    /// The pair, if there is one.
    #[tactic(auto, using(crate::proofs::PairSlots::empty_slot, crate::proofs::PairSlots::full_slot))]
    fn read(&self) -> Option<Pair>
        ensures { result ≡ self.now }
    {
        if self.pair.first == self.pair.second {
            None
        } else {
            Some(self.pair)
        }
    }
}

/// A clause that waits to be looked at, or is set aside until a level is taken back: some literal of it is
/// true, but was set above the level at which the clause came to be unit.
#[derive(Clone, Copy)]
pub struct Aside {
    /// The number of the clause.
    pub clause: u32,
    /// The level at which it was set aside.
    pub level: u32,
}

/// What a clause is while literals are set.
#[derive(Clone, Copy)]
pub enum Status {
    /// All its literals are false.
    Conflict,
    /// All but this one are false.
    Unit(Literal),
    /// These two are not false.
    Open(Literal, Literal),
}

/// Which literals each clause watches, and how far propagation has come.
#[derive(Drop)]
pub struct Watches {
    /// The watches of each literal, by its code.
    pub lists: Vec<WatchList>,
    /// The pair of each clause that was taken in; none of a clause of one literal.
    pub pairs: Vec<PairSlot>,
    /// The clauses that are set aside, their levels rising, and behind them those that wait to be looked at.
    pub asides: Vec<Aside>,
    /// How many clauses are set aside.
    pub held: usize,
    /// The entries from this place on are to be visited.
    pub head: u32,
    /// The entries from this place on may have been visited at a level above their own.
    pub low: u32,
}

impl Watches {
    /// No clause is taken in, and no entry visited; there is room for what these clauses watch first.
    pub fn new(alloc: Global, variables: u32, clauses: &ClauseList) -> Result<Watches, NoMemory>
        requires { variables < 2 ^ 31 }
        ensures { IfOk result (λ watches. (t : TrailState) → t.variables ≡ variables → AreWatched t watches) }
    {
        let count = 2 * variables;
        let counts = watch_counts(alloc, count, clauses)?;
        let mut lists = Vec::with_capacity(alloc, count as usize)?;
        for code in 0..count {
            let room = count_at(counts.as_slice(), code);
            lists.push(WatchList::with_room(alloc, room)?)?;
        }
        Ok(Watches {
            lists,
            pairs: Vec::with_capacity(alloc, clauses.len())?,
            asides: Vec::new(alloc),
            held: 0,
            head: 0,
            low: u32::MAX,
        })
    }

    /// Goes back to a level, with so many entries left: what was set aside above that level waits to be looked
    /// at, and what an undo may have touched is visited again.
    pub fn undo(&mut self, level: u32, count: u32)
        requires { self.old.held ≤ length self.old.asides.items }
        ensures { GoesBack level count self.old self.new }
    {
        while self.held > 0 && self.asides[self.held - 1].level > level {
            self.held -= 1;
        }
        self.head = self.head.min(self.low).min(count);
        self.low = u32::MAX;
    }

    /// Propagates until no clause is unit or a clause is false: then it answers that clause's number.
    pub fn propagate(&mut self, stack: &mut Stack<'_>) -> Result<Option<u32>, NoMemory>
        requires ready { MayPropagate stack.old self.old }
        ensures grows { OnOk result (PropagatesWatched stack.old stack.new self.new) }
        ensures ends { IfOk result (λ answer. EndsWith answer stack.new) }
        ensures sound { IsSound stack.new }
    {
        while self.take_in(stack)? {
            let conflict = self.look(stack)?;
            if conflict.is_some() {
                return Ok(conflict);
            }
        }
        while self.head < stack.set_count() {
            let conflict = self.visit_entry(stack)?;
            if conflict.is_some() {
                return Ok(conflict);
            }
        }
        Ok(None)
    }

    /// Takes clauses in until one waits, and answers whether one does.
    fn take_in(&mut self, stack: &Stack<'_>) -> Result<bool, NoMemory>
        requires ready { MayPropagate stack.now self.old }
        ensures watched { OnOk result (AreWatched stack.now self.new) }
        ensures left { IfOk result (LeavesSome (length stack.now.clauses) self.old self.new) }
    {
        while self.held >= self.asides.len() && self.pairs.len() < stack.clause_count() as usize {
            self.take_next(stack)?;
        }
        Ok(self.held < self.asides.len())
    }

    /// Takes the next clause in: it watches two literals that are not false, or else it waits.
    fn take_next(&mut self, stack: &Stack<'_>) -> Result<(), NoMemory>
        requires ready { MayPropagate stack.now self.old }
        requires more { length self.old.pairs.items < length stack.now.clauses }
        requires none { length self.old.asides.items ≤ self.old.held }
        ensures watched { OnOk result (AreWatched stack.now self.new) }
        ensures left { OnOk result (left_of (length stack.now.clauses) self.new < left_of (length stack.now.clauses) self.old) }
    {
        let number = self.pairs.len() as u32;
        match status_of(stack, number) {
            Status::Open(first, second) => {
                self.attach(number, first, second)?;
                let spare = third_or(stack.clause(number), first);
                self.pairs.push(PairSlot::of(Pair {
                    first,
                    second,
                    spare,
                }))?;
                Ok(())
            }
            _ => {
                self.asides.push(Aside {
                    clause: number,
                    level: 0,
                })?;
                self.pairs.push(PairSlot::none())?;
                Ok(())
            }
        }
    }

    /// Looks at a clause that waits, and answers its number if it is false.
    fn look(&mut self, stack: &mut Stack<'_>) -> Result<Option<u32>, NoMemory>
        requires ready { MayPropagate stack.old self.old }
        requires some { self.old.held < length self.old.asides.items }
        ensures grows { OnOk result (PropagatesWatched stack.old stack.new self.new) }
        ensures ends { IfOk result (λ conflict. MatchOption conflict (LooksAtOne self.old self.new) (IsFalseAt stack.new)) }
        ensures sound { IsSound stack.new }
    {
        let number = self.asides[self.held].clause;
        if self.is_open(stack, number) {
            self.release();
            return Ok(None);
        }
        match status_of(stack, number) {
            Status::Conflict => Ok(Some(number)),
            Status::Unit(literal) => self.force_aside(stack, number, literal),
            Status::Open(first, second) => self.open(stack, number, first, second),
        }
    }

    /// Whether the clause of a number watches two literals that are not false.
    fn is_open(&self, stack: &Stack<'_>, number: u32) -> bool
        requires sound { IsSound stack.now }
        requires watched { AreWatched stack.now self.now }
        requires within { number < length self.now.pairs.items }
        ensures { result ≡ true → IsOpenAt stack.now self.now number }
    {
        match self.pairs[number as usize].read() {
            Some(pair) => !is_false(stack, pair.first) && !is_false(stack, pair.second),
            None => false,
        }
    }

    /// A clause that waits does so no more: it watches these two literals, which are not false. It answers none.
    fn open(
        &mut self,
        stack: &Stack<'_>,
        number: u32,
        first: Literal,
        second: Literal,
    ) -> Result<Option<u32>, NoMemory>
        requires sound { IsSound stack.now }
        requires watched { AreWatched stack.now self.old }
        requires waits { IsNextWaiting self.old number }
        requires open { IsOpenBy stack.now number first second }
        ensures watched { OnOk result (AreWatched stack.now self.new) }
        ensures ends { IfOk result (λ conflict. MatchOption conflict (LooksAtOne self.old self.new) (IsFalseAt stack.now)) }
    {
        self.watch_both(stack, number, first, second)?;
        self.release();
        Ok(None)
    }

    /// A clause that waits watches these two of its literals.
    fn watch_both(
        &mut self,
        stack: &Stack<'_>,
        number: u32,
        first: Literal,
        second: Literal,
    ) -> Result<(), NoMemory>
        requires sound { IsSound stack.now }
        requires watched { AreWatched stack.now self.old }
        requires waits { IsNextWaiting self.old number }
        requires literals { CanWatch stack.now number first second }
        ensures pair { OnOk result (IsWatchedBy self.new number first second) }
        ensures rest { OnOk result (Rewatches stack.now self.old self.new) }
    {
        if self.is_watched_by(number, first, second) {
            return Ok(());
        }
        self.attach(number, first, second)?;
        self.pairs[number as usize] = PairSlot::of(Pair {
            first,
            second,
            spare: first,
        });
        Ok(())
    }

    /// A clause that waits and whose literals but this one are false watches it and the one that was made false last,
    /// if there is one.
    fn watch_last(
        &mut self,
        stack: &Stack<'_>,
        number: u32,
        literal: Literal,
    ) -> Result<(), NoMemory>
        requires ready { MayPropagate stack.now self.old }
        requires waits { IsNextWaiting self.old number }
        requires forced { CanForce stack.now number literal }
        ensures { OnOk result (Rewatches stack.now self.old self.new) }
    {
        match last_other(stack, stack.clause(number), literal) {
            None => Ok(()),
            Some(other) => self.watch_both(stack, number, literal, other),
        }
    }

    /// Whether the clause of a number watches both of these literals.
    fn is_watched_by(&self, number: u32, first: Literal, second: Literal) -> bool
        requires within { number < length self.now.pairs.items }
        requires apart { second ≡ first → ⊥ }
        ensures { result ≡ true → IsWatchedBy self.now number first second }
    {
        match self.pairs[number as usize].read() {
            Some(pair) => pair.is_of(first) && pair.is_of(second),
            None => false,
        }
    }

    /// Sets the literal of a clause that waits and whose other literals are false, and sets the clause aside. It
    /// answers none.
    fn force_aside(
        &mut self,
        stack: &mut Stack<'_>,
        number: u32,
        literal: Literal,
    ) -> Result<Option<u32>, NoMemory>
        requires ready { MayPropagate stack.old self.old }
        requires waits { IsNextWaiting self.old number }
        requires unit { IsUnitBy stack.old number literal }
        ensures grows { OnOk result (PropagatesWatched stack.old stack.new self.new) }
        ensures ends { IfOk result (λ conflict. MatchOption conflict (LooksAtOne self.old self.new) (IsFalseAt stack.new)) }
        ensures sound { IsSound stack.new }
    {
        self.watch_last(stack, number, literal)?;
        force(stack, number, literal)?;
        self.set_aside(stack.level());
        Ok(None)
    }

    /// Sets the next clause that waits aside, at a level.
    fn set_aside(&mut self, level: u32)
        requires { self.old.held < length self.old.asides.items }
        ensures { SetsAside level self.old self.new }
    {
        self.asides[self.held].level = level;
        self.held += 1;
    }

    /// The next clause that waits does so no more.
    fn release(&mut self)
        requires { self.old.held < length self.old.asides.items }
        ensures { Releases self.old self.new }
    {
        let _ = self.asides.swap_remove(self.held);
    }

    /// Notes that the entry at a place is visited at the present level.
    fn note_place(&mut self, stack: &Stack<'_>, place: u32)
        requires usable { stack.now.broken ≡ false }
        requires within { place < length stack.now.entries }
        ensures low { (e : Entry) → slice_get stack.now.entries place ≡ Some e →
            self.new.low ≡ cond (nat_lt e.level stack.now.level) (min self.old.low place) self.old.low }
        ensures rest { self.new ≡ record self.old { low = self.new.low } }
    {
        self.low = lowered(self.low, place, stack.level_at(place) < stack.level());
    }

    /// A clause watches two literals.
    fn attach(&mut self, number: u32, first: Literal, second: Literal) -> Result<(), NoMemory>
        requires first { code_of first < length self.old.lists.items }
        requires second { code_of second < length self.old.lists.items }
        ensures lists { OnOk result (Attaches self.old.lists.items number first second self.new.lists.items) }
        ensures rest { self.new ≡ record self.old { lists = self.new.lists } }
    {
        self.add_watch(first, number, second)?;
        self.add_watch(second, number, first)
    }

    /// Adds a watch of a clause to a literal's list.
    fn add_watch(&mut self, literal: Literal, clause: u32, blocker: Literal) -> Result<(), NoMemory>
        requires { code_of literal < length self.old.lists.items }
        ensures lists { OnOk result (AddsWatch self.old.lists.items (code_of literal) (record { clause = clause; blocker = blocker }) self.new.lists.items) }
        ensures rest { self.new ≡ record self.old { lists = self.new.lists } }
    {
        self.lists[literal.code()].push(Watch { clause, blocker })
    }

    /// Gives a watch in a literal's list another blocker.
    fn renew_watch(&mut self, literal: Literal, index: usize, blocker: Literal)
        requires { HasList self.old.lists.items (code_of literal) (index + 1) }
        ensures lists { RenewsWatch self.old.lists.items (code_of literal) index blocker self.new.lists.items }
        ensures rest { self.new ≡ record self.old { lists = self.new.lists } }
    {
        self.lists[literal.code()].renew(index, blocker);
    }

    /// Takes a watch out of a literal's list.
    fn drop_watch(&mut self, literal: Literal, index: usize)
        requires { HasList self.old.lists.items (code_of literal) (index + 1) }
        ensures lists { DropsWatch self.old.lists.items (code_of literal) index self.new.lists.items }
        ensures rest { self.new ≡ record self.old { lists = self.new.lists } }
    {
        self.lists[literal.code()].take_out(index);
    }

    /// Visits the clauses that watch the literal that the next entry makes false, and answers the number of one that
    /// is false; the entry is then still to be visited.
    fn visit_entry(&mut self, stack: &mut Stack<'_>) -> Result<Option<u32>, NoMemory>
        requires ready { MayPropagate stack.old self.old }
        requires more { self.old.head < length stack.old.entries }
        ensures grows { OnOk result (PropagatesWatched stack.old stack.new self.new) }
        ensures left { (count : ℕ) → left_of count self.new ≡ left_of count self.old }
        ensures ends { IfOk result (λ conflict. MatchOption conflict (self.new.head ≡ self.old.head + 1) (IsFalseAt stack.new)) }
        ensures sound { IsSound stack.new }
    {
        let falsified = stack.set_at(self.head).negated();
        let place = self.head;
        self.note_place(stack, place);
        let mut index = self.lists[falsified.code()].len();
        while index > 0 {
            index -= 1;
            let conflict = self.visit(stack, falsified, index)?;
            if conflict.is_some() {
                return Ok(conflict);
            }
        }
        self.head += 1;
        Ok(None)
    }

    /// Visits the clause of a watch whose literal is false, and answers its number if it is false.
    fn visit(
        &mut self,
        stack: &mut Stack<'_>,
        falsified: Literal,
        index: usize,
    ) -> Result<Option<u32>, NoMemory>
        requires ready { MayPropagate stack.old self.old }
        requires visiting { IsVisiting stack.old self.old falsified (index + 1) }
        ensures visits { OnOk result (Visits stack.old stack.new self.new falsified index) }
        ensures ends { IfOk result (λ conflict. MatchOption conflict (AreDue stack.new self.new falsified index) (IsFalseAt stack.new)) }
        ensures stays { StaysAt self.old self.new }
        ensures sound { IsSound stack.new }
    {
        let watch = self.lists[falsified.code()].get(index);
        if stack.is_true(watch.blocker) {
            return Ok(None);
        }
        let Some(pair) = self.pairs[watch.clause as usize].read() else {
            return Ok(None);
        };
        let other = pair.other(falsified);
        if stack.is_true(other) {
            self.renew_watch(falsified, index, other);
            return Ok(None);
        }
        let Some(next) = next_pair(stack, watch.clause, &pair, other) else {
            return force_or_fail(stack, watch.clause, other);
        };
        self.add_watch(next.first, watch.clause, other)?;
        self.drop_watch(falsified, index);
        self.pairs[watch.clause as usize] = PairSlot::of(next);
        Ok(None)
    }
}

/// How many of these clauses have a literal among their first two, for each literal by its code.
fn watch_counts(alloc: Global, count: u32, clauses: &ClauseList) -> Result<Vec<u32>, NoMemory> {
    let mut counts = vec![in alloc; 0; count as usize]?;
    for place in 0..clauses.len() {
        if let [first, second, ..] = clauses.get(place) {
            add_one(counts.as_mut_slice(), first.code());
            add_one(counts.as_mut_slice(), second.code());
        }
    }
    Ok(counts)
}

/// Adds one to the count at an index.
fn add_one(counts: &mut [u32], index: usize) {
    if let Some(count) = counts.get_mut(index) {
        *count = count.saturating_add(1);
    }
}

/// The count at an index; 0 where there is none.
fn count_at(counts: &[u32], index: u32) -> usize {
    counts.get(index as usize).copied().unwrap_or(0) as usize
}

/// The pair that a clause watches next, where one of its pair is false and this is the other one: a literal
/// that is not false, and this one. None where all literals but this one are false.
fn next_pair(stack: &Stack<'_>, number: u32, pair: &Pair, other: Literal) -> Option<Pair>
    requires usable { stack.now.broken ≡ false }
    requires sound { IsSound stack.now }
    requires pair { IsPairIn stack.now number pair.now }
    requires of { IsOf pair.now other }
    ensures { MatchOption result (CanForce stack.now number other) (IsNextPair stack.now number other) }
{
    let spare = pair.other(other);
    if is_free(stack, pair.spare, other) {
        return Some(Pair {
            first: pair.spare,
            second: other,
            spare,
        });
    }
    let literals = stack.clause(number);
    if has_no_more(literals, pair) && is_false(stack, spare) {
        return None;
    }
    let start = start_in(literals.len(), spare);
    let position = free_position(stack, literals, other, start)?;
    Some(Pair {
        first: literals[position],
        second: other,
        spare,
    })
}

/// The third literal of a clause, where it has three; else this one.
fn third_or(literals: &[Literal], literal: Literal) -> Literal
    requires { has literals.now literal ≡ true }
    ensures { has literals.now result ≡ true }
{
    match literals {
        [_, _, third] => *third,
        _ => literal,
    }
}

/// Whether a clause is known to have three literals: those of its pair and the spare one.
fn has_no_more(literals: &[Literal], pair: &Pair) -> bool
    ensures { result ≡ true → IsPair literals.now pair.now → HasNoMore literals.now pair.now }
{
    if literals.len() != 3 || pair.spare == pair.first {
        return false;
    }
    pair.spare != pair.second
}

/// A position below a length, by which literal became false: its code is spread over 32 bits by
/// multiplication, as D. E. Knuth, The Art of Computer Programming 3, 6.4, does it.
fn start_in(length: usize, literal: Literal) -> usize {
    let spread = (literal.code() as u32).wrapping_mul(2_654_435_769);
    (u64::from(spread).wrapping_mul(length as u64) >> 32) as usize
}

/// Sets the literal of a clause whose others are false, or answers the clause's number if that one is false too.
fn force_or_fail(
    stack: &mut Stack<'_>,
    number: u32,
    literal: Literal,
) -> Result<Option<u32>, NoMemory>
    requires usable { stack.old.broken ≡ false }
    requires sound { IsSound stack.old }
    requires forced { CanForce stack.old number literal }
    ensures ok { OnOk result (Propagates stack.old stack.new) }
    ensures ends { IfOk result (λ conflict. MatchOption conflict (has (literals_of stack.new.entries) literal ≡ true) (IsFalseAt stack.new)) }
    ensures sound { IsSound stack.new }
{
    if is_false(stack, literal) {
        return Ok(Some(number));
    }
    force(stack, number, literal)?;
    Ok(None)
}

/// Sets the literal of a clause whose others are false, unless it is true.
fn force(stack: &mut Stack<'_>, number: u32, literal: Literal) -> Result<(), NoMemory>
    requires usable { stack.old.broken ≡ false }
    requires sound { IsSound stack.old }
    requires unit { IsUnitBy stack.old number literal }
    ensures ok { OnOk result (Propagates stack.old stack.new) }
    ensures is_true { OnOk result (has (literals_of stack.new.entries) literal ≡ true) }
    ensures sound { IsSound stack.new }
{
    if stack.is_true(literal) {
        return Ok(());
    }
    let level = stack.level();
    stack.set(literal, level, Some(number))
}

/// The number, or the smaller of it and a limit that is to be lowered.
fn lowered(limit: u32, number: u32, is_late: bool) -> u32
    ensures { result ≡ cond is_late (min limit number) limit }
{
    if is_late { limit.min(number) } else { limit }
}

/// What the clause of a number is while literals are set.
fn status_of(stack: &Stack<'_>, number: u32) -> Status
    requires usable { stack.now.broken ≡ false }
    requires sound { IsSound stack.now }
    requires given { number < length stack.now.clauses }
    ensures { HasStatus stack.now number result }
{
    let literals = stack.clause(number);
    let Some(place) = first_free(stack, literals) else {
        return Status::Conflict;
    };
    let first = literals[place];
    match free_between(stack, literals, first, place + 1, literals.len()) {
        Some(position) => Status::Open(first, literals[position]),
        None => Status::Unit(first),
    }
}

/// The position of the first literal that is not false; none where all are false.
fn first_free(stack: &Stack<'_>, literals: &[Literal]) -> Option<usize>
    requires over { IsOver stack.now.variables literals.now }
    ensures { MatchOption result (AreFalseBefore (literals_of stack.now.entries) literals.now (length literals.now)) (IsFirstFree (literals_of stack.now.entries) literals.now) }
{
    for position in 0..literals.len() {
        if !is_false(stack, literals[position]) {
            return Some(position);
        }
    }
    None
}

/// Of the literals but this one, the one that was set last; none where there are no others.
fn last_other(stack: &Stack<'_>, literals: &[Literal], except: Literal) -> Option<Literal>
    requires usable { stack.now.broken ≡ false }
    requires over { IsOver stack.now.variables literals.now }
    ensures { MatchOption result (AreAllBefore literals.now except (length literals.now)) (IsOther literals.now except) }
{
    let mut found = None;
    let mut last = 0;
    for position in 0..literals.len() {
        let literal = literals[position];
        let place = set_place_or_zero(stack, literal);
        if literal != except && (found.is_none() || place > last) {
            found = Some(literal);
            last = place;
        }
    }
    found
}

/// The position of a literal that is not false, but not of the one given; none where all others are
/// false. The search begins at a position and goes round.
fn free_position(
    stack: &Stack<'_>,
    literals: &[Literal],
    except: Literal,
    start: usize,
) -> Option<usize>
    requires over { IsOver stack.now.variables literals.now }
    ensures { MatchOption result (AreOthersFalse (literals_of stack.now.entries) literals.now except) (IsFree (literals_of stack.now.entries) literals.now except) }
{
    let start = start.min(literals.len());
    match free_between(stack, literals, except, start, literals.len()) {
        Some(position) => Some(position),
        None => free_between(stack, literals, except, 0, start),
    }
}

/// The first of these positions with a literal that is not false and not the one given; none where
/// there is none.
fn free_between(
    stack: &Stack<'_>,
    literals: &[Literal],
    except: Literal,
    start: usize,
    end: usize,
) -> Option<usize>
    requires over { IsOver stack.now.variables literals.now }
    requires within { end ≤ length literals.now }
    ensures { MatchOption result (AreFalseBetween (literals_of stack.now.entries) literals.now except start end) (IsFree (literals_of stack.now.entries) literals.now except) }
{
    for position in start..end {
        if is_free(stack, literals[position], except) {
            return Some(position);
        }
    }
    None
}

/// Whether the literal is not false, and not the one given.
fn is_free(stack: &Stack<'_>, literal: Literal, except: Literal) -> bool
    requires over { literal.index < stack.now.variables }
    ensures { result ≡ (not (same literal except) && not (has (literals_of stack.now.entries) (negation literal))) }
{
    literal != except && !is_false(stack, literal)
}

/// Whether the literal is false.
fn is_false(stack: &Stack<'_>, literal: Literal) -> bool
    requires { literal.index < stack.now.variables }
    ensures { result ≡ has (literals_of stack.now.entries) (negation literal) }
{
    stack.is_true(literal.negated())
}

/// The place at which the literal's variable is set; 0 where it is not.
fn set_place_or_zero(stack: &Stack<'_>, literal: Literal) -> u32
    requires usable { stack.now.broken ≡ false }
    requires over { literal.index < stack.now.variables }
    ensures { result ≡ unwrap_or (place_of stack.now.entries literal.index) 0 }
{
    stack.set_place(literal.variable()).unwrap_or(0)
}
