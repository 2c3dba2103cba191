//! The variables that may be decided, the most active one first.

ghost use Rattle.std.specs.Prelude.{◌≡◌, ◌==◌, ◌&&◌, ◌||◌, ℕ, ◌+◌, ◌*◌, ◌^◌, ◌<◌, false, true, not, cond, MatchOption, IfOk};
ghost use Rattle.clause_learning.specs.Queues.{IsQueue, AreBounded, IsVariableQueue, KeepsVariables, IsNext, IsActive, variable_count, is_queued, activity_of, scaled, limit};

use crate::numbers::NumberSet;
use crate::tournament::Tournament;
use base_library::NoMemory;
use std::alloc::Global;

/// The largest activity, and the most that a bump adds.
const LIMIT: u64 = 1_152_921_504_606_846_976;

/// What activities are divided by where one has passed the limit.
const SCALE: u64 = 1_099_511_627_776;

/// What the first bumps add.
const FIRST_INCREMENT: u64 = 65_536;

/// Variables by their indices. The more active one comes first, and of two that are as active the one of
/// the smaller number. Those of activity 0, which are most of them in a large formula, are in a set.
#[derive(Drop)]
pub struct VariableQueue {
    /// Those that are active.
    active: Tournament,
    /// Those of activity 0.
    inactive: NumberSet,
    /// For each variable what its bumps added.
    activities: Vec<u64>,
    /// What the next bump adds.
    increment: u64,
}

impl VariableQueue {
    /// All of the first variables, none of which is active.
    pub fn new(alloc: Global, variables: u32) -> Result<VariableQueue, NoMemory>
        requires { variables < 2 ^ 31 }
        ensures queue { IfOk result IsVariableQueue }
        ensures count { IfOk result (λ queue. variable_count queue ≡ variables) }
        ensures all { IfOk result (λ queue. (variable : ℕ) → variable < variables → is_queued queue variable ≡ true) }
    {
        let mut queue = VariableQueue {
            active: Tournament::new(alloc, variables)?,
            inactive: NumberSet::new(alloc, variables)?,
            activities: vec![in alloc; 0; variables as usize]?,
            increment: FIRST_INCREMENT,
        };
        for variable in 0..variables {
            queue.push(variable);
        }
        Ok(queue)
    }

    /// Takes the first variable out; none where there is none.
    pub fn pop(&mut self) -> Option<u32>
        requires { IsVariableQueue self.old }
        ensures next { MatchOption result ((variable : ℕ) → is_queued self.old variable ≡ false) (IsNext self.old) }
        ensures others { MatchOption result (self.new ≡ self.old) (λ first. (variable : ℕ) →
            is_queued self.new variable ≡ (is_queued self.old variable && not (variable == first))) }
        ensures activities { self.new.activities.items ≡ self.old.activities.items }
        ensures queue { IsVariableQueue self.new }
    {
        let first = self.active.first();
        if first.activity > 0 {
            self.active.set(first.variable, 0);
            return Some(first.variable);
        }
        match self.inactive.least() {
            None => None,
            Some(least) => {
                self.inactive.set(least, false);
                Some(least)
            }
        }
    }

    /// Puts a variable in, where it is not there.
    pub fn push(&mut self, variable: u32)
        requires queue { IsVariableQueue self.old }
        requires within { variable < variable_count self.old }
        ensures pushed { (other : ℕ) → is_queued self.new other ≡ (is_queued self.old other || other == variable) }
        ensures activities { self.new.activities.items ≡ self.old.activities.items }
        ensures queue { IsVariableQueue self.new }
    {
        let activity = self.activities[variable as usize];
        if activity > 0 {
            self.active.set(variable, activity);
        } else {
            self.inactive.set(variable, true);
        }
    }

    /// Makes a variable more active.
    pub fn bump(&mut self, variable: u32)
        requires queue { IsVariableQueue self.old }
        requires within { variable < variable_count self.old }
        ensures active { IsActive self.old variable (activity_of self.old variable + self.old.increment) self.new }
        ensures queue { IsVariableQueue self.new }
    {
        let activity = self.activities[variable as usize] + self.increment;
        self.set_activity(variable, activity);
        if activity > LIMIT {
            self.scale();
        }
    }

    /// Lets later bumps add more, so that what was bumped long ago counts less.
    pub fn grow(&mut self)
        requires { IsVariableQueue self.old }
        ensures count { variable_count self.new ≡ variable_count self.old }
        ensures same { (other : ℕ) → is_queued self.new other ≡ is_queued self.old other }
        ensures queue { IsVariableQueue self.new }
    {
        self.increment += self.increment / 16;
        if self.increment > LIMIT {
            self.scale();
        }
    }

    /// Makes a variable so active; it may be decided where it might be before.
    fn set_activity(&mut self, variable: u32, new_activity: u64)
        requires queue { IsQueue self.old }
        requires within { variable < variable_count self.old }
        ensures kept { KeepsVariables self.old self.new }
        ensures activities { (other : ℕ) → activity_of self.new other ≡ cond (other == variable) new_activity (activity_of self.old other) }
        ensures increment { self.new.increment ≡ self.old.increment }
        ensures queue { IsQueue self.new }
    {
        let queued = self.is_queued(variable);
        self.activities[variable as usize] = new_activity;
        if queued {
            self.active.set(variable, new_activity);
            self.inactive.set(variable, new_activity == 0);
        }
    }

    /// Whether a variable may be decided.
    fn is_queued(&self, variable: u32) -> bool
        requires queue { IsQueue self.now }
        requires within { variable < variable_count self.now }
        ensures { result ≡ is_queued self.now variable }
    {
        self.active.weight(variable) != 0 || self.inactive.contains(variable)
    }

    /// Makes all activities and what a bump adds smaller. Those that come to be 0 go to the set.
    fn scale(&mut self)
        requires queue { IsQueue self.old }
        requires bounded { AreBounded (2 * limit) self.old }
        ensures kept { KeepsVariables self.old self.new }
        ensures activities { (variable : ℕ) → activity_of self.new variable ≡ scaled (activity_of self.old variable) }
        ensures increment { self.new.increment ≡ scaled self.old.increment }
        ensures queue { IsVariableQueue self.new }
    {
        for variable in 0..self.activities.len() as u32 {
            let activity = self.activities[variable as usize] / SCALE;
            self.set_activity(variable, activity);
        }
        self.increment /= SCALE;
    }
}
