//! The order of decisions, and the assignment that is read off a trail.

ghost use Rattle.std.specs.Prelude.{◌≡◌, ◌==◌, ◌||◌, ◌^◌, ◌<◌, ◌++◌, ◌∷◌, [], ℕ, List, length, true, false, All, Contains, MatchOption, IfSome, IfOk, OnOk};
ghost use Rattle.sat_trail.specs.declared.entries.Entry.{Entry};
ghost use Rattle.sat_trail.specs.States.{IsSound, up_to};
ghost use Rattle.clause_learning.specs.Queues.{IsVariableQueue, variable_count, is_queued};
ghost use Rattle.clause_learning.specs.Decisions.{AreSet, IsUnset, AreForEach, AreDecisions, IsNextUnset, Decides, AreVariableTruths};

use crate::queue::VariableQueue;
use base_library::{NoMemory, Sequence};
use clause_core::{Assignment, Literal};
use sat_trail::Trail;
use std::alloc::Global;

/// What is decided next: of the variables that are not set the most active one, to the value that it had
/// last. Each of them is in the queue; those that are set may be there too.
#[derive(Drop)]
pub struct Decisions {
    queue: VariableQueue,
    /// For each variable the value that it had last; false at first.
    phases: Vec<bool>,
    /// What is to be decided before all else, the last one first.
    repeated: Vec<Literal>,
}

impl Decisions {
    /// No variable was active, or had a value.
    pub fn new(alloc: Global, variables: u32) -> Result<Decisions, NoMemory>
        requires { variables < 2 ^ 31 }
        ensures { IfOk result (λ decisions. (entries : List Entry) → AreDecisions variables entries decisions) }
    {
        Ok(Decisions {
            queue: VariableQueue::new(alloc, variables)?,
            phases: vec![in alloc; false; variables as usize]?,
            repeated: Vec::new(alloc),
        })
    }

    /// Decides the next variable, and answers whether there was one.
    pub fn decide(&mut self, trail: &mut Trail<'_>) -> Result<bool, NoMemory>
        requires usable { trail.old.broken ≡ false }
        requires sound { IsSound trail.old }
        requires decisions { AreDecisions trail.old.variables trail.old.entries self.old }
        ensures { IfOk result (Decides trail.old self.old trail.new self.new) }
    {
        if let Some(literal) = self.next_repeated(trail) {
            trail.decide(literal)?;
            return Ok(true);
        }
        let Some(index) = self.next_variable(trail) else {
            return Ok(false);
        };
        let literal = Literal::of_variable(index + 1, self.phases[index as usize]);
        trail.decide(literal)?;
        Ok(true)
    }

    /// The next literal to be decided again that is not set; none where there is none.
    fn next_repeated(&mut self, trail: &Trail<'_>) -> Option<Literal>
        requires usable { trail.now.broken ≡ false }
        requires values { length self.old.phases.items ≡ trail.now.variables }
        ensures unset { IfSome result (λ literal. IsUnset trail.now.entries trail.now.variables literal.index) }
        ensures repeated { IfSome result (Contains self.old.repeated.items) }
        ensures rest { self.new ≡ record self.old { repeated = self.new.repeated } }
    {
        while let Some(literal) = self.repeated.pop() {
            if self.is_unset(trail, literal) {
                return Some(literal);
            }
        }
        None
    }

    /// Whether a literal is of one of the variables, which is not set.
    fn is_unset(&self, trail: &Trail<'_>, literal: Literal) -> bool
        requires usable { trail.now.broken ≡ false }
        requires values { length self.now.phases.items ≡ trail.now.variables }
        ensures { result ≡ true → IsUnset trail.now.entries trail.now.variables literal.index }
    {
        literal.index() < self.phases.len() && trail.set_place(literal.variable()).is_none()
    }

    /// Takes the next variable that is not set out of the queue; none where all are set.
    fn next_variable(&mut self, trail: &Trail<'_>) -> Option<u32>
        requires usable { trail.now.broken ≡ false }
        requires decisions { AreDecisions trail.now.variables trail.now.entries self.old }
        ensures found { MatchOption result (AreSet trail.now.entries trail.now.variables) (IsNextUnset trail.now.entries trail.now.variables self.old.queue) }
        ensures values { length self.new.phases.items ≡ trail.now.variables }
        ensures phases { self.new.phases.items ≡ self.old.phases.items }
        ensures decisions { MatchOption result (AreDecisions trail.now.variables trail.now.entries self.new)
            (λ index. (e : Entry) → e.literal.index ≡ index → AreDecisions trail.now.variables (trail.now.entries ++ e ∷ []) self.new) }
    {
        while let Some(index) = self.queue.pop() {
            if trail.set_place(index + 1).is_none() {
                return Some(index);
            }
        }
        None
    }

    /// Notes that what is above a level will be taken back: those variables may be decided again, and
    /// each to the value that it has; nothing is to be decided before all else.
    pub fn take_back(&mut self, trail: &Trail<'_>, level: u32)
        requires usable { trail.now.broken ≡ false }
        requires sound { IsSound trail.now }
        requires decisions { AreDecisions trail.now.variables trail.now.entries self.old }
        ensures { AreDecisions trail.now.variables (up_to level trail.now.entries) self.new }
    {
        self.repeated.clear();
        let mut place = trail.set_count();
        while place > 0 {
            let last = place - 1;
            if trail.level_at(last) <= level {
                break;
            }
            self.give_back(trail.set_at(last));
            place = last;
        }
    }

    /// Notes that all will be taken back, and what was decided is to be decided again first.
    pub fn take_all_back(&mut self, trail: &Trail<'_>) -> Result<(), NoMemory>
        requires usable { trail.now.broken ≡ false }
        requires sound { IsSound trail.now }
        requires decisions { AreDecisions trail.now.variables trail.now.entries self.old }
        ensures { OnOk result (AreDecisions trail.now.variables [] self.new) }
    {
        self.repeated.clear();
        let mut place = trail.set_count();
        while place > 0 {
            place -= 1;
            let literal = trail.set_at(place);
            self.repeat_if(literal, trail.reason_at(place).is_none())?;
            self.give_back(literal);
        }
        Ok(())
    }

    /// Notes that a literal is to be decided again, if it was decided.
    fn repeat_if(&mut self, literal: Literal, decided: bool) -> Result<(), NoMemory>
        ensures { self.new ≡ record self.old { repeated = self.new.repeated } }
    {
        if decided {
            self.repeated.push(literal)?;
        }
        Ok(())
    }

    /// The variable of a literal that is set may be decided again, to the value that it has.
    fn give_back(&mut self, literal: Literal)
        requires each { AreForEach (variable_count self.old.queue) self.old.queue self.old.phases.items }
        requires within { literal.index < variable_count self.old.queue }
        ensures each { AreForEach (variable_count self.old.queue) self.new.queue self.new.phases.items }
        ensures queued { (other : ℕ) → is_queued self.new.queue other ≡ (is_queued self.old.queue other || other == literal.index) }
    {
        self.phases[literal.index()] = literal.is_positive();
        self.queue.push(literal.variable() - 1);
    }

    /// Makes these variables more active, and those of later conflicts more than these.
    pub fn bump(&mut self, variables: &[u32])
        requires queue { IsVariableQueue self.old.queue }
        requires within { All (λ variable. variable < variable_count self.old.queue) variables.now }
        ensures { (variables : ℕ) (entries : List Entry) → AreDecisions variables entries self.old → AreDecisions variables entries self.new }
    {
        for variable in variables {
            self.queue.bump(*variable);
        }
        self.queue.grow();
    }
}

/// The assignment of the literals that are set.
pub fn assignment_of(
    alloc: Global,
    trail: &Trail<'_>,
    variables: u32,
) -> Result<Assignment, NoMemory>
    requires usable { trail.now.broken ≡ false }
    requires variables { variables ≡ trail.now.variables }
    requires few { variables < 2 ^ 31 }
    ensures { IfOk result (λ assignment. AreVariableTruths trail.now.entries variables assignment.truths) }
{
    let mut truths = Vec::new(alloc);
    for index in 0..variables {
        let literal = Literal::of_variable(index + 1, true);
        truths.push(trail.value(literal) == Some(true))?;
    }
    Ok(Assignment {
        truths: Sequence::from_vec(truths),
    })
}
