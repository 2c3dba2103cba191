//! The literals that a step's hints made true.

ghost use Rattle.std.specs.Prelude.{◌≡◌, ◌<◌, ◌+◌, [], ◌++◌, map, IfOk, OnOk, OnErr};
ghost use Rattle.clause_core.specs.Literals.{Lit, has, negation, code_of};
ghost use Rattle.clause_core.specs.Clauses.{IsOver};
ghost use Rattle.clause_core.specs.Propagation.{not_false};
ghost use Rattle.refutation_check.specs.Checking.{effect_of_open};
ghost use Rattle.refutation_check.specs.internal.Marks.{with_true, effect_of};

use base_library::NoMemory;
use clause_core::{Clause, Literal};
use std::alloc::Global;
use std::marker::Model;

/// What a look at the clause of a hint found.
#[derive(Drop)]
pub enum Look {
    /// Each literal is false: no more hints are needed.
    Ends,
    /// This literal is unassigned, and all others are false.
    Makes(Literal),
    /// Neither of these.
    ShowsNothing,
}

/// The literals that are true. A contract sees them as a list, the last one first.
#[derive(Drop)]
pub struct Marks {
    variables: u32,
    truths: Vec<bool>,
    literals: Vec<Literal>,
}

impl Model for Marks {
    ghost use Rattle.std.specs.Prelude.{reverse};
    ghost use Rattle.refutation_check.specs.internal.Marks.{Trues, IsTruthTable};

    ghost Value = { Trues };

    ghost view = { λ m. record { variables = m.variables; literals = reverse m.literals.items } };

    ghost invariant = { λ m. IsTruthTable m.variables m.truths.items (reverse m.literals.items) };
}

impl Marks {
    /// No literal is true.
    pub fn new(alloc: Global, variables: u32) -> Result<Marks, NoMemory>
        ensures { IfOk result (λ marks. marks ≡ record { variables = variables; literals = [] }) }
    {
        Ok(Marks {
            variables,
            truths: vec![in alloc; false; 2 * variables as usize]?,
            literals: Vec::new(alloc),
        })
    }

    /// Whether the literal is true.
    pub fn is_true(&self, literal: Literal) -> bool
        requires { literal.index < self.now.variables }
        ensures { result ≡ has self.now.literals literal }
    {
        self.truths[place(literal)]
    }

    /// Makes the literal true.
    pub fn make(&mut self, literal: Literal) -> Result<(), NoMemory>
        requires { literal.index < self.old.variables }
        ensures ok { OnOk result (self.new ≡ with_true self.old literal) }
        ensures err { OnErr result (self.new ≡ self.old) }
    {
        self.literals.push(literal)?;
        self.truths[place(literal)] = true;
        Ok(())
    }

    /// Makes each literal of the clause false.
    pub fn falsify(&mut self, clause: &Clause) -> Result<(), NoMemory>
        requires { IsOver self.old.variables clause.now }
        ensures variables { self.new.variables ≡ self.old.variables }
        ensures ok { OnOk result (self.new.literals ≡ map negation clause.now ++ self.old.literals) }
    {
        let mut rest = clause.literals();
        while let Some((last, before)) = rest.split_last() {
            self.make(last.negated())?;
            rest = before;
        }
        Ok(())
    }

    /// Takes back what was made true.
    pub fn clear(&mut self)
        ensures { self.new ≡ record { variables = self.old.variables; literals = [] } }
    {
        while let Some(literal) = self.literals.pop() {
            self.truths[place(literal)] = false;
        }
    }

    /// What the clause of these literals does.
    pub fn look_at(&self, literals: &[Literal]) -> Look
        requires { IsOver self.now.variables literals.now }
        ensures value { effect_of result ≡ effect_of_open self.now.literals (not_false self.now.literals literals.now) }
        ensures over { (l : Lit) → result ≡ Look.Makes l → l.index < self.now.variables }
    {
        let mut open = None;
        for literal in literals {
            if !self.is_true(literal.negated()) {
                if open.is_some() {
                    return Look::ShowsNothing;
                }
                open = Some(*literal);
            }
        }
        match open {
            None => Look::Ends,
            Some(literal) => {
                if self.is_true(literal) {
                    Look::ShowsNothing
                } else {
                    Look::Makes(literal)
                }
            }
        }
    }
}

/// The place of a literal in the table.
fn place(literal: Literal) -> usize
    ensures { result ≡ code_of literal }
{
    let negative = 2 * literal.index();
    if literal.is_positive() {
        negative + 1
    } else {
        negative
    }
}
