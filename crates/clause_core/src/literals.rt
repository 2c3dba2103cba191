//! Literals: a variable, or its negation.

ghost use Rattle.std.specs.Prelude.{◌≡◌, ◌≢◌, ◌⊎◌, ◌↔◌, ◌+◌, ◌^◌, ◌<◌, pos, negsuc, IsTrue, IsNone, IfSome};
ghost use Rattle.clause_core.specs.Literals.{signed_number_of, code_of, negation};

use std::marker::Model;

/// A literal: a variable, or its negation. Its number is the variable's, or the opposite of it. A
/// clause sees it as an index, which is the variable's number less 1, and whether it is positive.
#[derive(Clone, Copy, Debug, PartialEq, Eq, PartialOrd, Ord)]
pub struct Literal {
    number: i32,
}

impl Model for Literal {
    ghost use Rattle.std.specs.Prelude.{◌≢◌, ℤ, pos, negsuc};
    ghost use Rattle.std.proofs.Common.{ap};
    ghost use Rattle.clause_core.specs.Literals.{Lit, literal_of, signed_number_of, signed_number_of-literal_of};

    ghost Value = { Lit };

    ghost view = { λ l. literal_of l.number };

    ghost invariant = { λ l. (l.number ≢ pos 0) × (l.number ≢ negsuc 2147483647) };

    ghost inverse = { λ l. record { number = signed_number_of l } };

    ghost inverse_ok = { λ a h. ap (λ (n : ℤ). record { number = n }) (signed_number_of-literal_of a.number h.0) };
}

impl Default for Literal {
    ghost use Rattle.std.specs.Prelude.{◌≡◌, true};

    ghost is_default = { λ l. l ≡ record { index = 0; positive = true } };

    /// The first variable.
    fn default() -> Literal {
        Literal { number: 1 }
    }
}

impl Literal {
    /// The literal of a number: v for the variable v, and -v for its negation. `None` comes exactly
    /// at 0 and at the least `i32`, which has no opposite.
    pub fn new(number: i32) -> Option<Literal>
        ensures none { IsNone result ↔ ((number ≡ pos 0) ⊎ (number ≡ negsuc 2147483647)) }
        ensures some { IfSome result (λ literal. signed_number_of literal ≡ number) }
    {
        if number == 0 || number == i32::MIN {
            None
        } else {
            Some(Literal { number })
        }
    }

    /// The literal of a variable, whose number is from 1, or its negation.
    pub fn of_variable(variable: u32, positive: bool) -> Literal
        requires above { 0 < variable }
        requires below { variable < 2 ^ 31 }
        ensures index { result.index + 1 ≡ variable }
        ensures positive { result.positive ≡ positive }
    {
        let number = variable as i32;
        Literal {
            number: if positive { number } else { -number },
        }
    }

    /// The literal's number.
    pub fn number(self) -> i32
        ensures { result ≡ signed_number_of self }
    {
        self.number
    }

    /// The literal of the opposite number.
    pub fn negated(self) -> Literal
        ensures { result ≡ negation self }
    {
        Literal {
            number: -self.number,
        }
    }

    /// The number of its variable, from 1.
    pub fn variable(self) -> u32
        ensures value { result ≡ self.index + 1 }
        ensures in_range { result < 2 ^ 31 }
    {
        self.number.unsigned_abs()
    }

    /// The place of its variable in a list with one member for each: the variable's number less 1.
    pub fn index(self) -> usize
        ensures value { result ≡ self.index }
        ensures in_range { result + 1 < 2 ^ 31 }
    {
        self.variable() as usize - 1
    }

    /// Its place in a list with two members for each variable, the negative literal's before the
    /// positive one's.
    pub fn code(self) -> usize
        ensures { result ≡ code_of self }
    {
        // twice the number, or the opposite less 1 of that: a compiler takes no branch for it
        let double = self.number.cast_unsigned().wrapping_mul(2);
        let folded = if self.number < 0 { !double } else { double };
        folded as usize - 1
    }

    /// Whether it is the variable itself, and not its negation.
    pub fn is_positive(self) -> bool
        ensures { result ≡ self.positive }
    {
        self.number > 0
    }
}
