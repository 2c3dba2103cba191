//! Choices over the numbers of formulas.

ghost use Rattle.std.specs.Prelude.{◌≡◌, ◌++◌, IfOk, nat_eq};
ghost use Rattle.std.specs.List.{list_any};
ghost use Rattle.std.specs.Hash as fed;
ghost use Rattle.std.specs.Cmp.Rules.{hashing};
ghost use Rattle.std.proofs.Common.{rules};
ghost use Rattle.obligations.specs.Codes.{numbers_code};
ghost use Rattle.obligations.specs.Numbers.{choice_key};
ghost use Rattle.obligations.specs.Choices.{is_subset, is_within};

use base_library::NoMemory;
use std::alloc::Global;
use std::hash::{Hash, Hasher};

/// What one step asks of the letter, and the numbers of the formulas that it leaves.
#[derive(PartialEq, Eq, Drop)]
pub struct NumberedChoice {
    /// The bits that it asks for.
    pub care: u64,
    /// Those of them that are to be set.
    pub want: u64,
    /// What the next step has to meet, by rising numbers.
    pub next: Vec<u32>,
    /// The untils that are put off, by rising numbers.
    pub postponed: Vec<u32>,
}

/// A number that is made of a list of numbers, by which lists that differ are told apart quickly.
pub fn code_of(numbers: &[u32]) -> u64
    ensures { result ≡ numbers_code numbers.now }
{
    let mut code = 1u64;
    for number in numbers {
        code = (code ^ u64::from(*number)).wrapping_mul(1_099_511_628_211);
    }
    code
}

impl Hash for NumberedChoice {
    ghost hash_input = { λ c. fed.u64 c.care ++ (fed.u64 c.want ++ (fed.u64 (numbers_code c.next.items) ++ fed.u64 (numbers_code c.postponed.items))) };

    ghost respects_eq = { Prim.search (hashing, rules) };

    fn hash<H: Hasher>(&self, state: &mut H) {
        state.write_u64(self.care);
        state.write_u64(self.want);
        state.write_u64(code_of(&self.next));
        state.write_u64(code_of(&self.postponed));
    }
}

impl NumberedChoice {
    /// An equal choice.
    pub fn copy(&self, alloc: Global) -> Result<NumberedChoice, NoMemory>
        ensures { IfOk result (λ copy. choice_key copy ≡ choice_key self.now) }
    {
        Ok(NumberedChoice {
            care: self.care,
            want: self.want,
            next: self.next.to_vec(alloc)?,
            postponed: self.postponed.to_vec(alloc)?,
        })
    }

    /// Whether this choice asks for no more than another one and leaves no more.
    pub fn is_within(&self, large: &NumberedChoice) -> bool
        ensures { result ≡ is_within nat_eq (choice_key self.now) (choice_key large.now) }
    {
        self.care & large.care == self.care
            && large.want & self.care == self.want
            && is_subset(&self.next, &large.next)
            && is_subset(&self.postponed, &large.postponed)
    }
}

/// Whether a number stands among others.
fn stands_among(numbers: &[u32], number: u32) -> bool
    ensures { result ≡ list_any (λ other. nat_eq other number) numbers.now }
{
    for other in numbers {
        if *other == number {
            return true;
        }
    }
    false
}

/// Whether each number of a list is in another.
fn is_subset(small: &[u32], large: &[u32]) -> bool
    ensures { result ≡ is_subset nat_eq small.now large.now }
{
    for number in small {
        if !stands_among(large, *number) {
            return false;
        }
    }
    true
}
