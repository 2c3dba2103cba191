//! Sets of numbers, of which the least is found by few steps.

ghost use Rattle.std.specs.Prelude.{◌≡◌, ◌==◌, ℕ, ◌*◌, ◌/◌, ◌^◌, ◌<◌, ◌≤◌, false, not, cond, length, IfOk, MatchOption};
ghost use Rattle.lane_planes.specs.Planes.{has_bit, word_at};
ghost use Rattle.clause_learning.specs.NumberSets.{IsNumberSet, HasMember, IsFirstWord, IsLeastBit, contains, room};

use base_library::NoMemory;
use lane_planes::first_bit;
use std::alloc::Global;

/// Numbers below a limit as bits, in words of 64. A bit of `words` says whether a word of the members has
/// any, and a bit of `groups` whether a word of those does.
#[derive(Drop)]
pub struct NumberSet {
    members: Vec<u64>,
    words: Vec<u64>,
    groups: Vec<u64>,
}

impl NumberSet {
    /// The empty set, with room for the numbers below a limit.
    pub fn new(alloc: Global, limit: u32) -> Result<NumberSet, NoMemory>
        requires { limit < 2 ^ 31 }
        ensures set { IfOk result IsNumberSet }
        ensures room { IfOk result (λ set. limit ≤ room set) }
        ensures empty { IfOk result (λ set. (number : ℕ) → contains set number ≡ false) }
    {
        let last = limit as usize / 64;
        Ok(NumberSet {
            members: vec![in alloc; 0; last + 1]?,
            words: vec![in alloc; 0; last / 64 + 1]?,
            groups: vec![in alloc; 0; last / 4096 + 1]?,
        })
    }

    /// Puts a number in, or takes it out.
    pub fn set(&mut self, number: u32, is_member: bool)
        requires set { IsNumberSet self.old }
        requires within { number < room self.old }
        ensures { HasMember self.old number is_member self.new }
    {
        if self.contains(number) != is_member {
            self.write(number, is_member);
        }
    }

    /// Writes whether a number is in the set.
    fn write(&mut self, number: u32, is_member: bool)
        requires set { IsNumberSet self.old }
        requires within { number < room self.old }
        ensures set { IsNumberSet self.new }
        ensures room { room self.new ≡ room self.old }
        ensures members { (other : ℕ) → contains self.new other ≡ cond (other == number) is_member (contains self.old other) }
    {
        let word = number as usize / 64;
        let group = word / 64;
        write_bit(self.members.as_mut_slice(), number as usize, is_member);
        sum_up(self.words.as_mut_slice(), self.members.as_slice(), word);
        sum_up(self.groups.as_mut_slice(), self.words.as_slice(), group);
    }

    /// The least number; none where there is none.
    pub fn least(&self) -> Option<u32>
        requires { IsNumberSet self.now }
        ensures { MatchOption result ((number : ℕ) → contains self.now number ≡ false) (IsLeastBit self.now.members.items) }
    {
        let group = first_bit(self.groups.as_slice())?;
        let word = least_in(self.words.as_slice(), group as usize);
        Some(least_in(self.members.as_slice(), word) as u32)
    }

    /// Whether a number is in the set.
    pub fn contains(&self, number: u32) -> bool
        requires within { number < room self.now }
        ensures { result ≡ contains self.now number }
    {
        let bit = number as usize;
        self.members[bit / 64] >> (bit % 64) & 1 == 1
    }
}

/// Sets a bit, or clears it.
fn write_bit(plane: &mut [u64], bit: usize, is_set: bool)
    requires within { bit < 64 * length plane.old }
    ensures size { length plane.new ≡ length plane.old }
    ensures bits { (other : ℕ) → has_bit plane.new other ≡ cond (other == bit) is_set (has_bit plane.old other) }
    ensures words { (k : ℕ) → (k ≡ bit / 64 → ⊥) → word_at plane.new k ≡ word_at plane.old k }
{
    let mask = 1 << (bit % 64);
    let word = plane[bit / 64];
    plane[bit / 64] = if is_set { word | mask } else { word & !mask };
}

/// Writes into a summary whether a word has any bit.
fn sum_up(summary: &mut [u64], plane: &[u64], word: usize)
    requires inside { word < length plane.now }
    requires within { word < 64 * length summary.old }
    ensures size { length summary.new ≡ length summary.old }
    ensures bits { (other : ℕ) → has_bit summary.new other ≡ cond (other == word) (not (word_at plane.now word == 0)) (has_bit summary.old other) }
    ensures words { (k : ℕ) → (k ≡ word / 64 → ⊥) → word_at summary.new k ≡ word_at summary.old k }
{
    write_bit(summary, word, plane[word] != 0);
}

/// The least bit, which is in this word.
fn least_in(plane: &[u64], word: usize) -> usize
    requires few { length plane.now ≤ 2 ^ 26 }
    requires first { IsFirstWord plane.now word }
    ensures { IsLeastBit plane.now result }
{
    word * 64 + plane[word].trailing_zeros() as usize
}
