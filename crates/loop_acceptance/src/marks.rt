//! Marks of nodes, which take two bits each.
//!
//! Each step leads from one position to the next one, so that a walk goes on over many positions. In the
//! order of the nodes the marks of two positions lie as far apart as there are states: each step would wait
//! for memory that no step shortly before it has used. So the marks of 16 neighbouring positions lie
//! together. With 4,096 states these are 16 KiB, which a processor's first cache holds.

ghost use Rattle.std.specs.Prelude.{◌≡◌, ◌<◌, ◌≤◌, ◌^◌, ℕ, length, Some, slice_get, slice_set, replicate, IfOk};
ghost use Rattle.loop_acceptance.specs.declared.marks.Mark.TheVariants.{New};
ghost use Rattle.loop_acceptance.specs.internal.PackedMarks.{number_of, mark_of, bits_at, mark_at, place_of};
ghost use Rattle.loop_acceptance.specs.internal.Search.{is_new, is_open, is_done};

use crate::pairs::Pairing;
use base_library::NoMemory;
use std::alloc::Global;
use std::marker::Model;

/// What the search knows of a node.
#[derive(Clone, Copy)]
pub(crate) enum Mark {
    /// It was not met.
    New,
    /// The outer search met it and has not left it.
    Open,
    /// The outer search has left it.
    Done,
    /// An inner search has met it after that.
    Red,
}

impl Mark {
    /// Whether it is new.
    pub fn is_new(self) -> bool
        ensures { result ≡ is_new self }
    {
        matches!(self, Mark::New)
    }

    /// Whether it is open.
    pub fn is_open(self) -> bool
        ensures { result ≡ is_open self }
    {
        matches!(self, Mark::Open)
    }

    /// Whether it is done.
    pub fn is_done(self) -> bool
        ensures { result ≡ is_done self }
    {
        matches!(self, Mark::Done)
    }

    /// The number that stands for it, from 0 to 3.
    #[inline(always)]
    fn number(self) -> u8
        ensures { result ≡ number_of self }
    {
        self as u8
    }

    /// The mark that a number from 0 to 3 stands for.
    #[inline(always)]
    fn of_number(number: u8) -> Mark
        ensures { result ≡ mark_of number }
    {
        match number {
            0 => Mark::New,
            1 => Mark::Open,
            2 => Mark::Done,
            _ => Mark::Red,
        }
    }
}

/// A list of marks, each of which takes two bits. A contract sees the list.
#[derive(Drop)]
pub(crate) struct Marks {
    /// Four marks a byte, of which the first one has the lowest bits.
    bytes: Vec<u8>,
    /// How many marks there are.
    count: usize,
    /// How nodes are pairs.
    pairing: Pairing,
}

impl Model for Marks {
    ghost use Rattle.std.specs.Prelude.{List, length, ◌*◌, ◌≤◌};
    ghost use Rattle.loop_acceptance.specs.declared.marks.Mark.{Mark};
    ghost use Rattle.loop_acceptance.specs.internal.PackedMarks.{room_for, marks_in};

    ghost Value = { List Mark };

    ghost view = { λ marks. marks_in marks.pairing.states marks.count marks.bytes.items };

    ghost invariant = { λ marks. room_for marks.pairing.states marks.count ≤ 4 * length marks.bytes.items };
}

impl Marks {
    /// So many marks, which are all new.
    pub fn new(alloc: Global, count: usize, pairing: Pairing) -> Result<Marks, NoMemory>
        requires few { count ≤ 2 ^ 32 }
        requires few_states { pairing.states ≤ 2 ^ 32 }
        ensures { IfOk result (λ marks. marks ≡ replicate count New) }
    {
        let blocks = count / pairing.states / 16 + 1;
        Ok(Marks {
            bytes: vec![in alloc; 0; blocks * pairing.states * 4]?,
            count,
            pairing,
        })
    }

    /// The mark of a node.
    #[inline(always)]
    pub fn get(&self, node: u32) -> Mark
        requires { node < length self.now }
        ensures { slice_get self.now node ≡ Some result }
    {
        let place = place_of(self.pairing, node);
        Mark::of_number(bits_at(self.bytes[place / 4], (place % 4) as u32))
    }

    /// Gives a node another mark.
    #[inline(always)]
    pub fn set(&mut self, node: u32, mark: Mark)
        requires { node < length self.old }
        ensures { self.new ≡ slice_set self.old node mark }
    {
        let place = place_of(self.pairing, node);
        let byte = place / 4;
        self.bytes[byte] = with_mark(self.bytes[byte], (place % 4) as u32, mark);
    }
}

/// The place of a node's mark: blocks of 16 positions follow each other, in a block the states, and of a
/// state the positions.
#[inline(always)]
fn place_of(pairing: Pairing, node: u32) -> usize
    ensures { result ≡ place_of pairing.states node }
{
    let pair = pairing.pair_of(node);
    (pair.position / 16 * pairing.states + pair.state) * 16 + pair.position % 16
}

/// The two bits at a place of a byte, from 0 to 3.
#[inline(always)]
fn bits_at(byte: u8, place: u32) -> u8
    requires { place < 4 }
    ensures { result ≡ bits_at byte place }
{
    byte >> (2 * place) & 3
}

/// The byte with the bits of a mark at a place, from 0 to 3.
#[inline(always)]
fn with_mark(byte: u8, place: u32, mark: Mark) -> u8
    requires { place < 4 }
    ensures there { mark_at result place ≡ mark }
    ensures others { (other : ℕ) → other < 4 → (other ≡ place → ⊥) → mark_at result other ≡ mark_at byte other }
{
    let shift = 2 * place;
    let cleared = byte - (bits_at(byte, place) << shift);
    cleared + (mark.number() << shift)
}
