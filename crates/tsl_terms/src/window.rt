//! Windows: assumptions that hold in every run.

use crate::term::{Probe, Term};
use base_library::Sequence;

/// An update that a window lists.
#[derive(Debug, Drop)]
pub struct Listed {
    /// The cell that is updated, by its number.
    pub signal: u32,
    /// The term that it takes.
    pub term: Term,
    /// At which step of the window, from 0.
    pub offset: u32,
}

/// An equality that is listed.
#[derive(Debug, Drop)]
pub struct Equated {
    /// Its predicate and its two arguments.
    pub probe: Probe,
    /// At which step of the window, from 0.
    pub offset: u32,
}

/// A window of a few steps: where the listed updates and equalities hold at their offsets, the left
/// probe at its step is as the right one at the last step. Without a left probe the right one, an
/// equality, holds.
#[derive(Debug, Drop)]
pub struct Window {
    /// The left probe, or none.
    pub left: Option<Probe>,
    /// The left probe's step, from 0, which is 0 where there is no left probe.
    pub left_at: u32,
    /// The right probe, which stands at the last step.
    pub right: Probe,
    /// The number of the last step.
    pub length: u32,
    /// The updates, by rising offset.
    pub updates: Sequence<Listed>,
    /// The equalities, by offset.
    pub equalities: Sequence<Equated>,
}
