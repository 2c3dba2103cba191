//! The texts of windows and of the rounds of a search.

ghost use Rattle.std.specs.Prelude.{◌≡◌, ◌++◌, map, IsTrue, IfOk, OnOk};
ghost use Rattle.tsl_terms.specs.WindowTree.{window_tree};
ghost use Rattle.term_text.specs.WindowText.{window_text, window_is_held};
ghost use Rattle.letter_space.specs.SpaceView.{space_tree};
ghost use Rattle.machines.specs.MachineView.{round_tree};
ghost use Rattle.environment_text.specs.EnvironmentText.{space_is_held};
ghost use Rattle.environment_text.specs.RoundTexts.{round_text, rounds_text, RoundIsHeld, RoundsAreHeld};

use crate::environment::{put_count, put_environment};
use base_library::NoMemory;
use letter_space::Space;
use machines::Round;
use std::alloc::Global;
use term_text::put_window;
use tsl_terms::{Names, Window};

/// The line of a window.
///
/// The names hold each number of the window.
pub fn window_text(alloc: Global, names: &Names, window: &Window) -> Result<Vec<u8>, NoMemory>
    requires { IsTrue (window_is_held names.now (window_tree window.now)) }
    ensures { IfOk result (λ text. text.items ≡ window_text names.now (window_tree window.now)) }
{
    let mut out = Vec::new(alloc);
    put_window(&mut out, names, window)?;
    Ok(out)
}

/// The text of rounds, numbered from 0: for each its environment, and the line of its window.
///
/// The names hold each number of the space's terms and of the windows, and each environment fits
/// the space.
pub fn rounds_text(
    alloc: Global,
    names: &Names,
    space: &Space,
    rounds: &[Round],
) -> Result<Vec<u8>, NoMemory>
    requires { RoundsAreHeld names.now (space_tree space.now) (map round_tree rounds.now) }
    ensures { IfOk result (λ text. text.items
        ≡ rounds_text names.now (space_tree space.now) (map round_tree rounds.now)) }
{
    let mut out = Vec::new(alloc);
    put_rounds(&mut out, names, space, rounds)?;
    Ok(out)
}

/// Appends the text of rounds.
pub fn put_rounds(
    out: &mut Vec<u8>,
    names: &Names,
    space: &Space,
    rounds: &[Round],
) -> Result<(), NoMemory>
    requires { RoundsAreHeld names.now (space_tree space.now) (map round_tree rounds.now) }
    ensures { OnOk result (out.new.items ≡ out.old.items
        ++ rounds_text names.now (space_tree space.now) (map round_tree rounds.now)) }
{
    for (number, round) in rounds.iter().enumerate() {
        put_round(out, names, space, number, round)?;
    }
    Ok(())
}

/// Appends the text of a round: its number, its environment, and the line of its window.
fn put_round(
    out: &mut Vec<u8>,
    names: &Names,
    space: &Space,
    number: usize,
    round: &Round,
) -> Result<(), NoMemory>
    requires held { IsTrue (space_is_held names.now (space_tree space.now)) }
    requires round { RoundIsHeld names.now (space_tree space.now) (round_tree round.now) }
    ensures { OnOk result (out.new.items ≡ out.old.items
        ++ round_text names.now (space_tree space.now) number (round_tree round.now)) }
{
    put_count(out, b"round", number as u64)?;
    put_environment(out, names, space, &round.environment)?;
    put_window(out, names, &round.window)
}
