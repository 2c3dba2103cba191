//! Which window of a program is refused.

ghost use Rattle.std.specs.Prelude.{◌≡◌, ◌<◌, ◌^◌, true, not, is_some, length, map, position, IfOk, IfSome, IfNone};
ghost use Rattle.std.specs.Option.{option_map_or};
ghost use Rattle.std.specs.List.{list_all};
ghost use Rattle.tsl_terms.specs.TermTree.{term_tree, probe_tree};
ghost use Rattle.tsl_terms.specs.SpecView.{spec_tree};
ghost use Rattle.tsl_terms.specs.WindowTree.{window_tree, window_probes};
ghost use Rattle.program_tree.specs.ProgramView.{program_tree};
ghost use Rattle.letter_space.specs.SpaceView.{space_tree};
ghost use Rattle.letter_space.specs.Bits.{bit_of_probe, bit_of_update};
ghost use Rattle.program_check.specs.Verdicts.{window_has_bits, AreSound, IsUnsoundAt};

use base_library::NoMemory;
use letter_space::Space;
use program_tree::Program;
use std::alloc::Global;
use term_congruence::congruent;
use tsl_terms::{Equated, Listed, Probe, Spec, Window, equality_of};

/// The first window with a probe that is no predicate term, or with an update that is no choice, if there is one.
pub(crate) fn foreign_window(program: &Program, space: &Space) -> Option<u32>
    requires { length program.now.windows < 2 ^ 32 }
    ensures { result ≡ position (λ w. not (window_has_bits (space_tree space.now) w)) (map window_tree program.now.windows) }
{
    let place = first_foreign(program.windows.as_slice(), space)?;
    Some(place as u32)
}

/// The place of the first window that lacks bits.
fn first_foreign(windows: &[Window], space: &Space) -> Option<usize>
    ensures { result ≡ position (λ w. not (window_has_bits (space_tree space.now) (window_tree w))) windows.now }
{
    windows.iter().position(|window| !has_bits(space, window))
}

/// Whether the probes of a window are predicate terms, and its updates choices.
fn has_bits(space: &Space, window: &Window) -> bool
    ensures { result ≡ window_has_bits (space_tree space.now) (window_tree window.now) }
{
    has_tests(space, window) && are_choices(space, window.updates.as_slice())
}

/// Whether the probes of a window are predicate terms.
fn has_tests(space: &Space, window: &Window) -> bool
    ensures { result ≡ list_all (λ p. is_some (bit_of_probe (space_tree space.now) p)) (window_probes (window_tree window.now)) }
{
    are_tests(space, window.equalities.as_slice())
        && is_test_if_some(space, &window.left)
        && is_test(space, &window.right)
}

/// Whether listed equalities are predicate terms.
fn are_tests(space: &Space, equalities: &[Equated]) -> bool
    ensures { result ≡ list_all (λ e. is_some (bit_of_probe (space_tree space.now) (probe_tree e.probe))) equalities.now }
{
    equalities
        .iter()
        .all(|equality| is_test(space, &equality.probe))
}

/// Whether a probe is a predicate term, or there is none.
fn is_test_if_some(space: &Space, probe: &Option<Probe>) -> bool
    ensures { result ≡ option_map_or (λ p. is_some (bit_of_probe (space_tree space.now) (probe_tree p))) probe.now true }
{
    match probe {
        Some(probe) => is_test(space, probe),
        None => true,
    }
}

/// Whether a probe is a predicate term.
fn is_test(space: &Space, probe: &Probe) -> bool
    ensures { result ≡ is_some (bit_of_probe (space_tree space.now) (probe_tree probe.now)) }
{
    space.test_bit(probe).is_some()
}

/// Whether listed updates are choices.
fn are_choices(space: &Space, updates: &[Listed]) -> bool
    ensures { result ≡ list_all (λ u. is_some (bit_of_update (space_tree space.now) u.signal (term_tree u.term))) updates.now }
{
    updates.iter().all(|update| is_choice(space, update))
}

/// Whether a listed update is a choice.
fn is_choice(space: &Space, update: &Listed) -> bool
    ensures { result ≡ is_some (bit_of_update (space_tree space.now) update.now.signal (term_tree update.now.term)) }
{
    space.update_bit(update.signal, &update.term).is_some()
}

/// The first window that is not congruent, with the equality of the specification's names, if there is one.
pub(crate) fn unsound_window(
    alloc: Global,
    spec: &Spec,
    program: &Program,
) -> Result<Option<u32>, NoMemory>
    requires { length program.now.windows < 2 ^ 32 }
    ensures none { IfOk result (λ found. IfNone found (AreSound (spec_tree spec.now) (program_tree program.now))) }
    ensures some { IfOk result (λ found. IfSome found (IsUnsoundAt (spec_tree spec.now) (program_tree program.now))) }
{
    let equality = equality_of(&spec.names);
    let cells = program.cells.as_slice();
    for (place, window) in program.windows.as_slice().iter().enumerate() {
        let is_congruent = congruent(alloc, window, cells, equality)?;
        if !is_congruent {
            return Ok(Some(place as u32));
        }
    }
    Ok(None)
}
