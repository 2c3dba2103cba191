//! The line of a window.

ghost use Rattle.std.specs.Prelude.{◌≡◌, ◌∷◌, ◌++◌, [], map, flat_map, codes, decimal, option_map, IsTrue, OnOk};
ghost use Rattle.std.specs.List.{list_all};
ghost use Rattle.tsl_text.specs.Division.{BeginsWith};
ghost use Rattle.tsl_terms.specs.TermTree.{probe_tree};
ghost use Rattle.tsl_terms.specs.WindowTree.{window_tree, listed_tree, equated_tree, left_probes};
ghost use Rattle.term_text.specs.TermText.{probe_text, probe_is_held};
ghost use Rattle.term_text.specs.WindowText.{left_text, listed_text, equated_text, window_text, listed_is_held, window_is_held};

use crate::{put, put_probe, put_update};
use base_library::NoMemory;
use tsl_terms::{Equated, Listed, Names, Probe, Window};
use tsl_text::put_number;

/// Appends the line of a window.
#[tactic(auto, using(crate::proofs::Begins::begins_longer, crate::proofs::Held::window_parts))]
pub fn put_window(out: &mut Vec<u8>, names: &Names, window: &Window) -> Result<(), NoMemory>
    requires { IsTrue (window_is_held names.now (window_tree window.now)) }
    ensures front { BeginsWith out.new.items out.old.items }
    ensures text { OnOk result (out.new.items ≡ out.old.items ++ window_text names.now (window_tree window.now)) }
{
    put_sides(out, names, window)?;
    put_listed(out, names, window.updates.as_slice())?;
    put_equated(out, names, window.equalities.as_slice())?;
    put(out, b"\n")?;
    Ok(())
}

/// Appends a window's line up to what it lists.
#[tactic(auto, using(crate::proofs::Begins::begins_longer, base_library::proofs::Passes::list_all_parts))]
fn put_sides(out: &mut Vec<u8>, names: &Names, window: &Window) -> Result<(), NoMemory>
    requires { IsTrue (list_all (probe_is_held names.now)
        (left_probes (window_tree window.now).left ++ (window_tree window.now).right ∷ [])) }
    ensures front { BeginsWith out.new.items out.old.items }
    ensures text { OnOk result (out.new.items ≡ out.old.items
        ++ (codes "window " ++ left_text names.now (window_tree window.now).left window.now.left_at
        ++ codes " is " ++ probe_text names.now (probe_tree window.now.right) ++ codes " at " ++ decimal window.now.length)) }
{
    put_left(out, names, &window.left, window.left_at)?;
    put_placed(out, names, b" is ", &window.right, window.length)?;
    Ok(())
}

/// Appends the first word of a window's line, and its left probe and that one's step, or `true`.
#[tactic(auto, using(crate::proofs::Begins::begins_longer))]
fn put_left(
    out: &mut Vec<u8>,
    names: &Names,
    left: &Option<Probe>,
    step: u32,
) -> Result<(), NoMemory>
    requires { IsTrue (list_all (probe_is_held names.now) (left_probes (option_map probe_tree left.now))) }
    ensures front { BeginsWith out.new.items out.old.items }
    ensures text { OnOk result (out.new.items
        ≡ out.old.items ++ (codes "window " ++ left_text names.now (option_map probe_tree left.now) step)) }
{
    match left {
        None => put(out, b"window true"),
        Some(probe) => put_placed(out, names, b"window ", probe, step),
    }
}

/// Appends a word, a probe and the step that it stands at.
#[tactic(auto, using(crate::proofs::Begins::begins_longer))]
fn put_placed(
    out: &mut Vec<u8>,
    names: &Names,
    word: &[u8],
    probe: &Probe,
    step: u32,
) -> Result<(), NoMemory>
    requires { IsTrue (probe_is_held names.now (probe_tree probe.now)) }
    ensures front { BeginsWith out.new.items out.old.items }
    ensures text { OnOk result (out.new.items
        ≡ out.old.items ++ (word.now ++ probe_text names.now (probe_tree probe.now) ++ codes " at " ++ decimal step)) }
{
    put(out, word)?;
    put_probe(out, names, probe)?;
    put_step(out, step)?;
    Ok(())
}

/// Appends the updates that a window lists.
#[tactic(auto, using(crate::proofs::Begins::begins_longer))]
fn put_listed(out: &mut Vec<u8>, names: &Names, updates: &[Listed]) -> Result<(), NoMemory>
    requires { IsTrue (list_all (listed_is_held names.now) (map listed_tree updates.now)) }
    ensures front { BeginsWith out.new.items out.old.items }
    ensures text { OnOk result (out.new.items ≡ out.old.items ++ flat_map (listed_text names.now) (map listed_tree updates.now)) }
{
    for update in updates {
        put_listed_update(out, names, update)?;
    }
    Ok(())
}

/// Appends the equalities that a window lists.
#[tactic(auto, using(crate::proofs::Begins::begins_longer))]
fn put_equated(out: &mut Vec<u8>, names: &Names, equalities: &[Equated]) -> Result<(), NoMemory>
    requires { IsTrue (list_all (λ e. probe_is_held names.now e.probe) (map equated_tree equalities.now)) }
    ensures front { BeginsWith out.new.items out.old.items }
    ensures text { OnOk result (out.new.items ≡ out.old.items ++ flat_map (equated_text names.now) (map equated_tree equalities.now)) }
{
    for equality in equalities {
        put_placed(out, names, b" when ", &equality.probe, equality.offset)?;
    }
    Ok(())
}

/// Appends one update that a window lists.
#[tactic(auto, using(crate::proofs::Begins::begins_longer))]
fn put_listed_update(out: &mut Vec<u8>, names: &Names, update: &Listed) -> Result<(), NoMemory>
    requires { IsTrue (listed_is_held names.now (listed_tree update.now)) }
    ensures front { BeginsWith out.new.items out.old.items }
    ensures text { OnOk result (out.new.items ≡ out.old.items ++ listed_text names.now (listed_tree update.now)) }
{
    put(out, b" when ")?;
    put_update(out, names, update.signal, &update.term)?;
    put_step(out, update.offset)?;
    Ok(())
}

/// Appends ` at ` and the number of a step.
#[tactic(auto, using(crate::proofs::Begins::begins_itself, crate::proofs::Begins::begins_appended))]
fn put_step(out: &mut Vec<u8>, step: u32) -> Result<(), NoMemory>
    ensures front { BeginsWith out.new.items out.old.items }
    ensures text { OnOk result (out.new.items ≡ out.old.items ++ (codes " at " ++ decimal step)) }
{
    put(out, b" at ")?;
    put_number(out, u64::from(step))?;
    Ok(())
}
