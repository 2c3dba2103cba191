//! The planes of the atoms that a formula has more than once.

ghost use Rattle.std.specs.Prelude.{◌≡◌, ℕ, ◌+◌, map, Bool, IfOk, OnOk, IfSome};
ghost use Rattle.tsl_terms.specs.FormulaTree.{Atom, formula_tree};
ghost use Rattle.tsl_terms.specs.AtomView.{atom_tree};
ghost use Rattle.position_planes.specs.Positions.{IsPlaneOf};
ghost use Rattle.tsl_meaning.specs.RunTree.{run_tree};
ghost use Rattle.tsl_meaning.specs.RunLasso.{value_at, run_lasso, HasTruths, IsJudged};
ghost use Rattle.tsl_meaning.specs.internal.SharedAtoms.{same_atom, HavePlanes};
ghost use Rattle.tsl_meaning.specs.internal.Columns.{HaveValues};

use crate::atom_truths::atom_plane;
use crate::columns::RunValues;
use crate::marks::mark_of;
use crate::run::LoopRun;
use base_library::NoMemory;
use indexmap::IndexMap;
use interp_core::Judge;
use std::alloc::Global;
use tsl_terms::{AtomRef, Formula, atoms, same_probe, same_term};

/// An atom, and where it holds.
#[derive(Drop)]
pub(crate) struct SharedAtom<'a> {
    atom: AtomRef<'a>,
    plane: Vec<u64>,
}

/// Atoms that come again, and the place of each by its mark. A mark that came once has no place.
#[derive(Drop)]
pub(crate) struct SharedAtoms<'a> {
    places: IndexMap<u64, Option<usize>>,
    atoms: Vec<SharedAtom<'a>>,
}

/// The atoms that a formula has more than once, each evaluated once.
pub(crate) fn shared_atoms<'a, J: Judge>(
    alloc: Global,
    judge: &J,
    run: &LoopRun<J::Value>,
    values: &RunValues<J::Value>,
    formula: &'a Formula,
) -> Result<SharedAtoms<'a>, NoMemory>
    requires had { IsJudged (J.meanings judge.now) (run_tree J.seen run.now) (formula_tree formula.now) }
    requires values { HaveValues J.seen (map (value_at (run_tree J.seen run.now)) (run_tree J.seen run.now).positions) values.now }
    ensures { IfOk result (λ shared. HavePlanes (run.now.start + run.now.length)
        (run_lasso (J.meanings judge.now) (run_tree J.seen run.now)).holds shared.atoms.items) }
{
    let list = atoms(alloc, formula)?;
    let mut places = IndexMap::new(alloc);
    let mut shared = Vec::new(alloc);
    for atom in &list {
        if comes_again(&mut places, mark_of(*atom), shared.len())? {
            share(alloc, judge, run, values, &mut shared, *atom)?;
        }
    }
    Ok(SharedAtoms {
        places,
        atoms: shared,
    })
}

/// Whether a mark came once before. From then on it has this place.
fn comes_again(
    places: &mut IndexMap<u64, Option<usize>>,
    mark: u64,
    place: usize,
) -> Result<bool, NoMemory> {
    let again = places.contains_key(&mark);
    let placed = place_of(places, mark).is_some();
    if !placed {
        places.insert(mark, if again { Some(place) } else { None })?;
    }
    Ok(again && !placed)
}

/// The place of a mark that came again.
fn place_of(places: &IndexMap<u64, Option<usize>>, mark: u64) -> Option<usize> {
    match places.get(&mark) {
        Some(place) => *place,
        None => None,
    }
}

/// Adds an atom and its plane.
fn share<'a, J: Judge>(
    alloc: Global,
    judge: &J,
    run: &LoopRun<J::Value>,
    values: &RunValues<J::Value>,
    shared: &mut Vec<SharedAtom<'a>>,
    atom: AtomRef<'a>,
) -> Result<(), NoMemory>
    requires had { HasTruths (J.meanings judge.now) (run_tree J.seen run.now) (atom_tree atom) }
    requires values { HaveValues J.seen (map (value_at (run_tree J.seen run.now)) (run_tree J.seen run.now).positions) values.now }
    requires shared { HavePlanes (run.now.start + run.now.length)
        (run_lasso (J.meanings judge.now) (run_tree J.seen run.now)).holds shared.old.items }
    ensures { OnOk result (HavePlanes (run.now.start + run.now.length)
        (run_lasso (J.meanings judge.now) (run_tree J.seen run.now)).holds shared.new.items) }
{
    let plane = atom_plane(alloc, judge, run, values, atom)?;
    shared.push(SharedAtom { atom, plane })?;
    Ok(())
}

/// Where an atom holds, as a plane. It is evaluated where it is not shared.
pub(crate) fn plane_of_atom<J: Judge>(
    alloc: Global,
    judge: &J,
    run: &LoopRun<J::Value>,
    values: &RunValues<J::Value>,
    shared: &SharedAtoms,
    atom: AtomRef,
) -> Result<Vec<u64>, NoMemory>
    requires had { HasTruths (J.meanings judge.now) (run_tree J.seen run.now) (atom_tree atom) }
    requires values { HaveValues J.seen (map (value_at (run_tree J.seen run.now)) (run_tree J.seen run.now).positions) values.now }
    requires shared { HavePlanes (run.now.start + run.now.length)
        (run_lasso (J.meanings judge.now) (run_tree J.seen run.now)).holds shared.now.atoms.items }
    ensures { IfOk result (λ plane. IsPlaneOf (run.now.start + run.now.length)
        (λ i. (run_lasso (J.meanings judge.now) (run_tree J.seen run.now)).holds i (atom_tree atom.entry)) plane.items) }
{
    match shared_plane(shared, atom) {
        Some(plane) => Vec::from_slice(alloc, plane),
        None => atom_plane(alloc, judge, run, values, atom),
    }
}

/// The plane of an atom that is shared.
fn shared_plane<'s>(shared: &'s SharedAtoms, atom: AtomRef) -> Option<&'s [u64]>
    ensures { (n : ℕ) (holds : ℕ → Atom → Bool) → HavePlanes n holds shared.now.atoms.items →
        IfSome result (λ plane. IsPlaneOf n (λ i. holds i (atom_tree atom.entry)) plane.now) }
{
    let place = place_of(&shared.places, mark_of(atom))?;
    let found = shared.atoms.get(place)?;
    if is_same(found.atom, atom) {
        Some(found.plane.as_slice())
    } else {
        None
    }
}

/// Whether two atoms are equal.
fn is_same(a: AtomRef, b: AtomRef) -> bool
    ensures { result ≡ same_atom (atom_tree a.entry) (atom_tree b.entry) }
{
    match (a, b) {
        (AtomRef::Test(p), AtomRef::Test(q)) => same_probe(p, q),
        (AtomRef::Update(r, t), AtomRef::Update(s, u)) => r == s && same_term(t, u),
        _ => false,
    }
}
