//! The predicate terms of a specification.

ghost use Rattle.std.specs.Prelude.{◌≡◌, ◌∷◌, [], map, IfOk, OnOk};
ghost use Rattle.std.specs.List.{list_any};
ghost use Rattle.tsl_terms.specs.TermTree.{probe_tree};
ghost use Rattle.tsl_terms.specs.AtomView.{atom_tree};
ghost use Rattle.tsl_terms.specs.SameTree.{same_probe_tree};
ghost use Rattle.tsl_terms.specs.SpecView.{spec_tree};
ghost use Rattle.tsl_terms.specs.Predicates.{probe_of, predicates_of};
ghost use Rattle.base_library.specs.Kept.{with_new};

use crate::atom::{AtomRef, atoms_of_spec};
use crate::copy::copy_probe;
use crate::same::same_probe;
use crate::spec::Spec;
use crate::term::Probe;
use base_library::NoMemory;
use std::alloc::Global;

/// The predicate terms of a specification's whole formula, by first appearance from the left, without repeats. It
/// compares each with those before.
pub fn predicates(alloc: Global, spec: &Spec) -> Result<Vec<Probe>, NoMemory>
    ensures { IfOk result
        (λ probes. map probe_tree probes.items ≡ predicates_of (spec_tree spec.now)) }
{
    let atoms = atoms_of_spec(alloc, spec)?;
    let mut probes = Vec::new(alloc);
    for atom in &atoms {
        add_probe_of(alloc, &mut probes, atom)?;
    }
    Ok(probes)
}

/// Adds the probe that an atom tests, where it did not stand before.
fn add_probe_of(alloc: Global, probes: &mut Vec<Probe>, atom: &AtomRef) -> Result<(), NoMemory>
    ensures { OnOk result (map probe_tree probes.new.items
        ≡ with_new same_probe_tree (map probe_tree probes.old.items)
        (probe_of (atom_tree atom.now))) }
{
    match atom {
        AtomRef::Test(probe) => add_probe(alloc, probes, probe),
        AtomRef::Update(_, _) => Ok(()),
    }
}

/// Adds a probe, where it did not stand before.
fn add_probe(alloc: Global, probes: &mut Vec<Probe>, probe: &Probe) -> Result<(), NoMemory>
    ensures { OnOk result (map probe_tree probes.new.items
        ≡ with_new same_probe_tree (map probe_tree probes.old.items)
        (probe_tree probe.now ∷ [])) }
{
    if !is_probe_among(probes, probe) {
        probes.push(copy_probe(alloc, probe)?)?;
    }
    Ok(())
}

/// Whether a probe is among some.
fn is_probe_among(probes: &[Probe], probe: &Probe) -> bool
    ensures { result
        ≡ list_any (λ p. same_probe_tree (probe_tree p) (probe_tree probe.now)) probes.now }
{
    probes.iter().any(|p| same_probe(p, probe))
}
