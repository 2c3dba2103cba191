//! Specifications from a text.

ghost use Rattle.std.specs.Prelude.{IsTrue, IfOk};
ghost use Rattle.std.specs.List.{list_all};
ghost use Rattle.tsl_terms.specs.SpecView.{spec_tree};
ghost use Rattle.tsl_terms.specs.WellFormed.{name_fits, SpecFits};

use std::alloc::Global;
use std::test::Fail;
use tsl_reader::read_spec;
use tsl_terms::Spec;

/// The specification that a text spells.
pub fn spec_of(alloc: Global, text: &[u8]) -> Result<Spec, Fail>
    ensures fits { IfOk result (λ spec. SpecFits (spec_tree spec)) }
    ensures names { IfOk result (λ spec. IsTrue (list_all name_fits spec.names)) }
{
    if text.len() >= 1_000_000 {
        return Err("the text of the specification is too long".into());
    }
    match read_spec(alloc, text) {
        Ok(spec) => Ok(spec),
        Err(_) => Err("the specification is refused".into()),
    }
}
