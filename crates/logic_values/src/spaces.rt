//! Spaces.

ghost use Rattle.std.specs.Prelude.{◌≡◌, []};
ghost use Rattle.letter_space.specs.SpaceView.{space_tree};

use base_library::Sequence;
use letter_space::{Space, space_of};
use std::alloc::Global;
use std::test::Fail;
use tsl_terms::Spec;

/// Without predicate terms and without signals.
pub fn no_bits(alloc: Global) -> Space
    ensures { space_tree result ≡ record { predicates = []; controlled = [] } }
{
    Space {
        predicates: Sequence::new(alloc),
        controlled: Sequence::new(alloc),
    }
}

/// The bits of a specification.
pub fn space_of_spec(alloc: Global, spec: &Spec) -> Result<Space, Fail> {
    match space_of(alloc, spec) {
        Ok(space) => Ok(space),
        Err(_) => Err("there are too many bits".into()),
    }
}
