//! Windows.

ghost use Rattle.std.specs.Prelude.{◌≡◌, ◌∷◌, [], Some, IfOk};
ghost use Rattle.tsl_terms.specs.TermTree.{signal, no_terms, more_terms, probe_tree};
ghost use Rattle.tsl_terms.specs.WindowTree.{window_tree};

use base_library::{NoMemory, Sequence};
use std::alloc::Global;
use tsl_terms::{Listed, Probe, Term, TermList, Window};

/// A predicate of a signal.
fn probe_of(alloc: Global, predicate: u32, of: u32) -> Result<Probe, NoMemory>
    ensures { IfOk result (λ probe. probe_tree probe
        ≡ record { predicate = predicate; arguments = more_terms (signal of) no_terms }) }
{
    Ok(Probe {
        predicate,
        arguments: TermList::More(
            Box::new(alloc, Term::Signal(of))?,
            Box::new(alloc, TermList::Empty)?,
        ),
    })
}

/// Where `[0 <- 1]` holds now, predicate 2 is of signal 0 at the next step as it is of signal 1 now.
pub fn copying_window(alloc: Global) -> Result<Window, NoMemory>
    ensures { IfOk result (λ w. window_tree w ≡ record {
      left = Some (record { predicate = 2; arguments = more_terms (signal 1) no_terms });
      left_at = 0;
      right = record { predicate = 2; arguments = more_terms (signal 0) no_terms };
      length = 1;
      updates = record { signal = 0; term = signal 1; offset = 0 } ∷ [];
      equalities = [];
    }) }
{
    let update = Listed {
        signal: 0,
        term: Term::Signal(1),
        offset: 0,
    };
    Ok(Window {
        left: Some(probe_of(alloc, 2, 1)?),
        left_at: 0,
        right: probe_of(alloc, 2, 0)?,
        length: 1,
        updates: Sequence::from_vec(vec![in alloc; update]?),
        equalities: Sequence::new(alloc),
    })
}
