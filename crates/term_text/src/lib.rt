//! How terms, tests, updates and the lines of windows are written.
//!
//! Each call appends one text to a vector: at Ok the vector is what it was, followed by exactly the
//! text that the crate's definitions give. The one condition is that the list of names holds every
//! number that is written. An `Err` says that memory ran out, and then a part of the text may stand
//! after what the vector was. In every case it begins with what it was. The time is linear in the text. Terms in terms are written by recursion, so their
//! depth has to fit the stack; lists of arguments are gone along by a loop.
#![tactic(auto)]

ghost use Rattle.std.specs.Prelude.{◌≡◌, ◌++◌, codes, IsTrue, OnOk};
ghost use Rattle.tsl_text.specs.Division.{BeginsWith};
ghost use Rattle.tsl_terms.specs.TermTree.{term_tree, term_trees, probe_tree};
ghost use Rattle.term_text.specs.TermText.{name_text, argument_text, applied_text, term_text, arguments_text, application_text, probe_text, update_text, is_held, term_is_held, terms_are_held, probe_is_held};

mod laws;
mod window;

use base_library::NoMemory;
pub use laws::one_spelling;
use tsl_terms::{Names, Probe, Term, TermList};
use tsl_text::put_bytes;
pub use window::put_window;

/// Appends the text of the name with this number.
#[tactic(auto, using(crate::proofs::Begins::begins_itself, crate::proofs::Begins::begins_longer))]
pub fn put_name(out: &mut Vec<u8>, names: &Names, id: u32) -> Result<(), NoMemory>
    requires { IsTrue (is_held names.now id) }
    ensures front { BeginsWith out.new.items out.old.items }
    ensures text { OnOk result (out.new.items ≡ out.old.items ++ name_text names.now id) }
{
    put(out, names.text(id))
}

/// Appends a term: a signal is its name, a constant `c()`, an application `f x (g y)`.
#[tactic(auto, using(crate::proofs::Begins::begins_itself, crate::proofs::Begins::begins_longer))]
#[cycle(terms)]
pub fn put_term(out: &mut Vec<u8>, names: &Names, term: &Term) -> Result<(), NoMemory>
    requires { IsTrue (term_is_held names.now (term_tree term.now)) }
    ensures front { BeginsWith out.new.items out.old.items }
    ensures text { OnOk result (out.new.items ≡ out.old.items ++ term_text names.now (term_tree term.now)) }
{
    match term {
        Term::Signal(signal) => put_name(out, names, *signal),
        Term::Apply(function, arguments) => {
            put_name(out, names, *function)?;
            put_arguments(out, names, arguments)
        }
    }
}

/// Appends an argument, in brackets where it has arguments itself.
#[tactic(auto, using(crate::proofs::Begins::begins_itself, crate::proofs::Begins::begins_longer))]
#[cycle(terms)]
fn put_argument(out: &mut Vec<u8>, names: &Names, term: &Term) -> Result<(), NoMemory>
    requires { IsTrue (term_is_held names.now (term_tree term.now)) }
    ensures front { BeginsWith out.new.items out.old.items }
    ensures text { OnOk result
        (out.new.items ≡ out.old.items ++ argument_text (term_tree term.now) (term_text names.now (term_tree term.now))) }
{
    if let Term::Apply(_, TermList::More(_, _)) = term {
        put(out, b"(")?;
        put_term(out, names, term)?;
        return put(out, b")");
    }
    put_term(out, names, term)
}

/// Appends what follows the name of a function or a predicate: each argument with a space before it,
/// or `()` where there is none.
#[tactic(auto, using(crate::proofs::Begins::begins_itself, crate::proofs::Begins::begins_longer))]
#[cycle(terms)]
fn put_arguments(out: &mut Vec<u8>, names: &Names, arguments: &TermList) -> Result<(), NoMemory>
    requires { IsTrue (terms_are_held names.now (term_trees arguments.now)) }
    ensures front { BeginsWith out.new.items out.old.items }
    ensures text { OnOk result (out.new.items
        ≡ out.old.items ++ applied_text (term_trees arguments.now) (arguments_text names.now (term_trees arguments.now))) }
{
    if let TermList::Empty = arguments {
        return put(out, b"()");
    }
    let mut rest = arguments;
    while let TermList::More(argument, others) = rest {
        put(out, b" ")?;
        put_argument(out, names, argument)?;
        rest = others;
    }
    Ok(())
}

/// Appends a predicate applied to its arguments, without arguments as `p()`.
#[tactic(auto, using(crate::proofs::Begins::begins_itself, crate::proofs::Begins::begins_longer))]
fn put_application(out: &mut Vec<u8>, names: &Names, probe: &Probe) -> Result<(), NoMemory>
    requires { IsTrue (probe_is_held names.now (probe_tree probe.now)) }
    ensures front { BeginsWith out.new.items out.old.items }
    ensures text { OnOk result (out.new.items ≡ out.old.items ++ application_text names.now (probe_tree probe.now)) }
{
    put_name(out, names, probe.predicate)?;
    put_arguments(out, names, &probe.arguments)
}

/// Appends a test. One of a Boolean signal, a test of `?` on a signal, is that signal's name.
#[tactic(auto, using(crate::proofs::Begins::begins_itself, crate::proofs::Begins::begins_longer))]
pub fn put_probe(out: &mut Vec<u8>, names: &Names, probe: &Probe) -> Result<(), NoMemory>
    requires { IsTrue (probe_is_held names.now (probe_tree probe.now)) }
    ensures front { BeginsWith out.new.items out.old.items }
    ensures text { OnOk result (out.new.items ≡ out.old.items ++ probe_text names.now (probe_tree probe.now)) }
{
    if names.text(probe.predicate) == b"?".as_slice() {
        if let TermList::More(argument, rest) = &probe.arguments {
            if let (Term::Signal(signal), TermList::Empty) = (argument.as_ref(), rest.as_ref()) {
                return put_name(out, names, *signal);
            }
        }
    }
    put_application(out, names, probe)
}

/// Appends an update, `[s <- t]`.
#[tactic(auto, using(crate::proofs::Begins::begins_itself, crate::proofs::Begins::begins_longer))]
pub fn put_update(
    out: &mut Vec<u8>,
    names: &Names,
    signal: u32,
    term: &Term,
) -> Result<(), NoMemory>
    requires signal { IsTrue (is_held names.now signal) }
    requires term { IsTrue (term_is_held names.now (term_tree term.now)) }
    ensures front { BeginsWith out.new.items out.old.items }
    ensures text { OnOk result (out.new.items ≡ out.old.items ++ update_text names.now signal (term_tree term.now)) }
{
    put(out, b"[")?;
    put_name(out, names, signal)?;
    put_new_value(out, names, term)
}

/// Appends what an update says of the new value, ` <- t]`.
#[tactic(auto, using(crate::proofs::Begins::begins_itself, crate::proofs::Begins::begins_longer))]
fn put_new_value(out: &mut Vec<u8>, names: &Names, term: &Term) -> Result<(), NoMemory>
    requires { IsTrue (term_is_held names.now (term_tree term.now)) }
    ensures front { BeginsWith out.new.items out.old.items }
    ensures text { OnOk result (out.new.items ≡ out.old.items ++ (codes " <- " ++ term_text names.now (term_tree term.now) ++ codes "]")) }
{
    put(out, b" <- ")?;
    put_term(out, names, term)?;
    put(out, b"]")
}

/// Appends bytes.
#[tactic(auto, using(crate::proofs::Begins::begins_itself, crate::proofs::Begins::begins_appended))]
fn put(out: &mut Vec<u8>, bytes: &[u8]) -> Result<(), NoMemory>
    ensures front { BeginsWith out.new.items out.old.items }
    ensures text { OnOk result (out.new.items ≡ out.old.items ++ bytes.now) }
{
    put_bytes(out, bytes)
}
