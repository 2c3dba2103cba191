//! Programs are written in their one spelling.

ghost use Rattle.std.specs.Prelude.{◌≡◌, ◌+◌, ◌∷◌, ◌++◌, ◌≤◌, ◌<◌, ◌^◌, map, flat_map, codes, decimal, length, IsTrue, IfOk, OnOk};
ghost use Rattle.std.specs.List.{list_all};
ghost use Rattle.tsl_terms.specs.TermTree.{term_tree, probe_tree};
ghost use Rattle.tsl_terms.specs.WindowTree.{window_tree};
ghost use Rattle.term_text.specs.TermText.{name_text, probe_text, update_text, is_held, term_is_held};
ghost use Rattle.term_text.specs.WindowText.{window_text};
ghost use Rattle.program_tree.specs.NodeTree.{node_tree};
ghost use Rattle.program_tree.specs.ProgramView.{program_tree};
ghost use Rattle.flow_program.specs.ProgramText.{declarations, updates_text, node_text, nodes_text, states_text, program_text};
ghost use Rattle.program_tree.specs.Writable.{signal_fits, term_is_writable, probe_is_writable, window_is_writable, node_is_writable};
ghost use Rattle.program_tree.specs.Writable.{IsWritable};
ghost use Rattle.flow_program.specs.ProgramText.{ProgramText};

use base_library::NoMemory;
use program_tree::{Node, Program};
use std::alloc::Global;
use term_text::{put_name, put_probe, put_update, put_window};
use tsl_terms::{Names, Probe, Term, Window};
use tsl_text::put_number;

/// The one text that spells the program over the names.
///
/// The names hold each number in its kind and with its arity, and can be written; what has to be an
/// equality in a window is one of the names; terms nest in brackets at most 200 deep; there are at
/// most 64 windows, 65,536 nodes and 64 states.
pub fn write_program(alloc: Global, program: &Program, names: &Names) -> Result<Vec<u8>, NoMemory>
    requires { IsWritable names.now (program_tree program.now) }
    ensures { IfOk result (λ text. ProgramText text.items names.now (program_tree program.now)) }
{
    let mut controlled = Vec::from_slice(alloc, program.cells.as_slice())?;
    controlled.extend_from_slice(program.outputs.as_slice())?;
    let mut out = Vec::from_slice(alloc, b"tslprogram 1\n")?;
    put_declarations(&mut out, names, b"input ", program.inputs.as_slice())?;
    put_declarations(&mut out, names, b"cell ", program.cells.as_slice())?;
    put_declarations(&mut out, names, b"output ", program.outputs.as_slice())?;
    put_windows(&mut out, names, program.windows.as_slice())?;
    put_nodes(&mut out, names, &controlled, program.nodes.as_slice())?;
    put_states(&mut out, program.states.as_slice())?;
    out.extend_from_slice(b"end\n")?;
    Ok(out)
}

/// Appends a line for each signal, with the word and its name.
#[tactic(auto, using(base_library::proofs::Passes::passes_within, base_library::proofs::Lists::written_step))]
fn put_declarations(
    out: &mut Vec<u8>,
    names: &Names,
    word: &[u8],
    ids: &[u32],
) -> Result<(), NoMemory>
    requires { IsTrue (list_all (signal_fits names.now) ids.now) }
    ensures { OnOk result
        (out.new.items ≡ out.old.items ++ declarations word.now names.now ids.now) }
{
    for id in ids {
        put_declaration(out, names, word, *id)?;
    }
    Ok(())
}

/// Appends the line of one signal.
#[tactic(auto, using(crate::proofs::Held::signal_held))]
fn put_declaration(out: &mut Vec<u8>, names: &Names, word: &[u8], id: u32) -> Result<(), NoMemory>
    requires { IsTrue (signal_fits names.now id) }
    ensures { OnOk result
        (out.new.items ≡ out.old.items ++ (word.now ++ name_text names.now id ++ codes "\n")) }
{
    out.extend_from_slice(word)?;
    put_name(out, names, id)?;
    out.extend_from_slice(b"\n")?;
    Ok(())
}

/// Appends a line for each window.
#[tactic(auto, using(base_library::proofs::Lists::written_step, base_library::proofs::Lists::left_at))]
fn put_windows(out: &mut Vec<u8>, names: &Names, windows: &[Window]) -> Result<(), NoMemory>
    requires { IsTrue (list_all (window_is_writable names.now) (map window_tree windows.now)) }
    ensures { OnOk result (out.new.items
        ≡ out.old.items ++ flat_map (window_text names.now) (map window_tree windows.now)) }
{
    for window in windows {
        put_window(out, names, window)?;
    }
    Ok(())
}

/// Appends a line for each node, numbered from 0.
#[tactic(auto, using(base_library::proofs::Passes::map_passes_within, base_library::proofs::Lists::written_step, base_library::proofs::Lists::left_at))]
fn put_nodes(
    out: &mut Vec<u8>,
    names: &Names,
    controlled: &[u32],
    nodes: &[Node],
) -> Result<(), NoMemory>
    requires signals { IsTrue (list_all (signal_fits names.now) controlled.now) }
    requires nodes { IsTrue (list_all (node_is_writable names.now) (map node_tree nodes.now)) }
    ensures { OnOk result
        (out.new.items
        ≡ out.old.items ++ nodes_text names.now controlled.now 0 (map node_tree nodes.now)) }
{
    for (number, node) in nodes.iter().enumerate() {
        put_node(out, names, controlled, number, node)?;
    }
    Ok(())
}

/// Appends the line of a node.
fn put_node(
    out: &mut Vec<u8>,
    names: &Names,
    controlled: &[u32],
    number: usize,
    node: &Node,
) -> Result<(), NoMemory>
    requires signals { IsTrue (list_all (signal_fits names.now) controlled.now) }
    requires node { IsTrue (node_is_writable names.now (node_tree node.now)) }
    ensures { OnOk result
        (out.new.items
        ≡ out.old.items ++ node_text names.now controlled.now number (node_tree node.now)) }
{
    out.extend_from_slice(b"node ")?;
    put_number(out, number as u64)?;
    match node {
        Node::If {
            test,
            then_node,
            else_node,
        } => put_branch(out, names, test, *then_node, *else_node),
        Node::Set { updates, go } => put_assignment(
            out,
            names,
            controlled,
            updates.as_slice(),
            *go,
        ),
    }
}

/// Appends what follows a test's number, to the end of the line.
fn put_branch(
    out: &mut Vec<u8>,
    names: &Names,
    test: &Probe,
    then_node: u32,
    else_node: u32,
) -> Result<(), NoMemory>
    requires { IsTrue (probe_is_writable names.now (probe_tree test.now)) }
    ensures { OnOk result (out.new.items
        ≡ out.old.items ++ (codes " if " ++ probe_text names.now (probe_tree test.now)
        ++ codes " then "
        ++ decimal then_node ++ codes " else " ++ decimal else_node ++ codes "\n")) }
{
    out.extend_from_slice(b" if ")?;
    put_probe(out, names, test)?;
    out.extend_from_slice(b" then ")?;
    put_number(out, u64::from(then_node))?;
    out.extend_from_slice(b" else ")?;
    put_number(out, u64::from(else_node))?;
    out.extend_from_slice(b"\n")?;
    Ok(())
}

/// Appends what follows an assignment's number, to the end of the line.
fn put_assignment(
    out: &mut Vec<u8>,
    names: &Names,
    controlled: &[u32],
    terms: &[Term],
    go: u32,
) -> Result<(), NoMemory>
    requires signals { IsTrue (list_all (signal_fits names.now) controlled.now) }
    requires terms { IsTrue (list_all (term_is_writable names.now) (map term_tree terms.now)) }
    ensures { OnOk result (out.new.items
        ≡ out.old.items
        ++ (codes " set" ++ updates_text names.now controlled.now (map term_tree terms.now)
        ++ codes " go " ++ decimal go ++ codes "\n")) }
{
    out.extend_from_slice(b" set")?;
    put_updates(out, names, controlled, terms)?;
    out.extend_from_slice(b" go ")?;
    put_number(out, u64::from(go))?;
    out.extend_from_slice(b"\n")?;
    Ok(())
}

/// Appends each signal's update, a space before it. The names hold the signals and what stands in the
/// terms.
pub fn put_updates(
    out: &mut Vec<u8>,
    names: &Names,
    signals: &[u32],
    terms: &[Term],
) -> Result<(), NoMemory>
    requires signals { IsTrue (list_all (is_held names.now) signals.now) }
    requires terms { IsTrue (list_all (term_is_held names.now) (map term_tree terms.now)) }
    ensures { OnOk result
        (out.new.items ≡ out.old.items ++ updates_text names.now signals.now (map term_tree terms.now)) }
{
    let mut signals = signals;
    let mut terms = terms;
    while let [signal, more_signals @ ..] = signals {
        let [term, more_terms @ ..] = terms else {
            return Ok(());
        };
        put_spaced_update(out, names, *signal, term)?;
        signals = more_signals;
        terms = more_terms;
    }
    Ok(())
}

/// Appends a space and an update.
fn put_spaced_update(
    out: &mut Vec<u8>,
    names: &Names,
    signal: u32,
    term: &Term,
) -> Result<(), NoMemory>
    requires signal { IsTrue (is_held names.now signal) }
    requires term { IsTrue (term_is_held names.now (term_tree term.now)) }
    ensures { OnOk result (out.new.items
        ≡ out.old.items ++ (codes " " ++ update_text names.now signal (term_tree term.now))) }
{
    out.extend_from_slice(b" ")?;
    put_update(out, names, signal, term)
}

/// Appends a line for each state, numbered from 0.
fn put_states(out: &mut Vec<u8>, states: &[u32]) -> Result<(), NoMemory>
    ensures { OnOk result (out.new.items ≡ out.old.items ++ states_text 0 states.now) }
{
    for (state, node) in states.iter().enumerate() {
        out.extend_from_slice(b"state ")?;
        put_number(out, state as u64)?;
        out.extend_from_slice(b" at ")?;
        put_number(out, u64::from(*node))?;
        out.extend_from_slice(b"\n")?;
    }
    Ok(())
}
