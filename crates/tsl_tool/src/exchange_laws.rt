//! Laws of the texts that are exchanged with other tools: each function does nothing, and its contract is
//! the law.

ghost use Rattle.std.specs.Prelude.{◌≡◌, ℕ, List, not};
ghost use Rattle.command_words.specs.declared.task.Task.TheVariants.{Accepts};
ghost use Rattle.lasso_text.specs.LetterText.{LoopTree};
ghost use Rattle.tsl_reader.specs.Spells.{Spells};
ghost use Rattle.tool_io.specs.declared.reply.Reply.{Reply};
ghost use Rattle.exchange_commands.specs.Automaton.{IsWrittenAutomaton};
ghost use Rattle.exchange_commands.specs.Accepts.{AcceptsOutcome, verdict_reply};
ghost use Rattle.tsl_tool.specs.Tasks.{AreFewBytes, most_bytes};
ghost use Rattle.tsl_tool.specs.WrittenAutomata.{TellsNegation, AreWithLoop, holds_on};
ghost use Rattle.tsl_terms.specs.SpecTree.{SpecTree};
ghost use Rattle.program_tree.specs.ProgramTree.{ProgramTree};
ghost use Rattle.circuits.specs.Circuits.{CircuitTree};
ghost use Rattle.exchange_commands.specs.Circuit.{IsCircuitOfProgram};
ghost use Rattle.tsl_tool.specs.WrittenCircuits.{RunsAsProgram};

/// From the start, where all latches are false, a circuit that `circuit` writes makes the updates of the
/// program's controller, over any list of valuations, one step after another.
pub fn circuits_run_as_programs()
    ensures { (spec : SpecTree) (program : ProgramTree) (circuit : CircuitTree)
        (made : IsCircuitOfProgram spec program circuit) → RunsAsProgram spec program circuit made }
{}

/// `accepts` reads what `automaton` writes, as an automaton of the negation of the whole formula, and says yes
/// with a loop of letters exactly where the formula fails on the loop, where it reads so many bytes.
pub fn automata_are_read()
    ensures told { (bytes text : List ℕ) (spec : SpecTree) → Spells bytes spec → IsWrittenAutomaton spec text →
        TellsNegation spec text }
    ensures verdict { (bytes text given : List ℕ) (spec : SpecTree) (loop : LoopTree) (reply : Reply) → Spells bytes spec →
        IsWrittenAutomaton spec text → AreWithLoop spec text loop given → AreFewBytes (most_bytes Accepts) given →
        AcceptsOutcome given reply → reply ≡ verdict_reply (not (holds_on spec loop)) }
{}
