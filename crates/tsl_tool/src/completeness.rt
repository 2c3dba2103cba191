//! Completeness: laws of the definitions that the contracts cite, which say where a task is answered.

ghost use Rattle.std.specs.Prelude.{◌≡◌, ◌⊎◌, ℕ, List, [], IsTrue};
ghost use Rattle.command_words.specs.declared.task.SynthSizes.{SynthSizes};
ghost use Rattle.command_words.specs.declared.task.Task.{Task};
ghost use Rattle.command_words.specs.declared.task.Task.TheVariants.{Synth};
ghost use Rattle.command_words.specs.Commands.{ParsesTo};
ghost use Rattle.tsl_terms.specs.SpecTree.{SpecTree};
ghost use Rattle.tsl_reader.specs.Spells.{Spells};
ghost use Rattle.program_check.specs.declared.verdict.Limit.{Limit};
ghost use Rattle.refinement_loop.specs.Questions.{HasSolution};
ghost use Rattle.refinement_loop.specs.Outcomes.{IsLargeFor};
ghost use Rattle.tsl_io.specs.Effects.{Effect};
ghost use Rattle.tool_io.specs.declared.reply.Reply.{Reply};
ghost use Rattle.tool_io.specs.declared.status.Status.{Status};
ghost use Rattle.tsl_tool.specs.Answerable.{CanBeAnswered, CanBeChecked, CanBeRun, CanBeRead, NoneFails};
ghost use Rattle.tsl_tool.specs.Answerable.{is_answer_to, is_yes_or_no};
ghost use Rattle.checking_commands.specs.Check.{CheckOutcome};
ghost use Rattle.tsl_tool.specs.Ends.{Ends};
ghost use Rattle.checking_commands.specs.Recheck.{FormulaAndLog, OfParts, RecheckOutcome};
ghost use Rattle.checking_commands.specs.Run.{RunOutcome};
ghost use Rattle.tsl_tool.specs.Tasks.{bound_asked, most_bytes};

use table_interp::one_reading;
use tool_io::Status;
use word_interp::one_reading as one_words_reading;

/// Where the parts of the bytes are spelled and no limit is passed, what `check`, `run` and `recheck`
/// reply is a verdict: yes or no.
pub fn inputs_get_verdicts()
    ensures check { (bound : ℕ) (bytes : List ℕ) (reply : Reply) → CanBeChecked bytes
        → CheckOutcome bound bytes reply → IsTrue (is_yes_or_no reply.status) }
    ensures run { (bytes : List ℕ) (reply : Reply) → CanBeRun bytes → RunOutcome bytes reply
        → IsTrue (is_yes_or_no reply.status) }
    ensures recheck { (bytes : List ℕ) (reply : Reply) → OfParts bytes FormulaAndLog
        → RecheckOutcome bytes reply → IsTrue (is_yes_or_no reply.status) }
{
    one_reading();
    one_words_reading();
}

/// Completeness. Where the words ask for a task, the source tells bytes on which it can be answered, and
/// nothing fails, a run ends with an answer to the task, or memory runs out: `synth` with a program, that
/// there is none or a trace; `check`, `run`, `recheck` and `accepts` with their verdict, `circuit` with a circuit
/// or a verdict, `automaton` with an automaton; `prove` with a proof, that a
/// controller has an annotation or a trace; `gen` with its summary or a trace. `synth` ends with a program
/// or a trace where a controller of the size has an annotation within the bound without windows, and no
/// limit of that question is passed.
pub fn answers_come()
    ensures answer { (words : List (List ℕ)) (task : Task) (bytes : List ℕ) (source out err : Effect)
        (result : Status) → ParsesTo words task → CanBeRead (most_bytes task) source bytes
        → CanBeAnswered task bytes → NoneFails source out err → Ends words source out err result
        → IsTrue (is_answer_to task result) ⊎ (result ≡ Status.Memory) }
    ensures found { (words : List (List ℕ)) (sizes : SynthSizes) (bytes : List ℕ) (spec : SpecTree)
        (source out err : Effect) (result : Status) → ParsesTo words (Synth sizes)
        → CanBeRead (most_bytes (Synth sizes)) source bytes → Spells bytes spec
        → HasSolution spec [] sizes.states (bound_asked sizes.bound)
        → ((limit : Limit) → IsLargeFor spec [] sizes.states (bound_asked sizes.bound) limit → ⊥)
        → NoneFails source out err → Ends words source out err result
        → ((result ≡ Status.Done) ⊎ (result ≡ Status.Spent)) ⊎ (result ≡ Status.Memory) }
{
    one_reading();
    one_words_reading();
}
