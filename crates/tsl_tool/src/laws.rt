//! Laws of the definitions that the contracts cite.

ghost use Rattle.std.specs.Prelude.{◌≡◌, ◌≢◌, ◌↔◌, ◌⊎◌, ◌+◌, ℕ, List, [], Contains, false, None, IsTrue};
ghost use Rattle.std.specs.List.{AllByRecursion};
ghost use Rattle.command_words.specs.declared.task.ProveSizes.{ProveSizes};
ghost use Rattle.command_words.specs.declared.task.SynthSizes.{SynthSizes};
ghost use Rattle.command_words.specs.declared.task.Task.{Task};
ghost use Rattle.command_words.specs.declared.task.Task.TheVariants.{Synth};
ghost use Rattle.command_words.specs.Commands.{ParsesTo};
ghost use Rattle.generator.specs.Generated.{generated_text};
ghost use Rattle.cnf_reader.specs.CnfText.{cnf_answer, too_many_variables, too_many_clauses};
ghost use Rattle.refutation_check.specs.declared.limits.TheConstants.{MOST_VARIABLES, MOST_CLAUSES};
ghost use Rattle.refutation_check.specs.LogText.{log_answer};
ghost use Rattle.tsl_terms.specs.SpecTree.{SpecTree};
ghost use Rattle.tsl_reader.specs.Spells.{Spells};
ghost use Rattle.machines.specs.Rounds.{RoundTree};
ghost use Rattle.program_check.specs.declared.verdict.Limit.{Limit};
ghost use Rattle.program_check.specs.Verdicts.{IsPassed};
ghost use Rattle.refinement_loop.specs.declared.outcome.Bound.TheVariants.{Fixed};
ghost use Rattle.refinement_loop.specs.declared.outcome.Search.{Search};
ghost use Rattle.refinement_loop.specs.Questions.{HasSolution};
ghost use Rattle.refinement_loop.specs.Outcomes.{IsLargeFor, IsLargeAfter};
ghost use Rattle.tsl_meaning.specs.Lasso.{Meets};
ghost use Rattle.tsl_meaning.specs.RunLasso.{shape_of};
ghost use Rattle.tsl_meaning.specs.RunTree.{RunTree};
ghost use Rattle.tsl_meaning.specs.RunOf.{AreDifferent};
ghost use Rattle.tool_io.specs.declared.reply.Reply.{Reply};
ghost use Rattle.tool_io.specs.declared.status.Status.{Status};
ghost use Rattle.tsl_tool.specs.Causes.{Causes};
ghost use Rattle.tsl_io.specs.Effects.{Effect};
ghost use Rattle.tsl_tool.specs.Ends.{Ends};
ghost use Rattle.tsl_tool.specs.Form.{SpellsUpdates};
ghost use Rattle.synthesis_commands.specs.Gen.{GenOutcome};
ghost use Rattle.tsl_tool.specs.Limits.{LimitsAreThese};
ghost use Rattle.tsl_tool.specs.Outcome.{Outcome};
ghost use Rattle.tsl_tool.specs.Promise.{Promise};
ghost use Rattle.tsl_tool.specs.WrittenPrograms.{RunsProgramOf};
ghost use Rattle.synthesis_commands.specs.Prove.{IsProof, ProveOutcome};
ghost use Rattle.command_faults.specs.Refusals.{fault_at_limit};
ghost use Rattle.command_faults.specs.HeadLines.{IsFirstLineAt};
ghost use Rattle.command_faults.specs.Replies.{fault_reply};
ghost use Rattle.checking_commands.specs.Check.{AreCheckParts, CheckInput, CheckOutcome, CheckParts, SpellCheckInput};
ghost use Rattle.checking_commands.specs.Recheck.{IsAccepted, IsRefused, RecheckOutcome, parts_reply, verdict};
ghost use Rattle.checking_commands.specs.Recheck.{head_line, cnf_part};
ghost use Rattle.checking_commands.specs.RunParts.{RunParts, AreParts};
ghost use Rattle.checking_commands.specs.Run.{RunInput, RunOutcome, lasso_of, judged_formulas, verdicts_of, run_reply};
ghost use Rattle.checking_commands.specs.Run.{SpellRunInput, meanings_of_input, most_configurations};
ghost use Rattle.exchange_commands.specs.Circuit.{CircuitOutcome};
ghost use Rattle.exchange_commands.specs.Automaton.{IsPastFor, AutomatonOutcome};
ghost use Rattle.exchange_commands.specs.Accepts.{AcceptsParts, AreAcceptsParts, IsAutomatonFault, AcceptsOutcome};
ghost use Rattle.automaton_text.specs.declared.hoa_error.HoaError.{HoaError};
ghost use Rattle.automaton_text.specs.HoaRefusals.{IsHoaRefusal};
ghost use Rattle.tsl_report.specs.declared.fault.Fault.TheVariants.{Large};
ghost use Rattle.tsl_report.specs.declared.fault.LimitName.{LimitName};
ghost use Rattle.tsl_report.specs.declared.fault.LimitName.TheVariants.{Run as RunLimit, Variables as VariableLimit, Clauses as ClauseLimit};
ghost use Rattle.tool_io.specs.Statuses.{is_answer};
ghost use Rattle.synthesis_commands.specs.Synth.{SynthOutcome};

use table_interp::{one_reading, what_is_spelled_has_a_meaning};
use tool_io::Status;
use word_interp::{
    one_reading as one_words_reading,
    what_is_spelled_has_a_meaning as what_words_spell_has_a_meaning,
};

/// A text spells at most one specification.
pub fn one_specification()
    ensures { (bytes : List ℕ) (a b : SpecTree) → Spells bytes a → Spells bytes b → a ≡ b }
{}

/// A text of the form of plain updates spells the same specification by the grammar.
pub fn plain_updates_are_spelled()
    ensures { (bytes : List ℕ) (spec : SpecTree) → SpellsUpdates bytes spec → Spells bytes spec }
{}

/// Each status of a run has its cause, and each fault that was counted is answered.
pub fn ends_have_causes()
    ensures { (words : List (List ℕ)) (source out err : Effect) (result : Status) →
        Ends words source out err result → Causes words source out err result }
{}

/// The reply of each outcome keeps the promise of the task that the words ask for.
pub fn outcomes_keep_their_promise()
    ensures { (words : List (List ℕ)) (task : Task) (bytes : List ℕ) (reply : Reply) → ParsesTo words task →
        Outcome words bytes reply → Promise task reply.status bytes reply.text }
{}

/// Within the limits of the work, what is replied to a specification that is spelled is an answer: a
/// program, that no controller of the size has an annotation within the bound, or a trace; and for
/// `prove` a proof of that, that one has, or a trace. The limits of `synth` are those of each question
/// that is asked after the rounds before it.
pub fn searches_are_answered()
    ensures synth { (search : Search) (bytes : List ℕ) (spec : SpecTree) (reply : Reply) →
        Spells bytes spec
        → ((limit : Limit) (rounds : List RoundTree) → IsLargeAfter spec search rounds limit → ⊥)
        → SynthOutcome search bytes reply → IsTrue (is_answer reply.status) }
    ensures prove { (sizes : ProveSizes) (bytes : List ℕ) (spec : SpecTree) (reply : Reply) →
        Spells bytes spec → ((limit : Limit) → IsLargeFor spec [] sizes.states (Fixed sizes.bound) limit → ⊥)
        → ProveOutcome sizes bytes reply → IsTrue (is_answer reply.status) }
    ensures generated { (n : ℕ) (spec : SpecTree) (reply : Reply) → Spells (generated_text n) spec
        → ((limit : Limit) → IsLargeFor spec [] n (Fixed n) limit → ⊥) → GenOutcome n reply
        → IsTrue (is_answer reply.status) }
{}

/// Where a limit of the first question is passed, one of its limits is told, by its line alone; for
/// `check` and `circuit` where a limit of the work on their specification and their program is passed, and
/// for `automaton` where one of the work on its specification is. `accepts` tells the first that its
/// automaton passes, whatever follows it, `run` that of configurations where its run closes within none,
/// and `recheck` that of its formula, whatever its log is.
pub fn limits_are_told()
    ensures synth { (search : Search) (bytes : List ℕ) (spec : SpecTree) (reply : Reply) (limit : Limit) →
        Spells bytes spec → IsLargeFor spec [] search.states search.bound limit
        → SynthOutcome search bytes reply
        → (told : Limit) × IsLargeFor spec [] search.states search.bound told
        × (reply ≡ fault_reply (fault_at_limit told)) }
    ensures prove { (sizes : ProveSizes) (bytes : List ℕ) (spec : SpecTree) (reply : Reply) (limit : Limit) →
        Spells bytes spec → IsLargeFor spec [] sizes.states (Fixed sizes.bound) limit
        → ProveOutcome sizes bytes reply → reply.status ≡ Status.Large }
    ensures generated { (n : ℕ) (spec : SpecTree) (reply : Reply) (limit : Limit) → Spells (generated_text n) spec
        → IsLargeFor spec [] n (Fixed n) limit → GenOutcome n reply → reply.status ≡ Status.Large }
    ensures check { (bound : ℕ) (bytes : List ℕ) (parts : CheckParts) (input : CheckInput) (reply : Reply)
        (limit : Limit) → AreCheckParts bytes parts → SpellCheckInput parts input
        → IsPassed input.spec input.program limit → CheckOutcome bound bytes reply
        → (told : Limit) × IsPassed input.spec input.program told × (reply ≡ fault_reply (fault_at_limit told)) }
    ensures circuit { (bound : ℕ) (bytes : List ℕ) (parts : CheckParts) (input : CheckInput) (reply : Reply)
        (limit : Limit) → AreCheckParts bytes parts → SpellCheckInput parts input
        → IsPassed input.spec input.program limit → CircuitOutcome bound bytes reply
        → (told : Limit) × IsPassed input.spec input.program told × (reply ≡ fault_reply (fault_at_limit told)) }
    ensures automaton { (bytes : List ℕ) (spec : SpecTree) (reply : Reply) (limit : Limit) → Spells bytes spec →
        IsPastFor spec limit → AutomatonOutcome bytes reply
        → (told : Limit) × IsPastFor spec told × (reply ≡ fault_reply (fault_at_limit told)) }
    ensures accepts { (bytes : List ℕ) (parts : AcceptsParts) (error : HoaError) (name : LimitName) (most : ℕ)
        (reply : Reply) → AreAcceptsParts bytes parts → IsHoaRefusal error parts.automaton
        → IsAutomatonFault error (Large name most) → AcceptsOutcome bytes reply → reply ≡ fault_reply (Large name most) }
    ensures run { (bytes : List ℕ) (parts : RunParts) (input : RunInput) (reply : Reply) → AreParts bytes parts
        → SpellRunInput parts input
        → AreDifferent (meanings_of_input input) input.program input.rows (most_configurations + 1)
        → RunOutcome bytes reply → reply ≡ fault_reply (Large RunLimit most_configurations) }
    ensures recheck_variables { (bytes : List ℕ) (at : ℕ) (reply : Reply) → IsFirstLineAt bytes head_line at
        → cnf_answer (cnf_part bytes at) ≡ too_many_variables → RecheckOutcome bytes reply
        → reply ≡ fault_reply (Large VariableLimit MOST_VARIABLES) }
    ensures recheck_clauses { (bytes : List ℕ) (at : ℕ) (reply : Reply) → IsFirstLineAt bytes head_line at
        → cnf_answer (cnf_part bytes at) ≡ too_many_clauses → RecheckOutcome bytes reply
        → reply ≡ fault_reply (Large ClauseLimit MOST_CLAUSES) }
{
    one_reading();
    one_words_reading();
}

/// Where a controller of the size has an annotation within the bound without windows, `synth` does not say
/// that there is none, and `prove` does not prove it. Within the limits of that question `synth` writes a
/// program, or its budget is spent.
pub fn controllers_are_not_missed()
    ensures synth { (search : Search) (bytes : List ℕ) (spec : SpecTree) (reply : Reply) →
        Spells bytes spec → HasSolution spec [] search.states search.bound
        → SynthOutcome search bytes reply → reply.status ≢ Status.No }
    ensures found { (search : Search) (bytes : List ℕ) (spec : SpecTree) (reply : Reply) →
        Spells bytes spec → HasSolution spec [] search.states search.bound
        → ((limit : Limit) → IsLargeFor spec [] search.states search.bound limit → ⊥)
        → SynthOutcome search bytes reply → (reply.status ≡ Status.Done) ⊎ (reply.status ≡ Status.Spent) }
    ensures prove { (sizes : ProveSizes) (bytes : List ℕ) (spec : SpecTree) (reply : Reply) →
        Spells bytes spec → HasSolution spec [] sizes.states (Fixed sizes.bound)
        → ProveOutcome sizes bytes reply → reply.status ≢ Status.Done }
    ensures generated { (n : ℕ) (spec : SpecTree) (reply : Reply) → Spells (generated_text n) spec
        → HasSolution spec [] n (Fixed n) → GenOutcome n reply → reply.status ≢ Status.No }
{}

/// `recheck` verifies each text that `prove` writes as a proof, where it reads so many bytes.
pub fn proofs_are_verified()
    ensures { (sizes : ProveSizes) (spec : SpecTree) (text : List ℕ) → IsProof sizes spec text →
        RecheckOutcome text (verdict None) }
{}

/// `recheck` says yes exactly where its parts are a formula and a log that is accepted, and no
/// exactly where they are a formula and a log that is refused.
pub fn verdicts_are_those_of_logs()
    ensures yes { (cnf log : List ℕ) → ((parts_reply (cnf_answer cnf) (log_answer log)).status
        ≡ Status.Done) ↔ IsAccepted cnf log }
    ensures no { (cnf log : List ℕ)
        → ((parts_reply (cnf_answer cnf) (log_answer log)).status ≡ Status.No) ↔ IsRefused cnf log }
{}

/// Where a run closes and its program has the signals of the specification, the status says yes
/// exactly where each formula that is judged holds in it, and no exactly where one of its verdicts
/// is that a formula fails.
pub fn verdicts_are_those_of_runs()
    ensures yes { (input : RunInput) (run : RunTree ℕ)
        → ((run_reply input run).status ≡ Status.Done)
        ↔ AllByRecursion (λ f. Meets (lasso_of input (shape_of run)) f 0) (judged_formulas input) }
    ensures no { (input : RunInput) (run : RunTree ℕ) → ((run_reply input run).status ≡ Status.No)
        ↔ Contains (verdicts_of input (shape_of run)) false }
{}

/// A program that `synth` wrote has no verdict that a formula fails, whether tables or machine words give
/// the interpretation, where it is run with the specification that it was written from, in any text that
/// spells it, or with none.
pub fn written_programs_do_not_fail()
    ensures { (sizes : SynthSizes) (specification text bytes : List ℕ) (reply : Reply) →
        Promise (Synth sizes) Status.Done specification text → RunsProgramOf specification text bytes →
        RunOutcome bytes reply → reply.status ≢ Status.No }
{
    what_is_spelled_has_a_meaning();
    what_words_spell_has_a_meaning();
}

/// The limits of texts, of what they spell, and of the work on it are these numbers.
pub fn limits_are_these()
    ensures { LimitsAreThese }
{}
