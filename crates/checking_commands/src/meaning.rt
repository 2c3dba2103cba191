//! The interpretation that a program runs under, in each style of giving it.

ghost use Rattle.std.specs.Prelude.{◌≡◌, ℕ, ◌+◌, ◌-◌, ◌<◌, ◌≤◌, ◌^◌, length, IsTrue, IfOk, IfErr};
ghost use Rattle.std.specs.List.{list_all};
ghost use Rattle.base_library.specs.Numbers.{IsDistinct};
ghost use Rattle.tsl_terms.specs.declared.names.NameKind.TheVariants.{Signal};
ghost use Rattle.tsl_terms.specs.Name.{is_name};
ghost use Rattle.tsl_terms.specs.FormulaTree.{formula_tree};
ghost use Rattle.program_tree.specs.ProgramView.{program_tree};
ghost use Rattle.tsl_meaning.specs.Interpretation.{IsInterpretation};
ghost use Rattle.tsl_meaning.specs.RunTree.{run_tree};
ghost use Rattle.tsl_meaning.specs.RunLasso.{shape_of, IsJudged};
ghost use Rattle.tsl_meaning.specs.RunOf.{IsRunOf, IsFirstRepetition, AreDifferent};
ghost use Rattle.table_runner.specs.Running.{rows_seen, CanRun};
ghost use Rattle.checking_commands.specs.Run.{SpellsMeaning};
ghost use Rattle.checking_commands.specs.internal.RunView.{interpretation_read, meanings_read, MeansInPrograms, IsRefusedAt, verdict_in};

use crate::parting::Style;
use crate::run_faults::{fault_of_tables, fault_of_words};
use base_library::NoMemory;
use program_tree::Program;
use std::alloc::Global;
use table_interp::{Tables, read_tables};
use table_runner::{RunError, run_closed};
use tsl_meaning::{InputLoop, LoopRun, judge};
use tsl_report::Fault;
use tsl_terms::{Formula, Names};
use word_interp::{Words, read_words};

/// An interpretation that a text gives.
#[derive(Drop)]
pub(crate) enum Meaning {
    /// By tables.
    Tables(Tables),
    /// By operations on machine words.
    Words(Words),
}

/// Why a text gives no interpretation.
#[derive(Drop)]
pub(crate) enum Refused {
    /// It is refused at this fault.
    AtFault(Fault),
    /// Memory ran out.
    NoMemory,
}

impl From<NoMemory> for Refused {
    ghost use Rattle.checking_commands.specs.declared.meaning.Refused.TheVariants.{NoMemory};

    ghost from_gives = { λ _ e. e ≡ NoMemory };

    fn from(_error: NoMemory) -> Refused {
        Refused::NoMemory
    }
}

/// The interpretation that a text of this style spells for the names, with a value at first for each of
/// the cells.
pub(crate) fn read_meaning(
    alloc: Global,
    style: Style,
    text: &[u8],
    names: &Names,
    cells: &[u32],
) -> Result<Meaning, Refused>
    requires text { length text.now < 2 ^ 32 - 1 }
    requires cells { IsTrue (list_all (λ s. is_name names.now s Signal 0) cells.now) }
    requires distinct { IsDistinct cells.now }
    ensures spells { IfOk result (λ meaning. SpellsMeaning style text.now names.now cells.now (interpretation_read meaning)) }
    ensures interprets { IfOk result (λ meaning. IsInterpretation names.now cells.now (interpretation_read meaning)) }
    ensures means { IfOk result (MeansInPrograms names.now cells.now) }
    ensures refused { IfErr result (IsRefusedAt style text.now names.now cells.now) }
{
    match style {
        Style::Tables => read_as_tables(alloc, text, names, cells),
        Style::Words => read_as_words(alloc, text, names, cells),
    }
}

/// The interpretation that a text of tables spells.
fn read_as_tables(
    alloc: Global,
    text: &[u8],
    names: &Names,
    cells: &[u32],
) -> Result<Meaning, Refused>
    requires text { length text.now < 2 ^ 32 - 1 }
    requires cells { IsTrue (list_all (λ s. is_name names.now s Signal 0) cells.now) }
    requires distinct { IsDistinct cells.now }
    ensures spells { IfOk result (λ meaning. SpellsMeaning Style.Tables text.now names.now cells.now (interpretation_read meaning)) }
    ensures interprets { IfOk result (λ meaning. IsInterpretation names.now cells.now (interpretation_read meaning)) }
    ensures means { IfOk result (MeansInPrograms names.now cells.now) }
    ensures refused { IfErr result (IsRefusedAt Style.Tables text.now names.now cells.now) }
{
    match read_tables(alloc, text, names, cells) {
        Ok(tables) => Ok(Meaning::Tables(tables)),
        Err(error) => {
            let fault = fault_of_tables(alloc, text, names, &error)?;
            Err(Refused::AtFault(fault))
        }
    }
}

/// The interpretation that a text of machine words spells.
fn read_as_words(
    alloc: Global,
    text: &[u8],
    names: &Names,
    cells: &[u32],
) -> Result<Meaning, Refused>
    requires text { length text.now < 2 ^ 32 - 1 }
    requires cells { IsTrue (list_all (λ s. is_name names.now s Signal 0) cells.now) }
    requires distinct { IsDistinct cells.now }
    ensures spells { IfOk result (λ meaning. SpellsMeaning Style.Words text.now names.now cells.now (interpretation_read meaning)) }
    ensures interprets { IfOk result (λ meaning. IsInterpretation names.now cells.now (interpretation_read meaning)) }
    ensures means { IfOk result (MeansInPrograms names.now cells.now) }
    ensures refused { IfErr result (IsRefusedAt Style.Words text.now names.now cells.now) }
{
    match read_words(alloc, text, names, cells) {
        Ok(words) => Ok(Meaning::Words(words)),
        Err(error) => {
            let fault = fault_of_words(alloc, text, names, &error)?;
            Err(Refused::AtFault(fault))
        }
    }
}

impl Meaning {
    /// How many values there are.
    pub(crate) fn domain(&self) -> u32
        ensures { result ≡ (interpretation_read self.now).domain }
    {
        match self {
            Meaning::Tables(tables) => tables.domain(),
            Meaning::Words(words) => words.domain(),
        }
    }

    /// The run of a program under it that closes at the first configuration that equals an earlier one.
    pub(crate) fn closed_run(
        &self,
        alloc: Global,
        program: &Program,
        inputs: &InputLoop<u32>,
        limit: u32,
    ) -> Result<LoopRun<u32>, RunError>
        requires can { CanRun (meanings_read self.now) (program_tree program.now) (rows_seen (λ v. v) inputs.now) }
        ensures run { IfOk result (λ run. IsRunOf (meanings_read self.now) (program_tree program.now)
            (rows_seen (λ v. v) inputs.now) (run_tree (λ v. v) run)) }
        ensures first { IfOk result (λ run. IsFirstRepetition (meanings_read self.now) (program_tree program.now)
            (rows_seen (λ v. v) inputs.now) (shape_of (run_tree (λ v. v) run))) }
        ensures within { IfOk result (λ run. run.start + run.length ≤ limit) }
        ensures no_loop { IfErr result (λ e. e ≡ RunError.NoLoop → AreDifferent (meanings_read self.now)
            (program_tree program.now) (rows_seen (λ v. v) inputs.now) (limit + 1)) }
    {
        match self {
            Meaning::Tables(tables) => run_closed(alloc, tables, program, inputs, limit),
            Meaning::Words(words) => run_closed(alloc, words, program, inputs, limit),
        }
    }

    /// Whether a formula holds at the first position of a run under it.
    pub(crate) fn judge(
        &self,
        alloc: Global,
        run: &LoopRun<u32>,
        formula: &Formula,
    ) -> Result<bool, NoMemory>
        requires had { IsJudged (meanings_read self.now) (run_tree (λ v. v) run.now) (formula_tree formula.now) }
        ensures { IfOk result (λ holds.
            holds ≡ verdict_in (meanings_read self.now) (run_tree (λ v. v) run.now) (formula_tree formula.now)) }
    {
        match self {
            Meaning::Tables(tables) => judge(alloc, tables, run, formula),
            Meaning::Words(words) => judge(alloc, words, run, formula),
        }
    }
}
