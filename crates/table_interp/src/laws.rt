//! Laws of the texts and of what they spell.

ghost use Rattle.std.specs.Prelude.{◌≡◌, ◌≢◌, ℕ, List, Option, IsTrue};
ghost use Rattle.std.specs.List.{list_all};
ghost use Rattle.tsl_terms.specs.declared.names.NameKind.TheVariants.{Signal};
ghost use Rattle.tsl_terms.specs.Name.{Name, is_name};
ghost use Rattle.program_tree.specs.ProgramTree.{ProgramTree};
ghost use Rattle.tsl_meaning.specs.Interpretation.{Interpretation, InputRows, IsInterpretation, IsInputLoop, IsEqualityOf, meanings_in};
ghost use Rattle.table_interp.specs.Meaning.{meanings_of};
ghost use Rattle.table_interp.specs.declared.TableError.{TableError};
ghost use Rattle.table_interp.specs.declared.TableError.TheVariants as table;
ghost use Rattle.table_interp.specs.declared.InputError.{InputError};
ghost use Rattle.table_interp.specs.declared.InputError.TheVariants as input;
ghost use Rattle.table_interp.specs.Tables.{SpellsTables, HasTableCause, IsRefusedAsTables};
ghost use Rattle.table_interp.specs.Inputs.{SpellsInputs, HasInputCause, IsRefusedAsInputs};

/// A text spells at most one interpretation of names with cells, and at most one input loop for inputs.
pub fn one_reading()
    ensures tables { (text : List ℕ) (names : List Name) (cells : List ℕ) (a b : Interpretation) → SpellsTables text names cells a
        → SpellsTables text names cells b → a ≡ b }
    ensures inputs { (text : List ℕ) (names : List Name) (inputs : List ℕ) (domain : ℕ) (a b : InputRows ℕ)
        → SpellsInputs text names inputs domain a → SpellsInputs text names inputs domain b → a ≡ b }
{}

/// What a text spells is an interpretation of the names with the cells, where those are names of signals, and an
/// input loop for the inputs.
pub fn what_is_spelled_has_a_meaning()
    ensures tables { (text : List ℕ) (names : List Name) (cells : List ℕ) (interpretation : Interpretation) →
        IsTrue (list_all (λ s. is_name names s Signal 0) cells) → SpellsTables text names cells interpretation →
        IsInterpretation names cells interpretation }
    ensures inputs { (text : List ℕ) (names : List Name) (inputs : List ℕ) (domain : ℕ) (rows : InputRows ℕ) →
        SpellsInputs text names inputs domain rows → IsInputLoop domain inputs rows }
{}

/// A text has at most one cause of refusal, apart from memory that ran out, and none where it spells what is asked.
pub fn one_cause()
    ensures tables { (text : List ℕ) (names : List Name) (cells : List ℕ) (a b : TableError) →
        a ≢ table.NoMemory → b ≢ table.NoMemory → HasTableCause text names cells a → HasTableCause text names cells b → a ≡ b }
    ensures no_tables { (text : List ℕ) (names : List Name) (cells : List ℕ) (error : TableError) →
        HasTableCause text names cells error → IsRefusedAsTables text names cells error }
    ensures inputs { (text : List ℕ) (names : List Name) (inputs : List ℕ) (domain : ℕ) (a b : InputError) →
        a ≢ input.NoMemory → b ≢ input.NoMemory → HasInputCause text names inputs domain a →
        HasInputCause text names inputs domain b → a ≡ b }
    ensures no_inputs { (text : List ℕ) (names : List Name) (inputs : List ℕ) (domain : ℕ) (error : InputError) →
        HasInputCause text names inputs domain error → IsRefusedAsInputs text names inputs domain error }
{}

/// Tables with the cells of a program, and the number of equality among the names, mean what the program's symbols mean
/// under their interpretation.
pub fn meanings_are_those_of_programs()
    ensures { (names : List Name) (equality : Option ℕ) (program : ProgramTree) (interpretation : Interpretation) →
        IsEqualityOf names equality →
        meanings_of (record { cells = program.cells; equality = equality; interpretation = interpretation })
        ≡ meanings_in names program interpretation }
{}
