//! Laws of texts of words and of what they spell.

ghost use Rattle.std.specs.Prelude.{◌≡◌, ◌≢◌, ℕ, List, Option, IsTrue};
ghost use Rattle.std.specs.List.{list_all};
ghost use Rattle.tsl_terms.specs.declared.names.NameKind.TheVariants.{Signal};
ghost use Rattle.tsl_terms.specs.Name.{Name, is_name};
ghost use Rattle.program_tree.specs.ProgramTree.{ProgramTree};
ghost use Rattle.tsl_meaning.specs.Interpretation.{Interpretation, IsInterpretation, IsEqualityOf, meanings_in};
ghost use Rattle.word_interp.specs.Meaning.{meanings_of};
ghost use Rattle.word_interp.specs.declared.WordError.{WordError};
ghost use Rattle.word_interp.specs.declared.WordError.TheVariants.{NoMemory};
ghost use Rattle.word_interp.specs.Words.{SpellsWords, HasWordsCause, IsRefusedAsWords};

/// A text spells at most one interpretation of names with cells.
pub fn one_reading()
    ensures { (text : List ℕ) (names : List Name) (cells : List ℕ) (a b : Interpretation) → SpellsWords text names cells a
        → SpellsWords text names cells b → a ≡ b }
{}

/// What a text spells is an interpretation of the names with the cells, where those are names of signals.
pub fn what_is_spelled_has_a_meaning()
    ensures { (text : List ℕ) (names : List Name) (cells : List ℕ) (interpretation : Interpretation) →
        IsTrue (list_all (λ s. is_name names s Signal 0) cells) → SpellsWords text names cells interpretation →
        IsInterpretation names cells interpretation }
{}

/// A text has at most one cause of refusal, apart from memory that ran out, and none where it spells words.
pub fn one_cause()
    ensures words { (text : List ℕ) (names : List Name) (cells : List ℕ) (a b : WordError) → a ≢ NoMemory → b ≢ NoMemory →
        HasWordsCause text names cells a → HasWordsCause text names cells b → a ≡ b }
    ensures no_words { (text : List ℕ) (names : List Name) (cells : List ℕ) (error : WordError) →
        HasWordsCause text names cells error → IsRefusedAsWords text names cells error }
{}

/// Words with the cells of a program, and the number of equality among the names, mean what the program's symbols mean
/// under their interpretation.
pub fn meanings_are_those_of_programs()
    ensures { (names : List Name) (equality : Option ℕ) (program : ProgramTree) (interpretation : Interpretation) →
        IsEqualityOf names equality →
        meanings_of (record { cells = program.cells; equality = equality; interpretation = interpretation })
        ≡ meanings_in names program interpretation }
{}
