//! What holds of program texts.

ghost use Rattle.std.specs.Prelude.{◌≡◌, ℕ, List};
ghost use Rattle.std.specs.List.{AllByRecursion};
ghost use Rattle.tsl_terms.specs.Name.{Name, AreDistinct};
ghost use Rattle.tsl_terms.specs.Equality.{equality_in};
ghost use Rattle.tsl_terms.specs.Congruence.{IsCongruent};
ghost use Rattle.flow_program.specs.declared.reading.ProgramError.{ProgramError};
ghost use Rattle.program_tree.specs.ProgramTree.{ProgramTree};
ghost use Rattle.flow_program.specs.ProgramText.{ProgramText};
ghost use Rattle.flow_program.specs.Reading.{IsReading, HasProgramCause, IsOfProgramText, GoOnFrom};

/// A text spells at most one program over a list of names in which no text stands twice.
pub fn one_program()
    ensures { (names : List Name) (bytes : List ℕ) (p q : ProgramTree) →
        AreDistinct names → ProgramText bytes names p → ProgramText bytes names q → p ≡ q }
{}

/// A text has at most one reading after given names: one program, and one list of names.
pub fn one_reading()
    ensures { (text : List ℕ) (given : List Name) (p q : ProgramTree) (names more : List Name)
        → AreDistinct given
        → IsReading text given p names → IsReading text given q more → (p ≡ q) × (names ≡ more) }
{}

/// A text that spells a program over some names is read, after the same names, as this program, and
/// no name is added. So what `write_program` gives is read back.
pub fn spelled_programs_are_read()
    ensures { (text : List ℕ) (names : List Name) (p : ProgramTree) → AreDistinct names
        → ProgramText text names p → IsReading text names p names }
{}

/// A text has at most one cause of refusal after given names, and where it has one, it spells no
/// program over names that go on from these.
pub fn one_program_cause()
    ensures one { (text : List ℕ) (given : List Name) (e f : ProgramError)
        → IsOfProgramText e → IsOfProgramText f
        → HasProgramCause text given e → HasProgramCause text given f → e ≡ f }
    ensures none { (text : List ℕ) (given names : List Name) (e : ProgramError) (p : ProgramTree)
        → AreDistinct names
        → GoOnFrom given names
        → IsOfProgramText e → HasProgramCause text given e → ProgramText text names p → ⊥ }
{}

/// Whether the windows of a program text are congruent does not depend on the numbers of its names: those
/// that are so over the names that it was written with are so over the names that it is read with.
pub fn congruence_does_not_depend_on_numbers()
    ensures { (text : List ℕ) (names given more : List Name) (p q : ProgramTree)
        → AreDistinct names → AreDistinct given
        → ProgramText text names p → IsReading text given q more
        → AllByRecursion (IsCongruent p.cells (equality_in names)) p.windows
        → AllByRecursion (IsCongruent q.cells (equality_in more)) q.windows }
{}
