//! What holds of the texts of formulas.

ghost use Rattle.formula_text.specs.FormulaText.{WholeFormulasCanBeWritten};

/// The whole formula of a specification whose formulas fit its names can be written.
pub fn whole_formulas_can_be_written()
    ensures { WholeFormulasCanBeWritten }
{}
