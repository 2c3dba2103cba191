//! Laws of the three texts.

ghost use Rattle.std.specs.Prelude.{◌≡◌, ◌≢◌, ℕ, List};
ghost use Rattle.table_syntax.specs.Syntax.{TablesSyntax, WordsSyntax, InputsSyntax};
ghost use Rattle.table_syntax.specs.Grammar.{IsTables, IsWords, IsInputs};
ghost use Rattle.table_syntax.specs.Forms.{IsRead, HasTextFault};
ghost use Rattle.table_syntax.specs.declared.forms.TextFault.{TextFault};
ghost use Rattle.table_syntax.specs.declared.forms.TextFault.TheVariants.{NoMemory};

/// A text derives from at most one thing by each of the grammars.
pub fn one_form()
    ensures tables { (text : List ℕ) (a b : TablesSyntax) → IsRead IsTables text a → IsRead IsTables text b → a ≡ b }
    ensures words { (text : List ℕ) (a b : WordsSyntax) → IsRead IsWords text a → IsRead IsWords text b → a ≡ b }
    ensures inputs { (text : List ℕ) (a b : InputsSyntax) → IsRead IsInputs text a → IsRead IsInputs text b → a ≡ b }
{}

/// A text has at most one fault, apart from memory that ran out, and none where it derives from something.
pub fn one_fault()
    ensures tables { (text : List ℕ) (a b : TextFault) → a ≢ NoMemory → b ≢ NoMemory → HasTextFault IsTables text a →
        HasTextFault IsTables text b → a ≡ b }
    ensures no_tables { (text : List ℕ) (fault : TextFault) → fault ≢ NoMemory → HasTextFault IsTables text fault →
        (given : TablesSyntax) → IsRead IsTables text given → ⊥ }
    ensures words { (text : List ℕ) (a b : TextFault) → a ≢ NoMemory → b ≢ NoMemory → HasTextFault IsWords text a →
        HasTextFault IsWords text b → a ≡ b }
    ensures no_words { (text : List ℕ) (fault : TextFault) → fault ≢ NoMemory → HasTextFault IsWords text fault →
        (given : WordsSyntax) → IsRead IsWords text given → ⊥ }
    ensures inputs { (text : List ℕ) (a b : TextFault) → a ≢ NoMemory → b ≢ NoMemory → HasTextFault IsInputs text a →
        HasTextFault IsInputs text b → a ≡ b }
    ensures no_inputs { (text : List ℕ) (fault : TextFault) → fault ≢ NoMemory → HasTextFault IsInputs text fault →
        (given : InputsSyntax) → IsRead IsInputs text given → ⊥ }
{}
