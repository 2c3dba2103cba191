//! Laws of the definitions: each function does nothing, and its contract is the law.

ghost use Rattle.std.specs.Prelude.{◌≡◌, ℕ, ◌<◌, ◌^◌, ◌∷◌, List, Some, IsTrue, decimal};
ghost use Rattle.std.specs.List.{list_all};
ghost use Rattle.tsl_text.specs.Lines.{lines, is_ended, fields};
ghost use Rattle.tsl_text.specs.Numbers.{plain_number_in};
ghost use Rattle.tsl_text.specs.Written.{is_line, is_field, text_of_lines, line_of_fields};

/// What is written line by line is read back: lines without line feeds are the lines of the text that they make,
/// and fields without spaces those of the line that they make. So a text is written of at most one list of lines,
/// and a line of at most one list of fields.
#[tactic(auto, using(crate::proofs::LineLaws::lines_made, crate::proofs::LineLaws::ended_made, crate::proofs::FieldLaws::fields_made))]
pub fn written_lines_are_read()
    ensures lines { (ls : List (List ℕ)) → IsTrue (list_all is_line ls) → lines (text_of_lines ls) ≡ ls }
    ensures ended { (ls : List (List ℕ)) → IsTrue (is_ended (text_of_lines ls)) }
    ensures fields { (first : List ℕ) (more : List (List ℕ)) → IsTrue (list_all is_field (first ∷ more))
        → fields (line_of_fields (first ∷ more)) ≡ first ∷ more }
{}

/// A number below 10^18 has exactly one spelling without leading zeros, its decimal text.
#[tactic(auto, using(crate::proofs::NumberLaws::decimal_is_read, crate::proofs::NumberLaws::read_is_decimal))]
pub fn one_decimal()
    ensures read { (n : ℕ) → n < 10 ^ 18 → plain_number_in (decimal n) ≡ Some n }
    ensures spelled { (word : List ℕ) (n : ℕ) → plain_number_in word ≡ Some n → word ≡ decimal n }
{}
