//! Laws of the definitions that the contracts cite.

ghost use Rattle.std.specs.Prelude.{◌≡◌, ◌↔◌, ◌≤◌, ℕ, suc, List, length, map};
ghost use Rattle.tsl_text.specs.declared.Token.{Token};
ghost use Rattle.tsl_text.specs.Lexeme.{token_text};
ghost use Rattle.tsl_terms.specs.SpecTree.{SpecTree};
ghost use Rattle.tsl_terms.specs.WellFormed.{SpecFits};
ghost use Rattle.tsl_reader.specs.declared.SpecError.{SpecError};
ghost use Rattle.tsl_reader.specs.declared.SpecError.TheVariants.{Kind, Arity, Defined, Cycle, DeepUse};
ghost use Rattle.spec_syntax.specs.Syntax.{Terminal, SectionSyntax, Declaration, the_section};
ghost use Rattle.spec_syntax.specs.Grammar.{AreSections};
ghost use Rattle.spec_syntax.specs.Texts.{terminals};
ghost use Rattle.tsl_text.specs.Division.{AreTokens};
ghost use Rattle.tsl_terms.specs.Clashes.{alike_in_kind, same_arity, HasNoClash};
ghost use Rattle.definition_expansion.specs.DefinitionView.{named_in};
ghost use Rattle.definition_expansion.specs.TextExpansion.{Expands};
ghost use Rattle.definition_expansion.specs.WellUsed.{as_written};
ghost use Rattle.name_resolution.specs.Heads.{definitions_in};
ghost use Rattle.name_resolution.specs.WellDeclared.{names_in, AreNamedWell};
ghost use Rattle.tsl_reader.specs.Naming.{written_uses};
ghost use Rattle.tsl_reader.specs.Spells.{Spells, Derives, deepest_level};
ghost use Rattle.tsl_reader.specs.Spells.{name_tokens, HasCause, IsOfText};
ghost use Rattle.tsl_reader.specs.Spells.{SpellsNoSpec};
ghost use Rattle.tsl_reader.specs.WrittenClashes.{IsFirstClashAt, HasNoEquals, AreSectionsAlone, HasKindClash};
ghost use Rattle.tsl_reader.specs.WrittenClashes.{HasArityClash};

/// A text spells at most one specification.
pub fn one_specification()
    ensures { (text : List ℕ) (a b : SpecTree) → Spells text a → Spells text b → a ≡ b }
{}

/// A text has at most one cause of refusal, and none where it spells a specification.
#[tactic(auto, using(crate::proofs::OneCause::one_cause, crate::proofs::OneCause::cause_refuses))]
pub fn one_cause()
    ensures one { (text : List ℕ) (a b : SpecError) → IsOfText a → IsOfText b → HasCause text a →
        HasCause text b → a ≡ b }
    ensures none { (text : List ℕ) (error : SpecError) → HasCause text error →
        SpellsNoSpec text error }
{}

/// A specification that a text spells has distinct names that may be written, and its formulas fit them.
pub fn spelled_specifications_fit()
    ensures { (text : List ℕ) (spec : SpecTree) → Spells text spec → SpecFits spec }
{}

/// The tokens of a text that are names and no reserved words are, in order, the names of what it derives
/// from.
#[tactic(auto, using(crate::proofs::UsePlaces::texts_of_names))]
pub fn names_stand_in_order()
    ensures { (text : List ℕ) (tokens : List Token) (own : List Terminal) (ds : List Declaration)
        → Derives text tokens own ds
        → map (λ o. o.text) (names_in ds) ≡ map (token_text text) (name_tokens text tokens) }
{}

/// A text without a definition has no more to it than its sections: their terminals expand to themselves,
/// and no name is wrong where it stands where none clashes with its first use.
#[tactic(auto, using(crate::proofs::WithoutDefinitions::named_well, spec_syntax::proofs::DeclarationLaws::sections_are_all))]
pub fn texts_without_definitions_are_their_sections()
    ensures derived { (text : List ℕ) (tokens : List Token) (ss : List SectionSyntax) → AreTokens text tokens
        → AreSections deepest_level (terminals text tokens) ss
        → Derives text tokens (terminals text tokens) (map the_section ss) }
    ensures named { (ss : List SectionSyntax) → HasNoClash alike_in_kind (written_uses ss)
        → HasNoClash same_arity (written_uses ss) → AreNamedWell (map the_section ss) }
    ensures alone { (ss : List SectionSyntax) (xs : List Terminal)
        → Expands (as_written (named_in (definitions_in (map the_section ss)))) xs xs }
    ensures only { (ss : List SectionSyntax) (xs ys : List Terminal)
        → Expands (as_written (named_in (definitions_in (map the_section ss)))) xs ys → xs ≡ ys }
{}

/// Of a text without a definition, `Kind` tells the first written use of a name that is of another kind than
/// the first use of its name; `Arity`, where there is none, the first with another number of arguments. No
/// name is told as defined before, no definition as one that reaches itself, and no use as too deep.
pub fn clashes_are_those_of_written_uses()
    ensures kind { (text : List ℕ) (tokens : List Token) (ss : List SectionSyntax) (start end : ℕ)
        → AreTokens text tokens → AreSections deepest_level (terminals text tokens) ss
        → (HasCause text (Kind start end) ↔ IsFirstClashAt alike_in_kind text tokens ss start end) }
    ensures arity { (text : List ℕ) (tokens : List Token) (ss : List SectionSyntax) (start end : ℕ)
        → AreTokens text tokens → AreSections deepest_level (terminals text tokens) ss
        → (HasCause text (Arity start end) ↔ (HasNoClash alike_in_kind (written_uses ss)
        × IsFirstClashAt same_arity text tokens ss start end)) }
    ensures defined { (text : List ℕ) (tokens : List Token) (ss : List SectionSyntax) (start end : ℕ)
        → AreTokens text tokens → AreSections deepest_level (terminals text tokens) ss
        → HasCause text (Defined start end) → ⊥ }
    ensures cycle { (text : List ℕ) (tokens : List Token) (ss : List SectionSyntax) (start end : ℕ)
        → AreTokens text tokens → AreSections deepest_level (terminals text tokens) ss
        → HasCause text (Cycle start end) → ⊥ }
    ensures deep_use { (text : List ℕ) (tokens : List Token) (ss : List SectionSyntax) (start end : ℕ)
        → AreTokens text tokens → AreSections deepest_level (terminals text tokens) ss
        → HasCause text (DeepUse start end) → ⊥ }
{}

/// A text without the token `=` has no definition: what it derives from is sections alone, and these derive
/// from all its terminals.
pub fn texts_without_equals_are_their_sections()
    ensures { (text : List ℕ) (tokens : List Token) (own : List Terminal) (ds : List Declaration)
        → HasNoEquals tokens → Derives text tokens own ds
        → AreSectionsAlone deepest_level (terminals text tokens) own ds }
{}

/// Of a text without the token `=`, `Kind` and `Arity` tell the first clash of the written uses, and of
/// definitions nothing is told.
pub fn texts_without_equals_are_refused_by_their_uses()
    ensures kind { (text : List ℕ) (tokens : List Token) (start end : ℕ) → AreTokens text tokens
        → HasNoEquals tokens → (HasCause text (Kind start end) ↔ HasKindClash text tokens start end) }
    ensures arity { (text : List ℕ) (tokens : List Token) (start end : ℕ) → AreTokens text tokens
        → HasNoEquals tokens → (HasCause text (Arity start end) ↔ HasArityClash text tokens start end) }
    ensures defined { (text : List ℕ) (tokens : List Token) (start end : ℕ) → AreTokens text tokens
        → HasNoEquals tokens → HasCause text (Defined start end) → ⊥ }
    ensures cycle { (text : List ℕ) (tokens : List Token) (start end : ℕ) → AreTokens text tokens
        → HasNoEquals tokens → HasCause text (Cycle start end) → ⊥ }
    ensures deep_use { (text : List ℕ) (tokens : List Token) (start end : ℕ) → AreTokens text tokens
        → HasNoEquals tokens → HasCause text (DeepUse start end) → ⊥ }
{}

/// A specification has at most one name more than its text has bytes, whatever its definitions stand for.
#[tactic(auto, using(crate::proofs::FewNames::few_names))]
pub fn names_are_few()
    ensures { (text : List ℕ) (spec : SpecTree) → Spells text spec
        → length spec.names ≤ suc (length text) }
{}
