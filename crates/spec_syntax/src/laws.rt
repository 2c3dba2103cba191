//! Laws of the grammar and its reading functions.

ghost use Rattle.std.specs.Prelude.{◌≡◌, ℕ, suc, ◌+◌, ◌≤◌, List, [], ◌∷◌, ◌++◌, length, map, flat_map};
ghost use Rattle.std.specs.Prelude.{Ok, Err};
ghost use Rattle.reader_combinators.specs.Readers.{form, deep};
ghost use Rattle.spec_syntax.specs.Syntax.{Terminal, FormulaSyntax, SectionSyntax, Declaration};
ghost use Rattle.spec_syntax.specs.Syntax.{the_section, sections_among};
ghost use Rattle.spec_syntax.specs.Grammar.{IsFormula, AreSections, AreDeclarations};
ghost use Rattle.spec_syntax.specs.Written.{written, free_texts, section_texts, declaration_texts};
ghost use Rattle.spec_syntax.specs.Levels.{depth};
ghost use Rattle.spec_syntax.specs.Reading.{sections, declarations};
ghost use Rattle.spec_syntax.specs.Texts.{SomeTextBegins, NoTextBegins, IsNoText, IsText};
ghost use Rattle.spec_syntax.specs.Texts.{SomeDeclarationsBegin, NoDeclarationsBegin, AreNoDeclarations};

/// A text of the grammar derives in one way, and it is one with more levels too, in the same way.
#[tactic(auto, using(crate::proofs::ExactSections::one_tree, crate::proofs::ExactSections::more_room))]
pub fn grammar_has_one_reading()
    ensures one { (levels_left : ℕ) (xs : List Terminal) (a b : List SectionSyntax) → AreSections levels_left xs a
        → AreSections levels_left xs b → a ≡ b }
    ensures more { (more levels_left : ℕ) (xs : List Terminal) (a : List SectionSyntax)
        → AreSections levels_left xs a → AreSections (more + levels_left) xs a }
{}

/// The tree of a formula, which keeps its brackets, tells the terminals that it is derived from, and
/// how many levels it needs at least.
#[tactic(auto, using(crate::proofs::Written::formula_is, crate::proofs::Written::formula_fits))]
pub fn trees_tell_their_texts()
    ensures terminals { (levels_left : ℕ) (xs : List Terminal) (a : FormulaSyntax) → IsFormula levels_left xs a
        → xs ≡ written a }
    ensures levels { (levels_left : ℕ) (xs : List Terminal) (a : FormulaSyntax) → IsFormula levels_left xs a
        → depth a ≤ levels_left }
{}

/// The reading functions read exactly the texts of the grammar.
#[tactic(auto, using(crate::proofs::ExactSections::sections_derive, crate::proofs::ExactSections::sections_read))]
pub fn reading_meets_the_grammar()
    ensures derived { (levels_left : ℕ) (xs : List Terminal) (a : List SectionSyntax)
        (rest : List Terminal)
        → sections levels_left xs ≡ Ok (a, rest) → (rest ≡ []) × AreSections levels_left xs a }
    ensures read { (levels_left : ℕ) (xs : List Terminal) (a : List SectionSyntax) → AreSections levels_left xs a
        → sections levels_left xs ≡ Ok (a, []) }
{}

/// A form fault of the reading functions is the first one: some text begins with the terminals before
/// it, and none with those up to and with it, for any number of levels.
pub fn form_faults_are_the_first()
    ensures begins { (levels_left : ℕ) (front rest : List Terminal)
        → sections levels_left (front ++ rest) ≡ Err (form (length rest)) → SomeTextBegins levels_left front }
    ensures stops { (levels_left : ℕ) (front : List Terminal) (x : Terminal) (more : List Terminal)
        → sections levels_left (front ++ x ∷ more) ≡ Err (form (suc (length more)))
        → (any : ℕ) → NoTextBegins any (front ++ x ∷ []) }
    ensures at_end { (levels_left : ℕ) (xs : List Terminal) → sections levels_left xs ≡ Err (form 0)
        → (any : ℕ) → IsNoText any xs }
{}

/// So is a level too many: some text begins with the terminals before it, and none with those up to
/// and with it, but one with two levels more.
pub fn deep_faults_are_the_first()
    ensures begins { (levels_left : ℕ) (front : List Terminal) (x : Terminal) (more : List Terminal)
        → sections levels_left (front ++ x ∷ more) ≡ Err (deep (suc (length more)))
        → SomeTextBegins levels_left front }
    ensures stops { (levels_left : ℕ) (front : List Terminal) (x : Terminal) (more : List Terminal)
        → sections levels_left (front ++ x ∷ more) ≡ Err (deep (suc (length more)))
        → NoTextBegins levels_left (front ++ x ∷ []) }
    ensures goes_on { (levels_left : ℕ) (front : List Terminal) (x : Terminal) (more : List Terminal)
        → sections levels_left (front ++ x ∷ more) ≡ Err (deep (suc (length more)))
        → SomeTextBegins (suc (suc levels_left)) (front ++ x ∷ []) }
{}

/// A text of sections and definitions derives in one way, its sections from one list of terminals of
/// their own; and it is a text with more levels too, in the same way.
#[tactic(auto, using(crate::proofs::DeclarationLaws::one_list, crate::proofs::DeclarationLaws::one_own, crate::proofs::DeclarationLaws::more_room))]
pub fn declarations_have_one_reading()
    ensures one { (levels_left : ℕ) (xs own other : List Terminal) (a b : List Declaration)
        → AreDeclarations levels_left xs own a → AreDeclarations levels_left xs other b → a ≡ b }
    ensures own { (levels_left : ℕ) (xs own other : List Terminal) (a b : List Declaration)
        → AreDeclarations levels_left xs own a → AreDeclarations levels_left xs other b → own ≡ other }
    ensures more { (more levels_left : ℕ) (xs own : List Terminal) (a : List Declaration)
        → AreDeclarations levels_left xs own a → AreDeclarations (more + levels_left) xs own a }
{}

/// The sections of a text derive from the terminals of their own. A text without a definition is its
/// sections, and sections are such a text.
#[tactic(auto, using(crate::proofs::DeclarationLaws::sections_derive, crate::proofs::DeclarationLaws::only_sections, crate::proofs::DeclarationLaws::sections_are_all))]
pub fn sections_stand_alone()
    ensures derived { (levels_left : ℕ) (xs own : List Terminal) (a : List Declaration)
        → AreDeclarations levels_left xs own a → AreSections levels_left own (sections_among a) }
    ensures only { (levels_left : ℕ) (xs own : List Terminal) (a : List SectionSyntax)
        → AreDeclarations levels_left xs own (map the_section a)
        → (own ≡ xs) × AreSections levels_left xs a }
    ensures all { (levels_left : ℕ) (xs : List Terminal) (a : List SectionSyntax) → AreSections levels_left xs a
        → AreDeclarations levels_left xs xs (map the_section a) }
{}

/// What is read of a text tells its names in their order, and so do the sections for the terminals of
/// their own.
#[tactic(auto, using(crate::proofs::DeclarationLaws::all_names, crate::proofs::DeclarationLaws::own_names))]
pub fn declarations_tell_their_names()
    ensures whole { (levels_left : ℕ) (xs own : List Terminal) (a : List Declaration)
        → AreDeclarations levels_left xs own a → free_texts xs ≡ flat_map declaration_texts a }
    ensures own { (levels_left : ℕ) (xs own : List Terminal) (a : List Declaration)
        → AreDeclarations levels_left xs own a
        → free_texts own ≡ flat_map section_texts (sections_among a) }
{}

/// The reading functions read exactly the texts of sections and definitions.
#[tactic(auto, using(crate::proofs::ExactDeclarations::whole_text, crate::proofs::ExactDeclarations::declarations_read))]
pub fn reading_meets_declarations()
    ensures derived { (levels_left : ℕ) (xs : List Terminal) (a : List Declaration) (rest : List Terminal)
        → declarations levels_left xs ≡ Ok (a, rest) → (rest ≡ []) × IsText levels_left xs a }
    ensures read { (levels_left : ℕ) (xs : List Terminal) (a : List Declaration) → IsText levels_left xs a
        → declarations levels_left xs ≡ Ok (a, []) }
{}

/// A form fault is the first one among sections and definitions too.
pub fn form_faults_of_declarations_are_the_first()
    ensures begins { (levels_left : ℕ) (front rest : List Terminal)
        → declarations levels_left (front ++ rest) ≡ Err (form (length rest))
        → SomeDeclarationsBegin levels_left front }
    ensures stops { (levels_left : ℕ) (front : List Terminal) (x : Terminal) (more : List Terminal)
        → declarations levels_left (front ++ x ∷ more) ≡ Err (form (suc (length more)))
        → (any : ℕ) → NoDeclarationsBegin any (front ++ x ∷ []) }
    ensures at_end { (levels_left : ℕ) (xs : List Terminal) → declarations levels_left xs ≡ Err (form 0)
        → (any : ℕ) → AreNoDeclarations any xs }
{}

/// And so is a level too many.
pub fn deep_faults_of_declarations_are_the_first()
    ensures begins { (levels_left : ℕ) (front : List Terminal) (x : Terminal) (more : List Terminal)
        → declarations levels_left (front ++ x ∷ more) ≡ Err (deep (suc (length more)))
        → SomeDeclarationsBegin levels_left front }
    ensures stops { (levels_left : ℕ) (front : List Terminal) (x : Terminal) (more : List Terminal)
        → declarations levels_left (front ++ x ∷ more) ≡ Err (deep (suc (length more)))
        → NoDeclarationsBegin levels_left (front ++ x ∷ []) }
    ensures goes_on { (levels_left : ℕ) (front : List Terminal) (x : Terminal) (more : List Terminal)
        → declarations levels_left (front ++ x ∷ more) ≡ Err (deep (suc (length more)))
        → SomeDeclarationsBegin (suc (suc levels_left)) (front ++ x ∷ []) }
{}
