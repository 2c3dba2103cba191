//! Laws of the names of declarations.

ghost use Rattle.std.specs.Prelude.{◌≡◌, ◌<◌, ◌≤◌, ℕ, true, false, not, List, Some, None};
ghost use Rattle.std.specs.Prelude.{length, map, position, slice_get};
ghost use Rattle.std.specs.List.{list_all, AllByRecursion};
ghost use Rattle.tsl_terms.specs.declared.names.NameKind.{NameKind};
ghost use Rattle.tsl_terms.specs.declared.names.NameKind.TheVariants.{Signal};
ghost use Rattle.tsl_terms.specs.Name.{Name, same_kind};
ghost use Rattle.tsl_terms.specs.Clashes.{first_uses};
ghost use Rattle.spec_syntax.specs.Syntax.{Terminal, SectionSyntax, Definition, Declaration};
ghost use Rattle.spec_syntax.specs.Syntax.{sections_among};
ghost use Rattle.spec_syntax.specs.Grammar.{AreSections, AreDeclarations};
ghost use Rattle.definition_expansion.specs.DefinitionView.{named_in};
ghost use Rattle.definition_expansion.specs.Expansion.{expansion_within};
ghost use Rattle.definition_expansion.specs.TextExpansion.{Expands};
ghost use Rattle.definition_expansion.specs.WellUsed.{as_written, AreRanked};
ghost use Rattle.definition_expansion.specs.Uses.{IsOrder};
ghost use Rattle.definition_expansion.specs.Occurrences.{Passing, Occurs};
ghost use Rattle.definition_expansion.specs.SectionExpansion.{expanded_sections, EachFormula};
ghost use Rattle.name_resolution.specs.Heads.{definitions_in, heads_in, heads_size};
ghost use Rattle.name_resolution.specs.Occurrences.{Occurrence, occurrences};
ghost use Rattle.name_resolution.specs.Faults.{is_redefined, has_kind_fault, has_arity_fault};
ghost use Rattle.name_resolution.specs.Faults.{is_head_of, is_deep_use, deepest_level};
ghost use Rattle.name_resolution.specs.WrittenNames.{free_names, IsBelowDepth};
ghost use Rattle.name_resolution.specs.WellDeclared.{RanksFall, IsWellDeclared, UsesFit};
ghost use Rattle.name_resolution.specs.WellDeclared.{IsPlainlyUsed, occurs_plain};
ghost use Rattle.name_resolution.specs.WellDeclared.{heads_of, names_in, AreNamedWell};
ghost use Rattle.name_resolution.specs.WellDeclared.{NoneOnCycle, AreLevels, is_use_too_deep};

/// The names of a text that are no reserved words are, in order, those of its occurrences.
pub fn occurrences_stand_in_order()
    ensures { (heads : List Name) (levels_left : ℕ) (xs own : List Terminal) (ds : List Declaration)
        → AreDeclarations levels_left xs own ds
        → map (λ o. o.text) (occurrences heads ds) ≡ free_names xs }
{}

/// Not more names stand in heads than in the text, and what derives with so many levels nests no deeper.
pub fn names_and_levels_are_few()
    ensures heads { (heads : List Name) (ds : List Declaration)
        → heads_size ds ≤ length (occurrences heads ds) }
    ensures levels { (most levels_left : ℕ) (xs own : List Terminal) (ds : List Declaration) → levels_left < most
        → AreDeclarations levels_left xs own ds → AllByRecursion (IsBelowDepth most) ds }
{}

/// Where no name is redefined, the defined names of a text by first appearance are one for each definition.
pub fn defined_names_are_distinct()
    ensures { (ds : List Declaration) (heads : List Name)
        → position (λ o. is_redefined o.role) (occurrences heads ds) ≡ None
        → first_uses (heads_in ds) ≡ heads_in ds }
{}

/// Where no name of a text is wrong where it stands, and ranks fall along uses, each defined name stands in
/// uses alone, each with as many names as it has parameters, of definitions of a lower rank.
pub fn names_are_used_well()
    ensures declared { (ds : List Declaration) (rank : List ℕ → ℕ) (below : ℕ)
        → let heads = first_uses (heads_in ds) in let all = occurrences heads ds in
        position (λ o. is_redefined o.role) all ≡ None
        → position (has_kind_fault all) all ≡ None
        → position (has_arity_fault heads all) all ≡ None
        → AllByRecursion (RanksFall (named_in (definitions_in ds)) rank below) ds
        → AllByRecursion (IsWellDeclared (named_in (definitions_in ds)) rank below) ds }
    ensures ranked { (ds : List Declaration) (rank : List ℕ → ℕ) (below : ℕ)
        → AllByRecursion (IsWellDeclared (named_in (definitions_in ds)) rank below) ds
        → AreRanked (named_in (definitions_in ds)) rank }
{}

/// Where no name of a text is of a wrong kind or used with a wrong number of names, and no use is too deep,
/// what stands in the place of each use in a section needs no level above the deepest one.
pub fn uses_are_within_levels()
    ensures { (ds : List Declaration) (heads : List Name) (levels : List ℕ)
        → let all = occurrences heads ds in
        position (has_kind_fault all) all ≡ None
        → position (has_arity_fault heads all) all ≡ None
        → position (is_deep_use heads levels) all ≡ None
        → AllByRecursion (UsesFit heads levels) ds }
{}

/// Where no name of a text is of a wrong kind or used with a wrong number of names, each plain name is used
/// as it occurs in the text, and each parameter as a signal.
pub fn plain_names_are_used_as_they_occur()
    ensures { (ds : List Declaration) (rank : List ℕ → ℕ)
        → let heads = first_uses (heads_in ds) in let all = occurrences heads ds in
        position (has_kind_fault all) all ≡ None
        → position (has_arity_fault heads all) all ≡ None
        → AllByRecursion (IsPlainlyUsed all (named_in (definitions_in ds)) rank) ds }
{}

/// Where the names of a text are well, the text expands and the expansion derives within the deepest level
/// where no use is too deep, by the levels that a table says, and only there.
pub fn expansions_are_within_levels()
    ensures fits { (ds : List Declaration) (xs own : List Terminal) (levels : List ℕ)
        → AreNamedWell ds → AreDeclarations deepest_level xs own ds
        → AreLevels (heads_of ds) levels (definitions_in ds)
        → position (is_deep_use (heads_of ds) levels) (names_in ds) ≡ None
        → (ys : List Terminal) × Expands (as_written (named_in (definitions_in ds))) own ys
        × AreSections deepest_level ys
        (expanded_sections (expansion_within (named_in (definitions_in ds)) (length (definitions_in ds)))
        (sections_among ds)) }
    ensures only { (ds : List Declaration) (xs own ys : List Terminal) (rs : List SectionSyntax)
        → AreNamedWell ds → AreDeclarations deepest_level xs own ds
        → Expands (as_written (named_in (definitions_in ds))) own ys
        → AreSections deepest_level ys rs
        → list_all (λ o. not (is_use_too_deep (definitions_in ds) o)) (names_in ds) ≡ true }
{}

/// Where the names of a text are well, each name of what it expands to is used as at some plain occurrence
/// of the text.
pub fn expansions_use_names_as_they_occur()
    ensures { (ds : List Declaration) (levels_left r : ℕ) (xs own ys : List Terminal) (rs : List SectionSyntax)
        → AreNamedWell ds → AreDeclarations levels_left xs own ds
        → Expands (as_written (named_in (definitions_in ds))) own ys → AreSections r ys rs
        → EachFormula (Occurs (Passing (occurs_plain (names_in ds)))) rs }
{}

/// Where no name has a fault of its kind, all plain occurrences of a name are of one kind; and where none
/// has a fault of its number of arguments, they have the same number, unless they are signals.
pub fn plain_names_are_alike()
    ensures kinds { (all : List Occurrence) (x : List ℕ) (kind other : NameKind) (arity more : ℕ)
        → position (has_kind_fault all) all ≡ None
        → occurs_plain all x kind arity ≡ true → occurs_plain all x other more ≡ true
        → kind ≡ other }
    ensures arities { (heads : List Name) (all : List Occurrence) (x : List ℕ) (kind other : NameKind)
        (arity more : ℕ)
        → position (has_arity_fault heads all) all ≡ None
        → same_kind kind Signal ≡ false → same_kind other Signal ≡ false
        → occurs_plain all x kind arity ≡ true → occurs_plain all x other more ≡ true
        → arity ≡ more }
{}

/// Where no name is redefined, definitions that have an order do not reach themselves.
pub fn ordered_definitions_have_no_cycle()
    ensures { (ds : List Declaration) (order : List ℕ)
        → position (λ o. is_redefined o.role) (names_in ds) ≡ None
        → IsOrder (definitions_in ds) order → NoneOnCycle (definitions_in ds) }
{}

/// Where no name is redefined, each definition has a place among the names of the text where its name is
/// defined.
pub fn definitions_have_places()
    ensures { (ds : List Declaration) (heads : List Name)
        → position (λ o. is_redefined o.role) (occurrences heads ds) ≡ None
        → (i : ℕ) (d : Definition) → slice_get (definitions_in ds) i ≡ Some d
        → (at : ℕ) × (position (is_head_of d.name) (occurrences heads ds) ≡ Some at) }
{}
