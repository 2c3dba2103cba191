//! Laws of expansion.

ghost use Rattle.std.specs.Prelude.{◌≡◌, ◌<◌, ◌≤◌, ◌+◌, ℕ, Bool, List, Option, Some, None, IsTrue, min, option_map};
ghost use Rattle.tsl_terms.specs.declared.names.NameKind.{NameKind};
ghost use Rattle.spec_syntax.specs.Syntax.{Terminal, FormulaSyntax};
ghost use Rattle.spec_syntax.specs.Written.{written};
ghost use Rattle.spec_syntax.specs.Levels.{depth};
ghost use Rattle.spec_syntax.specs.Syntax.{Definition};
ghost use Rattle.definition_expansion.specs.Expansion.{expanded, expansion_within};
ghost use Rattle.definition_expansion.specs.TextExpansion.{DefinitionText, Expands};
ghost use Rattle.definition_expansion.specs.WellUsed.{as_written, UsesWell, AreRanked, IsFree};
ghost use Rattle.definition_expansion.specs.Folds.{Fold, fold, fold_by, number_within, depths};
ghost use Rattle.definition_expansion.specs.Folds.{node_counts, capped};
ghost use Rattle.definition_expansion.specs.Derivable.{Derivable, FormulaDerives, BodiesDerive};
ghost use Rattle.spec_syntax.specs.Syntax.{SectionSyntax};
ghost use Rattle.spec_syntax.specs.Grammar.{AreSections};
ghost use Rattle.definition_expansion.specs.SectionExpansion.{expanded_sections, SectionsUseWell, FormulasDerive};
ghost use Rattle.definition_expansion.specs.UseLevels.{uses_at, AreWithin};
ghost use Rattle.definition_expansion.specs.Occurrences.{Passing, Occurs, Plain, InBody};
ghost use Rattle.definition_expansion.specs.Reaching.{Reaches, Among, UsesOne, Using};

/// A text expands to at most one text.
pub fn text_has_one_expansion()
    ensures { (named : List ℕ → Option DefinitionText) (xs ys zs : List Terminal)
        → Expands named xs ys → Expands named xs zs → ys ≡ zs }
{}

/// Where each definition uses only those of a lower rank, the tree in which each use is replaced is written
/// as the text expands.
pub fn tree_is_written_as_the_expansion()
    ensures { (named : List ℕ → Option Definition) (rank : List ℕ → ℕ) → AreRanked named rank
        → (n : ℕ) (a : FormulaSyntax) → UsesWell named rank n a
        → Expands (as_written named) (written a)
        (written (expanded (expansion_within named n) (λ x. x) a)) }
{}

/// A number of an expansion, as its levels or its nodes, is computed from one number for each definition.
/// In the order of ranks each of these comes from those before it, and numbers of nodes and of levels may
/// stop at a bound.
pub fn numbers_are_told_without_expansion()
    ensures whole { (F : Fold) (named : List ℕ → Option Definition) (n : ℕ) (a : FormulaSyntax)
        → fold F (expanded (expansion_within named n) (λ x. x) a)
        ≡ fold_by F (number_within F named n) a }
    ensures next { (F : Fold) (named : List ℕ → Option Definition) (rank : List ℕ → ℕ) → AreRanked named rank
        → (n : ℕ) (x : List ℕ) (d : Definition) (table : List ℕ → Option ℕ)
        → named x ≡ Some d → rank x < n
        → ((y : List ℕ) → rank y < rank x → table y ≡ number_within F named n y)
        → ((y : List ℕ) → IsFree named rank y → table y ≡ None)
        → Some (F.of_group (fold_by F table d.body)) ≡ number_within F named n x }
    ensures stopped { (most : ℕ) (exact stopped : List ℕ → Option ℕ)
        → ((x : List ℕ) → stopped x ≡ option_map (min most) (exact x)) → (a : FormulaSyntax)
        → fold_by (capped most node_counts) stopped a ≡ min most (fold_by node_counts exact a) }
    ensures stopped_levels { (most : ℕ) (exact stopped : List ℕ → Option ℕ)
        → ((x : List ℕ) → stopped x ≡ option_map (min most) (exact x)) → (a : FormulaSyntax)
        → min most (fold_by depths stopped a) ≡ min most (fold_by depths exact a) }
{}

/// Where the bodies of definitions derive, the expansion of a formula that does derives with exactly the
/// levels that are told without making it. And one that is within the levels as it is written is so expanded
/// exactly where each of its uses is.
pub fn levels_are_told_without_expansion()
    ensures derives { (named : List ℕ → Option Definition) → BodiesDerive named
        → (n : ℕ) (a : FormulaSyntax) → Derivable a → (levels_left : ℕ)
        → fold_by depths (number_within depths named n) a ≤ levels_left
        → FormulaDerives levels_left (expanded (expansion_within named n) (λ x. x) a) }
    ensures needs { (named : List ℕ → Option Definition) → BodiesDerive named
        → (n : ℕ) (a : FormulaSyntax) (levels_left : ℕ)
        → FormulaDerives levels_left (expanded (expansion_within named n) (λ x. x) a)
        → fold_by depths (number_within depths named n) a ≤ levels_left }
    ensures uses { (deepest : ℕ) (needs : List ℕ → Option ℕ) (level : ℕ) (a : FormulaSyntax)
        → level + fold_by depths needs a ≤ deepest → AreWithin deepest needs (uses_at level a) }
    ensures within { (deepest : ℕ) (needs : List ℕ → Option ℕ) (level : ℕ) (a : FormulaSyntax)
        → level + depth a ≤ deepest → AreWithin deepest needs (uses_at level a)
        → level + fold_by depths needs a ≤ deepest }
{}

/// What a name is used as in an expansion it is used as in the text, in a formula or in a body, where a
/// parameter is a signal of its own definition alone.
pub fn expansion_uses_no_name_in_a_new_way()
    ensures { (named : List ℕ → Option Definition) (rank : List ℕ → ℕ)
        (P : List ℕ → NameKind → ℕ → Bool)
        → AreRanked named rank
        → ((x : List ℕ) (d : Definition) → named x ≡ Some d
        → Plain (InBody (Passing P) d.parameters) named rank d.body)
        → (n : ℕ) (a : FormulaSyntax) → UsesWell named rank n a → Plain (Passing P) named rank a
        → Occurs (Passing P) (expanded (expansion_within named n) (λ x. x) a) }
{}

/// Where each of some names uses one of them, one of them reaches itself. Where ranks fall along uses, none
/// does.
pub fn cycles_are_there()
    ensures some { (names : List (List ℕ)) (uses : List ℕ → List ℕ → Bool) (x : List ℕ) → Among x names
        → ((y : List ℕ) → Among y names → UsesOne (Using uses) names y)
        → (z : List ℕ) × Among z names × Reaches (Using uses) z z }
    ensures none { (uses : List ℕ → List ℕ → Bool) (rank : List ℕ → ℕ)
        → ((x y : List ℕ) → IsTrue (uses x y) → rank y < rank x)
        → (x : List ℕ) → Reaches (Using uses) x x → ⊥ }
{}

/// Where each definition uses only those of a lower rank, the text of sections expands to that of the
/// sections in which each use is replaced, where each formula of these derives with some levels; and what it
/// expands to derives from no other sections, with levels enough for each of their formulas.
pub fn sections_expand_as_their_formulas()
    ensures expands { (named : List ℕ → Option Definition) (rank : List ℕ → ℕ) → AreRanked named rank
        → (n levels_left r : ℕ) (xs : List Terminal) (ss : List SectionSyntax) → AreSections levels_left xs ss
        → SectionsUseWell named rank n ss
        → FormulasDerive r (expanded_sections (expansion_within named n) ss)
        → (ys : List Terminal) × Expands (as_written named) xs ys
        × AreSections r ys (expanded_sections (expansion_within named n) ss) }
    ensures alone { (named : List ℕ → Option Definition) (rank : List ℕ → ℕ) → AreRanked named rank
        → BodiesDerive named
        → (n levels_left r : ℕ) (xs ys : List Terminal) (ss rs : List SectionSyntax) → AreSections levels_left xs ss
        → SectionsUseWell named rank n ss
        → Expands (as_written named) xs ys → AreSections r ys rs
        → (rs ≡ expanded_sections (expansion_within named n) ss)
        × FormulasDerive r (expanded_sections (expansion_within named n) ss) }
{}
