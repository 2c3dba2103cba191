//! The syntax of specifications: what a text is read as, before its names have numbers.
//!
//! - `terminals` gives the terminals of a text's tokens (`specs/Syntax.antt`, `specs/Texts.antt`): a
//!   name that is no reserved word, a reserved word, or a symbol.
//! - The grammar (`specs/Grammar.antt`) is a relation by cases on whole lists of terminals, level by
//!   level: no order of attempts and no lookahead are in it.
//! - `sections` reads terminals as sections, and `declarations` as sections and definitions, with a
//!   bound on levels. The answer is that of the reading functions (`specs/Reading.antt`), which
//!   compute: what is read, or the first fault. What is read keeps its names as they stand in the text
//!   (`specs/SyntaxView.antt`).
//! - Laws, for both: the reading functions read exactly the texts of the grammar; a text derives in one
//!   way; a fault of the form or of a level is the first; a tree, which keeps its brackets, tells its
//!   terminals (`specs/Written.antt`) and how many levels it needs (`specs/Levels.antt`). The sections
//!   of a text derive from the terminals of their own, and a text without a definition is its sections.
//!
//! What its names are and what specification it spells is left to the crate `tsl_reader`.
#![tactic(auto)]

mod fault;
mod formulas;
mod laws;
mod section_reader;
mod syntax;
mod terminal;
mod terms;
mod trees;

pub use fault::ReadFault;
pub use laws::{
    declarations_have_one_reading, declarations_tell_their_names, deep_faults_are_the_first,
    deep_faults_of_declarations_are_the_first, form_faults_are_the_first,
    form_faults_of_declarations_are_the_first, grammar_has_one_reading, reading_meets_declarations,
    reading_meets_the_grammar, sections_stand_alone, trees_tell_their_texts,
};
pub use section_reader::{declarations, sections};
pub use syntax::{Part, Word};
pub use terminal::{Terminal, terminal_at, terminals};
pub use trees::{
    ReadDeclaration, ReadEquation, ReadFormula, ReadFormulas, ReadSection, ReadTerm, ReadTerms,
};
