//! What has a kind and a name.

ghost use Rattle.std.specs.Prelude.{◌≡◌};
ghost use Rattle.table_syntax.specs.View.{text_token_view, entry_view, word_entry_view};
ghost use Rattle.entry_names.specs.Entries.{Subject, subject_of, word_subject_of, column_subject_of};

use table_syntax::{Entry, Given, TextToken, WordEntry};
use tsl_terms::NameKind;

/// What is for a name, as an entry is.
pub trait Named {
    /// What it is for.
    ghost subject: { Self → Subject };

    /// The kind of name that it is for.
    fn kind(&self) -> NameKind
        ensures { result ≡ (subject self.now).kind };

    /// The name that it is for.
    fn name(&self) -> TextToken
        ensures { text_token_view result ≡ (subject self.now).name };
}

impl<'a> Named for Entry<'a> {
    ghost subject = { λ e. subject_of (entry_view e) };

    fn kind(&self) -> NameKind {
        self.kind
    }

    fn name(&self) -> TextToken {
        self.name
    }
}

impl<'a> Named for WordEntry<'a> {
    ghost subject = { λ e. word_subject_of (word_entry_view e) };

    fn kind(&self) -> NameKind {
        match self.given {
            Given::Operation(_) => NameKind::Function,
            Given::Test(_) => NameKind::Predicate,
            Given::Value(_) => NameKind::Signal,
        }
    }

    fn name(&self) -> TextToken {
        self.name
    }
}

impl<'a> Named for TextToken<'a> {
    ghost subject = { λ x. column_subject_of (text_token_view x) };

    fn kind(&self) -> NameKind {
        NameKind::Signal
    }

    fn name(&self) -> TextToken {
        *self
    }
}
