//! What the grammar of specifications is made of.

/// A reserved word.
#[derive(Clone, Copy)]
pub enum Word {
    /// `assume`
    Assume,
    /// `guarantee`
    Guarantee,
    /// `always`
    Always,
    /// `initially`
    Initially,
    /// `true`
    True,
    /// `false`
    False,
    /// `X`: at the next position.
    X,
    /// `F`: at some position from here on.
    F,
    /// `G`: at every position from here on.
    G,
    /// `U`: until.
    U,
    /// `W`: weak until.
    W,
    /// `R`: release.
    R,
    /// `A`, which no form of the grammar has.
    A,
}

/// An arrow between two formulas.
#[derive(Clone, Copy)]
pub(crate) enum ArrowKind {
    /// `->`
    Single,
    /// `<->`
    Double,
}

/// One of the four lists of formulas of a specification.
#[derive(Clone, Copy)]
pub enum Part {
    /// What is assumed at first.
    AssumeFirst,
    /// What is assumed at every position.
    AssumeAlways,
    /// What is guaranteed at first.
    GuaranteeFirst,
    /// What is guaranteed at every position.
    GuaranteeAlways,
}

/// What closes a form.
#[derive(Clone, Copy)]
pub(crate) enum Closer {
    /// `)`
    Round,
    /// `]`
    Square,
    /// `}`
    Brace,
    /// `=`, behind the parameters of a definition.
    Equals,
    /// `;`, behind what a definition stands for.
    Semicolon,
}
