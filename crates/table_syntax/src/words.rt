//! What the entries of a text of words give.

use crate::text_tokens::TextToken;

/// What a function computes on words of a width: with b bits all values are taken modulo 2 to the power b.
#[derive(Clone, Copy)]
pub enum Operation {
    /// The sum of two words.
    Add,
    /// The first word minus the second.
    Sub,
    /// The product of two words.
    Mul,
    /// Two words bit by bit: 1 where both are.
    And,
    /// Two words bit by bit: 1 where one of them is.
    Or,
    /// Two words bit by bit: 1 where just one of them is.
    Xor,
    /// A word with every bit changed.
    Not,
    /// A word plus 1.
    Inc,
    /// A word minus 1.
    Dec,
    /// A word times 2.
    Shl,
    /// Half a word, rounded down.
    Shr,
    /// This number, of no argument.
    Const(u64),
}

/// What a predicate asks of words.
#[derive(Clone, Copy)]
pub enum Test {
    /// Whether the first of two words is below the second.
    Less,
    /// Whether the first of two words is not above the second.
    AtMost,
    /// Whether a word is 0.
    Zero,
    /// Whether a word is odd.
    Odd,
    /// Whether a word is not 0.
    Nonzero,
}

/// What an entry of a text of words gives.
#[derive(Clone, Copy)]
pub enum Given {
    /// What a function computes.
    Operation(Operation),
    /// What a predicate asks.
    Test(Test),
    /// The value that a cell has at first.
    Value(u64),
}

/// An entry of a text of words: a name, and what is given for it.
#[derive(Clone, Copy)]
pub struct WordEntry<'a> {
    /// The name after its first word.
    pub name: TextToken<'a>,
    /// What is given for it.
    pub given: Given,
}

/// A text of words.
#[derive(Drop)]
pub struct WordsText<'a> {
    /// How many bits a word has: 1 or more.
    pub bits: u64,
    /// The entries in their order.
    pub entries: Vec<WordEntry<'a>>,
}
