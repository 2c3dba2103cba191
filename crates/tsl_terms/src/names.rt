//! The names of a specification or a program, numbered by first appearance.

ghost use Rattle.std.specs.Prelude.{◌≡◌, ◌+◌, ◌<◌, ◌^◌, ◌∷◌, ◌++◌, [], None, length, slice_get, IfOk, OnOk, OnErr, IsSomeAnd};
ghost use Rattle.tsl_terms.specs.Name.{number_of, same_kind, AreDistinct};

use base_library::NoMemory;
use indexmap::IndexMap;
use std::alloc::Global;
use std::marker::Model;

/// What a name stands for.
#[derive(Clone, Copy, Debug, PartialEq, Eq)]
pub enum NameKind {
    /// A stream: an input, a cell or an output.
    Signal,
    /// A function of values to a value.
    Function,
    /// A function of values to a truth.
    Predicate,
}

/// Whether two kinds are the same one.
pub fn same_kind(left: NameKind, right: NameKind) -> bool
    ensures { result ≡ same_kind left right }
{
    match (left, right) {
        (NameKind::Signal, NameKind::Signal)
        | (NameKind::Function, NameKind::Function)
        | (NameKind::Predicate, NameKind::Predicate) => true,
        _ => false,
    }
}

/// What a name's text stands for, and how many arguments it takes.
#[derive(Clone, Copy)]
struct Meaning {
    kind: NameKind,
    arity: u32,
}

/// The list of names in order of first appearance, each with its kind and how many arguments it
/// takes. A name's number is its place, from 0. No text stands twice, and there are fewer than 2^32.
#[derive(Drop)]
pub struct Names {
    meanings: IndexMap<Vec<u8>, Meaning>,
}

impl Model for Names {
    ghost use Rattle.std.specs.Prelude.{List, ◌<◌, ◌^◌, length, map};
    ghost use Rattle.tsl_terms.specs.Name.{Name};

    ghost Value = { List Name };

    ghost use Rattle.tsl_terms.specs.internal.Named.{named};

    ghost view = { λ names. map named names.meanings.entries };

    ghost invariant = { λ names. length names.meanings.entries < 2 ^ 32 };
}

impl Names {
    /// No name. It keeps the allocator for the names that are added, and takes no memory.
    pub fn new(alloc: Global) -> Names
        ensures { result ≡ [] }
    {
        Names {
            meanings: IndexMap::new(alloc),
        }
    }

    /// The same list of names.
    pub fn copy(&self) -> Result<Names, NoMemory>
        ensures { IfOk result (λ names. names ≡ self.now) }
    {
        let mut names = Names::new(*self.meanings.allocator());
        for id in 0..self.count() {
            names.add(self.text(id), self.kind(id), self.arity(id))?;
        }
        Ok(names)
    }

    /// Adds a name at the end, and answers its number.
    pub fn add(&mut self, text: &[u8], kind: NameKind, arity: u32) -> Result<u32, NoMemory>
        requires absent { number_of self.old text.now ≡ None }
        requires room { length self.old + 1 < 2 ^ 32 }
        ensures number { IfOk result (λ id. id ≡ length self.old) }
        ensures added { OnOk result
            (self.new ≡ self.old ++ (record { text = text.now; kind = kind; arity = arity }) ∷ []) }
        ensures err { OnErr result (self.new ≡ self.old) }
    {
        let id = self.count();
        let text = Vec::from_slice(*self.meanings.allocator(), text)?;
        self.meanings.insert(text, Meaning { kind, arity })?;
        Ok(id)
    }

    /// The number of the name with this text, or `None` where there is none.
    pub fn find(&self, text: &[u8]) -> Option<u32>
        ensures { result ≡ number_of self.now text.now }
    {
        let place = self.meanings.get_index_of(text)?;
        Some(place as u32)
    }

    /// How many names there are.
    pub fn count(&self) -> u32
        ensures count { result ≡ length self.now }
        ensures distinct { AreDistinct self.now }
    {
        self.meanings.len() as u32
    }

    /// The text of the name with this number.
    pub fn text(&self, id: u32) -> &[u8]
        requires { id < length self.now }
        ensures { IsSomeAnd (slice_get self.now id) (λ name. result.now ≡ name.text) }
    {
        let (text, _) = self.meanings.get_index(id as usize).unwrap();
        text.as_slice()
    }

    /// What the name with this number stands for.
    pub fn kind(&self, id: u32) -> NameKind
        requires { id < length self.now }
        ensures { IsSomeAnd (slice_get self.now id) (λ name. result ≡ name.kind) }
    {
        let (_, meaning) = self.meanings.get_index(id as usize).unwrap();
        meaning.kind
    }

    /// How many arguments the name with this number takes.
    pub fn arity(&self, id: u32) -> u32
        requires { id < length self.now }
        ensures { IsSomeAnd (slice_get self.now id) (λ name. result ≡ name.arity) }
    {
        let (_, meaning) = self.meanings.get_index(id as usize).unwrap();
        meaning.arity
    }
}
