//! What operations and tests give on words.

ghost use Rattle.std.specs.Prelude.{◌≡◌, ◌<◌, ◌≤◌, ◌+◌, ◌%◌, ℕ, Some, true, IsSome};
ghost use Rattle.tsl_meaning.specs.Interpretation.{are_values, entry_of};
ghost use Rattle.word_interp.specs.Operations.{arity_of, operation_of, test_of, arity_given, table_given, value_given, number_in};
ghost use Rattle.word_interp.specs.internal.Applied.{applied, given_at};

use table_syntax::{Given, Operation, Test};

/// A number below twice the domain, modulo the domain.
#[tactic(auto, using(crate::proofs::Reduced::below, crate::proofs::Reduced::past))]
fn reduced(domain: u32, number: u32) -> u32
    requires { number < domain + domain }
    ensures { result ≡ number % domain }
{
    if number < domain {
        number
    } else {
        number - domain
    }
}

/// The value of an operation on words below the domain.
fn value_of(domain: u32, operation: Operation, arguments: &[u32]) -> u32
    requires some { 2 ≤ domain }
    requires few { domain ≤ 65536 }
    requires values { are_values domain arguments.now ≡ true }
    requires taken { IsSome (applied (operation_of domain operation) arguments.now) }
    ensures { applied (operation_of domain operation) arguments.now ≡ Some result }
{
    match (operation, arguments) {
        (Operation::Add, [x, y]) => reduced(domain, *x + *y),
        (Operation::Sub, [x, y]) => reduced(domain, *x + domain - *y),
        (Operation::Mul, [x, y]) => *x * *y % domain,
        (Operation::And, [x, y]) => *x & *y,
        (Operation::Or, [x, y]) => *x | *y,
        (Operation::Xor, [x, y]) => *x ^ *y,
        (Operation::Not, [x]) => *x ^ (domain - 1),
        (Operation::Inc, [x]) => reduced(domain, *x + 1),
        (Operation::Dec, [x]) => reduced(domain, *x + domain - 1),
        (Operation::Shl, [x]) => reduced(domain, 2 * *x),
        (Operation::Shr, [x]) => *x / 2,
        (Operation::Const(number), []) => (number % u64::from(domain)) as u32,
        _ => 0,
    }
}

/// The entry of a test at words: 1 where it holds.
fn truth_of(test: Test, arguments: &[u32]) -> u32
    requires { IsSome (applied (test_of test) arguments.now) }
    ensures { applied (test_of test) arguments.now ≡ Some result }
{
    let holds = match (test, arguments) {
        (Test::Less, [x, y]) => *x < *y,
        (Test::AtMost, [x, y]) => *x <= *y,
        (Test::Zero, [x]) => *x == 0,
        (Test::Odd, [x]) => *x % 2 == 1,
        (Test::Nonzero, [x]) => *x != 0,
        _ => false,
    };
    u32::from(holds)
}

/// Whether each argument is a word. One argument and two need no loop.
fn are_values(domain: u32, arguments: &[u32]) -> bool
    ensures { result ≡ are_values domain arguments.now }
{
    match arguments {
        [] => true,
        [x] => *x < domain,
        [x, y] => *x < domain && *y < domain,
        _ => arguments.iter().all(|v| *v < domain),
    }
}

/// The entry at words of the table of what is given for a name.
fn entry_at_words(domain: u32, given: &Given, arguments: &[u32]) -> u32
    requires some { 2 ≤ domain }
    requires few { domain ≤ 65536 }
    requires values { are_values domain arguments.now ≡ true }
    requires had { IsSome (entry_of domain arguments.now (table_given domain (Some given.now))) }
    ensures { entry_of domain arguments.now (table_given domain (Some given.now)) ≡ Some result }
{
    match *given {
        Given::Operation(operation) => value_of(domain, operation, arguments),
        Given::Test(test) => truth_of(test, arguments),
        Given::Value(_) => 0,
    }
}

/// The entry at arguments of the table of what is given for a name.
pub(crate) fn entry_in(domain: u32, given: &Option<Given>, arguments: &[u32]) -> u32
    requires some { 2 ≤ domain }
    requires few { domain ≤ 65536 }
    requires had { IsSome (entry_of domain arguments.now (table_given domain given.now)) }
    ensures { entry_of domain arguments.now (table_given domain given.now) ≡ Some result }
{
    if !are_values(domain, arguments) {
        return 0;
    }
    match given {
        Some(found) => entry_at_words(domain, found, arguments),
        None => 0,
    }
}

/// The value of a cell at first.
pub(crate) fn value_in(domain: u32, given: Option<Given>) -> u32
    requires some { 2 ≤ domain }
    requires few { domain ≤ 65536 }
    ensures { result ≡ value_given domain given }
{
    match given {
        Some(Given::Value(number)) => (number % u64::from(domain)) as u32,
        _ => 0,
    }
}

/// What stands at the place of a name.
pub(crate) fn given_at(given: &[Option<Given>], id: u32) -> Option<Given>
    ensures { result ≡ given_at given.now id }
{
    match given.get(id as usize) {
        Some(found) => *found,
        None => None,
    }
}

/// How many arguments an operation takes.
fn arity_of(operation: Operation) -> u32
    ensures { (domain : ℕ) → result ≡ arity_of (operation_of domain operation) }
{
    match operation {
        Operation::Const(_) => 0,
        Operation::Not | Operation::Inc | Operation::Dec | Operation::Shl | Operation::Shr => 1,
        Operation::Add
        | Operation::Sub
        | Operation::Mul
        | Operation::And
        | Operation::Or
        | Operation::Xor => 2,
    }
}

/// How many arguments what is given for a name takes.
pub(crate) fn arity_given(given: Given) -> u32
    ensures { (domain : ℕ) → result ≡ arity_given domain given }
{
    match given {
        Given::Operation(operation) => arity_of(operation),
        Given::Test(Test::Less | Test::AtMost) => 2,
        Given::Test(Test::Zero | Test::Odd | Test::Nonzero) => 1,
        Given::Value(_) => 0,
    }
}

/// The number that is written in what is given.
pub(crate) fn number_in(given: Given) -> Option<u64>
    ensures { result ≡ number_in given }
{
    match given {
        Given::Operation(Operation::Const(number)) => Some(number),
        Given::Value(number) => Some(number),
        _ => None,
    }
}
