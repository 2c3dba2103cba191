//! Laws of what words ask for.

ghost use Rattle.std.specs.Prelude.{◌≡◌, ℕ, true, List};
ghost use Rattle.command_words.specs.Commands.{ParsesTo, are_taken};
ghost use Rattle.command_words.specs.declared.task.Task.{Task};

/// Words ask for at most one thing, and `clap` takes those that ask for something.
pub fn words_ask_for_one_thing()
    ensures taken { (words : List (List ℕ)) (task : Task) → ParsesTo words task → are_taken words ≡ true }
    ensures one { (words : List (List ℕ)) (a b : Task) → ParsesTo words a → ParsesTo words b → a ≡ b }
{}
