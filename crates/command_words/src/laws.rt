//! What the words of commands mean. Each law is the contract of a function that does nothing.

ghost use Rattle.std.specs.Prelude.{◌≡◌, ◌⊎◌, ℕ, List};
ghost use Rattle.command_words.specs.declared.command.Command.{Command};
ghost use Rattle.command_words.specs.Words.{AreBad, AreWordsOf};

/// Words name at most one command.
pub fn words_name_one_command()
    ensures { (words : List (List ℕ)) (a b : Command)
        → AreWordsOf words a → AreWordsOf words b → a ≡ b }
{}

/// All words name a command or are bad.
pub fn words_are_named_or_bad()
    ensures { (words : List (List ℕ))
        → AreBad words ⊎ ((command : Command) × AreWordsOf words command) }
{}
