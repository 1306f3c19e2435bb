ghost use Rattle.std.specs.Prelude.{◌≡◌, ◌∷◌, [], ◌↔◌, IsTrue, IfSome, IfNone, map, string_bytes};
ghost use Rattle.regulator_main.specs.declared.words.Command.{Command as TheCommand};
ghost use Rattle.regulator_main.specs.Words.{AreWordsOf};

/// A command of the program.
#[derive(Clone, Copy)]
pub(crate) enum Command {
    /// Reads a session and loads its board without an update.
    Check,
    /// Loads it through the lab, and runs the scripts one after another.
    Solo,
}

/// Whether the words are this one word.
fn is_only(words: &[String], word: &str) -> bool
    ensures { IsTrue result ↔ (map string_bytes words.now ≡ word.now ∷ []) }
{
    match words {
        [only] => only.as_str() == word,
        _ => false,
    }
}

/// The command of these words, where they are one.
pub(crate) fn command_of(words: &[String]) -> Option<Command>
    ensures some { IfSome result (λ command. AreWordsOf command (map string_bytes words.now)) }
    ensures none { IfNone result ((command : TheCommand) → AreWordsOf command (map string_bytes words.now) → ⊥) }
{
    if is_only(words, "check") {
        return Some(Command::Check);
    }
    if is_only(words, "solo") {
        return Some(Command::Solo);
    }
    None
}
