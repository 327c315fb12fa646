// A command line, read.
ghost use Rattle.std.specs.Prelude.{◌≡◌, [], ◌∷◌, map};
ghost use Rattle.std.specs.String.{string_bytes};
ghost use Rattle.daemon_words.specs.Commands.{Asks, is_directory, seen_in};

use crate::command::DaemonCommand;

// Words that begin with `-` are kept for options.
fn is_directory(word: &str) -> bool
    ensures { result ≡ is_directory word.now }
{
    match word.as_bytes() {
        [] => false,
        [letter, ..] => *letter != b'-',
    }
}

// A command of one word.
fn alone(word: &str) -> Option<DaemonCommand<'_>>
    ensures { Asks (word.now ∷ []) (seen_in result) }
{
    match word {
        "demo" => Some(DaemonCommand::Demo),
        "words" => Some(DaemonCommand::Words),
        _ => None,
    }
}

// A command and its directory.
fn with_directory<'a>(verb: &str, directory: &'a str) -> Option<DaemonCommand<'a>>
    ensures { Asks (verb.now ∷ directory.now ∷ []) (seen_in result) }
{
    if !is_directory(directory) {
        return None;
    }
    match verb {
        "stdio" => Some(DaemonCommand::Stdio { directory }),
        "check" => Some(DaemonCommand::Check { directory }),
        _ => None,
    }
}

/// What the words of a command line, without the program's own name, ask for; none where they are no command line.
pub fn read_words(words: &[String]) -> Option<DaemonCommand<'_>>
    ensures { Asks (map string_bytes words.now) (seen_in result) }
{
    match words {
        [word] => alone(word.as_str()),
        [verb, directory] => with_directory(verb.as_str(), directory.as_str()),
        _ => None,
    }
}
