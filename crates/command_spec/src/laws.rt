// What the table of commands has to be. A law has nothing to run.
ghost use Rattle.command_spec.specs.Laws.{HasItsWord, ShowsShutOff};

/// Each command is in the table, and is found by its own word and by no other's.
pub fn commands_have_their_words()
    ensures { HasItsWord }
{}

/// A domain that is shut off is listed without a number.
pub fn table_shows_shut_off()
    ensures { ShowsShutOff }
{}
