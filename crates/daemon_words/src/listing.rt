ghost use Rattle.std.specs.Prelude.{◌≡◌};
ghost use Rattle.daemon_words.specs.Listing.{command_list};

/// The daemon's commands, one a line: those that are built, and `listen` and `load`, which are not.
pub fn command_list() -> &'static str
    ensures { result.now ≡ command_list }
{
    "demo\nstdio DIR\nlisten DIR ADDRESS [N]\ncheck DIR\nload N\nwords\n"
}
