/// What a command line asks of the daemon.
#[derive(Clone, Copy, Debug, PartialEq, Eq)]
pub enum DaemonCommand<'a> {
    /// `demo`: serve standard input and output over a store in memory, which has one domain.
    Demo,
    /// `stdio DIR`: serve them over a directory.
    Stdio {
        /// The directory's path.
        directory: &'a str,
    },
    /// `check DIR`: say what the files of a directory are.
    Check {
        /// The directory's path.
        directory: &'a str,
    },
    /// `words`: list the commands.
    Words,
}
