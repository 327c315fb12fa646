// The versions of definition files.

/// A version of the files that definitions are in.
#[derive(Clone, Copy, Debug, PartialEq, Eq)]
pub enum Version {
    /// A line with flag and name, and then the text up to the end of the file. It is read only.
    One,
    /// Lines with flag and name, with the title and with the length of the text, and then the text.
    Two,
}
