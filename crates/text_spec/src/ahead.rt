// What begins at the place that reading has reached inside an element.

/// What begins at a place inside an element, by its first two characters.
#[derive(Clone, Copy, Debug, PartialEq, Eq)]
pub enum Ahead {
    /// Nothing: the text ends here, or after a `<`.
    Nothing,
    /// The closing tag.
    ClosingTag,
    /// An element within.
    Element,
    /// A comment, a processing instruction or a section.
    Aside,
    /// A reference.
    Reference,
    /// A run of text.
    Run,
}
