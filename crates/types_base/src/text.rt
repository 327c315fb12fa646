// Text: a `String` that contracts see as the list of its bytes.
ghost use Rattle.std.specs.Prelude.{◌≡◌, ◌==◌, IfOk, IsUtf8, length};
ghost use Rattle.std.specs.String.{string_bytes};

use crate::copy::TryCopy;
use crate::memory::NoMemory;
use std::alloc::Global;
use std::marker::Model;

/// Text in UTF-8, which contracts see as the list of its bytes.
#[derive(Debug)]
pub struct Text {
    text: String,
}

impl Drop for Text {
    fn drop(self) {
        let Text { text: _ } = self;
    }
}

impl Model for Text {
    ghost use Rattle.std.specs.Prelude.{List, ℕ};
    ghost use Rattle.std.specs.String.{string_bytes};

    ghost Value = { List ℕ };

    ghost view = { λ t. string_bytes t.text };
}

impl Text {
    /// The text that this string holds.
    pub fn of(text: String) -> Text
        ensures { result ≡ string_bytes text }
    {
        Text { text }
    }

    /// A new text with the characters of `text`.
    pub fn copy_of(alloc: Global, text: &str) -> Result<Text, NoMemory>
        ensures { IfOk result (λ t. t ≡ text.now) }
    {
        Ok(Text {
            text: String::from_str(alloc, text)?,
        })
    }

    /// The string that this text is.
    pub fn into_string(self) -> String
        ensures { string_bytes result ≡ self }
    {
        let Text { text } = self;
        text
    }

    /// The characters.
    pub fn as_str(&self) -> &str
        ensures value { result.now ≡ self.now }
        ensures utf8 { IsUtf8 self.now }
    {
        let text = self.text.as_str();
        let _bytes = text.as_bytes();
        text
    }

    /// The bytes of the characters in UTF-8.
    pub fn as_bytes(&self) -> &[u8]
        ensures { result.now ≡ self.now }
    {
        self.text.as_bytes()
    }

    /// How many bytes it has.
    pub fn len(&self) -> usize
        ensures { result ≡ length self.now }
    {
        self.text.len()
    }

    /// Whether it has none.
    pub fn is_empty(&self) -> bool
        ensures { result ≡ (length self.now == 0) }
    {
        self.text.is_empty()
    }
}

impl TryCopy for Text {
    fn copy(&self) -> Result<Text, NoMemory> {
        Ok(Text {
            text: self.text.clone()?,
        })
    }
}
