// What is told of a story.
use std::alloc::Global;
use std::fmt::Display;

/// A text that grows. Where there is no memory for more, that is said in its place.
#[derive(Drop)]
pub(crate) struct Lines {
    text: String,
    is_lost: bool,
}

impl Lines {
    /// Nothing was put there yet.
    pub(crate) fn new(alloc: Global) -> Lines {
        Lines {
            text: String::new(alloc),
            is_lost: false,
        }
    }

    /// There was no memory for what belongs there.
    pub(crate) fn lose(&mut self) {
        self.is_lost = true;
    }

    /// Puts more after it.
    pub(crate) fn put(&mut self, more: &str) {
        if self.text.push_str(more).is_err() {
            self.is_lost = true;
        }
    }

    /// Puts after it how this is written.
    pub(crate) fn put_shown<T: Display + Copy>(&mut self, shown: T) {
        if write!(self.text, "{shown}").is_err() {
            self.is_lost = true;
        }
    }

    /// What was put there.
    pub(crate) fn as_str(&self) -> &str {
        if self.is_lost {
            "  out of memory"
        } else {
            self.text.as_str()
        }
    }
}
