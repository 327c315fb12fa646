// A row that a story prints.
use std::alloc::Global;

/// A text that grows. Where there is no memory for more, that is said in its place.
#[derive(Drop)]
pub(crate) struct Row {
    text: String,
    is_lost: bool,
}

impl Row {
    /// Nothing was put there yet.
    pub(crate) fn new(alloc: Global) -> Row {
        Row {
            text: String::new(alloc),
            is_lost: false,
        }
    }

    /// Puts more after it.
    pub(crate) fn put(&mut self, more: &str) {
        if self.text.push_str(more).is_err() {
            self.is_lost = true;
        }
    }

    /// Puts a number after it.
    pub(crate) fn put_number(&mut self, number: u64) {
        if write!(self.text, "{number}").is_err() {
            self.is_lost = true;
        }
    }

    /// There was no memory for what belongs there.
    pub(crate) fn lose(&mut self) {
        self.is_lost = true;
    }

    /// What was put there.
    pub(crate) fn as_str(&self) -> &str {
        if self.is_lost {
            "out of memory"
        } else {
            self.text.as_str()
        }
    }
}
