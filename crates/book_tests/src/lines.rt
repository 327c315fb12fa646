// What is told of a story.
use std::alloc::Global;
use virt_types::{Name, Refusal};

/// A text that grows. Where there is no memory for more, that is told in its place.
#[derive(Drop)]
pub(crate) struct Lines {
    text: String,
    is_lost: bool,
}

impl Lines {
    /// Nothing was told yet.
    pub(crate) fn new(alloc: Global) -> Lines {
        Lines {
            text: String::new(alloc),
            is_lost: false,
        }
    }

    /// There was no memory for what belongs there.
    pub(crate) fn lose(&mut self) {
        self.is_lost = true;
    }

    /// Puts more after it.
    pub(crate) fn put(&mut self, more: &str) {
        if self.text.push_str(more).is_err() {
            self.is_lost = true;
        }
    }

    /// Puts a number after it.
    pub(crate) fn put_number(&mut self, number: u64) {
        if write!(self.text, " {number}").is_err() {
            self.is_lost = true;
        }
    }

    /// Puts an IPv4 address after it, in eight hexadecimal digits.
    pub(crate) fn put_address(&mut self, address: u32) {
        if write!(self.text, " {address:08x}").is_err() {
            self.is_lost = true;
        }
    }

    /// Puts a name after it.
    pub(crate) fn put_name(&mut self, name: &Name) {
        self.put(" ");
        self.put(name.as_str());
    }

    /// Puts after it why a call was refused.
    pub(crate) fn put_refusal(&mut self, refusal: &Refusal) {
        self.put_number(refusal.code.number() as u64);
        self.put(" ");
        self.put(refusal.kept.as_str());
    }

    /// Puts after it whether a call was done.
    pub(crate) fn put_done(&mut self, answer: Result<(), Refusal>) {
        match answer {
            Ok(()) => self.put(" ok"),
            Err(refusal) => self.put_refusal(&refusal),
        }
    }

    /// What was told.
    pub(crate) fn as_str(&self) -> &str {
        if self.is_lost {
            "out of memory\n"
        } else {
            self.text.as_str()
        }
    }
}
