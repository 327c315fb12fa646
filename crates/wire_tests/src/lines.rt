// What is said of a row.
use procedure_spec::ArgFault;
use std::alloc::Global;

/// A text that grows. Where there is no memory for more, that is said in its place.
#[derive(Drop)]
pub(crate) struct Line {
    text: String,
    is_lost: bool,
}

impl Line {
    /// Nothing was said yet.
    pub(crate) fn new(alloc: Global) -> Line {
        Line {
            text: String::new(alloc),
            is_lost: false,
        }
    }

    /// There was no memory for what belongs there.
    pub(crate) fn lose(&mut self) {
        self.is_lost = true;
    }

    /// Puts more after it.
    pub(crate) fn put(&mut self, more: &str) {
        if self.text.push_str(more).is_err() {
            self.is_lost = true;
        }
    }

    /// Puts a number after it.
    pub(crate) fn put_number(&mut self, number: u64) {
        if write!(self.text, "{number}").is_err() {
            self.is_lost = true;
        }
    }

    /// Puts bytes after it, as words of four bytes in hexadecimal digits.
    pub(crate) fn put_bytes(&mut self, bytes: &[u8]) {
        for (index, byte) in bytes.iter().enumerate() {
            let space = if index > 0 && index % 4 == 0 { " " } else { "" };
            if write!(self.text, "{space}{byte:02x}").is_err() {
                self.is_lost = true;
            }
        }
    }

    /// Puts after it why a payload is none.
    pub(crate) fn put_fault(&mut self, fault: ArgFault) {
        if write!(self.text, "{fault:?}").is_err() {
            self.is_lost = true;
        }
    }

    /// What was said.
    pub(crate) fn as_str(&self) -> &str {
        if self.is_lost {
            "out of memory"
        } else {
            self.text.as_str()
        }
    }
}
