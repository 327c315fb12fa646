// Words of four bytes.
use std::alloc::{AllocError, Global};

/// The number in hexadecimal digits; 0 where it is none.
pub(crate) fn word_of(text: &str) -> u32 {
    u32::from_str_radix(text, 16).unwrap_or(0)
}

/// Words of four bytes, the highest first, as bytes.
pub(crate) fn bytes_of(alloc: Global, words: &str) -> Result<Vec<u8>, AllocError> {
    let mut bytes = Vec::new(alloc);
    for word in words.split_whitespace() {
        bytes.extend_from_slice(&word_of(word).to_be_bytes())?;
    }
    Ok(bytes)
}
