// Rows of the input.
use crate::errors::put_error;
use crate::lines::Line;
use crate::messages::put_message;
use crate::replies::put_exchange;
use crate::words::{bytes_of, word_of};
use std::alloc::{AllocError, Global};
use wire_spec::Header;

// The header of a packet with this serial and status 0; its program, version and procedure are the first words.
fn header_of(words: &str, kind: u32, serial: u32) -> Header {
    let mut words = words.split_whitespace();
    Header {
        prog: words.next().map_or(0, word_of),
        vers: words.next().map_or(0, word_of),
        procedure: words.next().map_or(0, word_of),
        kind,
        serial,
        status: 0,
    }
}

// What stands before and behind the first of these characters. Where there is none, nothing stands behind it.
fn halves(text: &str, at: char) -> (&str, &str) {
    match text.split_once(at) {
        Some(halves) => halves,
        None => (text, ""),
    }
}

// What a row says, of which this comes before its first payload.
fn put_row(line: &mut Line, alloc: Global, head: &str, rest: &str) -> Result<(), AllocError> {
    let (kind, of) = halves(head, ' ');
    let (first, second) = halves(rest, '|');
    let first = bytes_of(alloc, first)?;
    let second = bytes_of(alloc, second)?;
    match kind {
        "exchange" => put_exchange(line, alloc, &header_of(of, 0, 7), &first, &second),
        "error" => put_error(line, alloc, &first),
        _ => put_message(line, alloc, &header_of(of, 2, 0), &first),
    }
    Ok(())
}

/// What a row says, after its head. A remark is said again as it is.
pub(crate) fn said_of(alloc: Global, text: &str) -> Line {
    let mut line = Line::new(alloc);
    match text.split_once('|') {
        Some((head, rest)) if !text.starts_with('#') => {
            line.put(head);
            if put_row(&mut line, alloc, head, rest).is_err() {
                line.lose();
            }
        }
        _ => line.put(text),
    }
    line
}
