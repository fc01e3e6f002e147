//! The bytes of a file, as a transcript writes them.
use crate::fault::{Fault, unreadable};
use ig_play::{bytes_of_hex, bytes_of_words};
use std::alloc::{AllocError, Global};

fn text_bytes(alloc: Global, text: &str, end: &str) -> Result<Vec<u8>, AllocError> {
    let mut bytes = Vec::from_slice(alloc, text.as_bytes())?;
    bytes.extend_from_slice(end.as_bytes())?;
    Ok(bytes)
}

/// `text ..`, `line ..` with a line end, `hex ..` or `words ..`.
pub fn bytes_of(alloc: Global, form: &str, rest: &str) -> Result<Vec<u8>, Fault> {
    let found = match form {
        "text" => Some(text_bytes(alloc, rest, "")?),
        "line" => Some(text_bytes(alloc, rest, "\n")?),
        "hex" => bytes_of_hex(alloc, rest)?,
        "words" => bytes_of_words(alloc, rest)?,
        _ => None,
    };
    found.ok_or(unreadable(alloc, "no bytes"))
}

/// The bytes as a reader is shown them: printable characters, and others as `\xHH`.
pub fn shown(alloc: Global, bytes: &[u8]) -> Result<String, AllocError> {
    let mut text = String::new(alloc);
    for byte in bytes {
        if (b' '..=b'~').contains(byte) {
            text.push(*byte as char)?;
        } else {
            text.push_str(format!(in alloc; "\\x{:02x}", *byte)?.as_str())?;
        }
    }
    Ok(text)
}
