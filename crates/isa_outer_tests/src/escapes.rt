//! Bytes that a row can't hold.
use std::alloc::{AllocError, Global};

/// The byte that a letter behind `\` stands for: line feed, tab, carriage return, and for `b` a byte that is not allowed.
fn escaped(letter: u8) -> Option<u8> {
    match letter {
        b'n' => Some(b'\n'),
        b't' => Some(b'\t'),
        b'r' => Some(b'\r'),
        b'b' => Some(200),
        _ => None,
    }
}

/// The text with these bytes in it. Another byte behind `\` stands for itself, as in `\<open>`.
pub fn plain(alloc: Global, text: &[u8]) -> Result<Vec<u8>, AllocError> {
    let mut bytes = Vec::new(alloc);
    let mut after_backslash = false;
    for byte in text {
        if after_backslash {
            after_backslash = false;
            match escaped(*byte) {
                Some(other) => bytes.push(other)?,
                None => {
                    bytes.push(b'\\')?;
                    bytes.push(*byte)?;
                }
            }
        } else if *byte == b'\\' {
            after_backslash = true;
        } else {
            bytes.push(*byte)?;
        }
    }
    Ok(bytes)
}
