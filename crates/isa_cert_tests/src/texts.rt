//! The bytes of a row.
use std::alloc::{AllocError, Global};

/// The byte that a letter behind `\` stands for, or that letter.
fn escaped(letter: u8) -> u8 {
    match letter {
        b't' => b'\t',
        b'r' => b'\r',
        b'b' => 200,
        b's' => b' ',
        _ => letter,
    }
}

/// The text with a line feed for each semicolon and the blank behind it, and with the bytes that stand behind `\`.
pub fn plain(alloc: Global, text: &[u8]) -> Result<Vec<u8>, AllocError> {
    let mut bytes = Vec::new(alloc);
    let mut after_backslash = false;
    let mut after_semicolon = false;
    for byte in text {
        let at_blank = after_semicolon && *byte == b' ';
        after_semicolon = false;
        if after_backslash {
            after_backslash = false;
            bytes.push(escaped(*byte))?;
        } else if *byte == b'\\' {
            after_backslash = true;
        } else if *byte == b';' {
            after_semicolon = true;
            bytes.push(b'\n')?;
        } else if !at_blank {
            bytes.push(*byte)?;
        }
    }
    Ok(bytes)
}
