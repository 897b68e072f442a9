//! Texts that a row shortens.
use std::alloc::{AllocError, Global};

/// The byte that a letter behind `\` stands for: line feed, tab, carriage return, and for `b` a byte over 127.
fn escaped(letter: u8) -> Option<u8> {
    match letter {
        b'n' => Some(b'\n'),
        b't' => Some(b'\t'),
        b'r' => Some(b'\r'),
        b'b' => Some(200),
        _ => None,
    }
}

/// The part with these bytes behind the text. Another byte behind `\` stands for itself, as in `\<And>`.
fn put_plain(text: &mut Vec<u8>, part: &[u8]) -> Result<(), AllocError> {
    let mut after_backslash = false;
    for byte in part {
        if after_backslash {
            after_backslash = false;
            match escaped(*byte) {
                Some(other) => text.push(other)?,
                None => {
                    text.push(b'\\')?;
                    text.push(*byte)?;
                }
            }
        } else if *byte == b'\\' {
            after_backslash = true;
        } else {
            text.push(*byte)?;
        }
    }
    Ok(())
}

/// The part so many times behind the text.
fn put_times(text: &mut Vec<u8>, part: &str, times: u32) -> Result<(), AllocError> {
    for _i in 0..times {
        put_plain(text, part.as_bytes())?;
    }
    Ok(())
}

/// A part behind the text: one of the form `N*PART` is N times PART.
fn put_part(text: &mut Vec<u8>, part: &str) -> Result<(), AllocError> {
    if let Some((count, repeated)) = part.split_once("*")
        && let Ok(times) = count.parse::<u32>()
    {
        return put_times(text, repeated, times);
    }
    put_plain(text, part.as_bytes())
}

/// The text whose parts stand between `#`s.
pub fn expanded(alloc: Global, row: &str) -> Result<Vec<u8>, AllocError> {
    let mut text = Vec::new(alloc);
    for part in row.split("#") {
        put_part(&mut text, part)?;
    }
    Ok(text)
}
