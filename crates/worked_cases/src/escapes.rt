//! Texts in which some bytes are written by a `\` and what follows: `\n` LF, `\r` CR, `\t` a tab, `\xHH` any byte.

use std::alloc::{AllocError, Global};

/// The bytes that the text stands for, or `None` where a `\` is followed by nothing of the list.
pub fn unescaped(alloc: Global, text: &str) -> Result<Option<Vec<u8>>, AllocError> {
    let mut bytes = Vec::new(alloc);
    for (place, part) in text.split('\\').enumerate() {
        if place == 0 {
            bytes.extend_from_slice(part.as_bytes())?;
        } else {
            let Some((byte, plain)) = escape(part.as_bytes()) else {
                return Ok(None);
            };
            bytes.push(byte)?;
            bytes.extend_from_slice(plain)?;
        }
    }
    Ok(Some(bytes))
}

/// The byte that is written here, and the plain bytes behind it.
fn escape(part: &[u8]) -> Option<(u8, &[u8])> {
    match part {
        [b'n', plain @ ..] => Some((b'\n', plain)),
        [b'r', plain @ ..] => Some((b'\r', plain)),
        [b't', plain @ ..] => Some((b'\t', plain)),
        [b'x', high, low, plain @ ..] => Some((hex_digit(*high)? << 4 | hex_digit(*low)?, plain)),
        _ => None,
    }
}

/// The value of a hexadecimal digit.
fn hex_digit(digit: u8) -> Option<u8> {
    match digit {
        b'0'..=b'9' => Some(digit - b'0'),
        b'a'..=b'f' => Some(digit - b'a' + 10),
        _ => None,
    }
}
