use ig_space::Point;
use std::alloc::{AllocError, Global};

/// The number that decimal digits write, or, after `0x`, hexadecimal ones.
pub fn number(text: &str) -> Option<u64> {
    match text.strip_prefix("0x") {
        Some(digits) => u64::from_str_radix(digits, 16).ok(),
        None => text.parse().ok(),
    }
}

/// The same, where it has 32 bits.
pub(crate) fn small(text: &str) -> Option<u32> {
    u32::try_from(number(text)?).ok()
}

/// `X,Y,Z`.
pub(crate) fn point(text: &str) -> Option<Point> {
    let (x, rest) = text.split_once(',')?;
    let (y, z) = rest.split_once(',')?;
    Some(Point {
        x: number(x)?,
        y: number(y)?,
        z: number(z)?,
    })
}

/// A point as `X,Y,Z`.
pub(crate) fn point_text(alloc: Global, at: Point) -> Result<String, AllocError> {
    let (x, y, z) = (at.x, at.y, at.z);
    format!(in alloc; "{x},{y},{z}")
}

fn digit(byte: u8) -> Option<u8> {
    match byte {
        b'0'..=b'9' => Some(byte - b'0'),
        b'a'..=b'f' => Some(byte - b'a' + 10),
        _ => None,
    }
}

/// The bytes of pairs of hexadecimal digits, blanks passed over.
pub fn bytes_of_hex(alloc: Global, text: &str) -> Result<Option<Vec<u8>>, AllocError> {
    let mut bytes = Vec::new(alloc);
    let mut high = None;
    for byte in text.as_bytes() {
        if *byte == b' ' {
            continue;
        }
        let Some(value) = digit(*byte) else {
            return Ok(None);
        };
        match high {
            None => high = Some(value),
            Some(first) => {
                bytes.push((first & 15) << 4 | value)?;
                high = None;
            }
        }
    }
    Ok(if high.is_none() { Some(bytes) } else { None })
}

/// The bytes of words of 32 bits, the lowest first.
pub fn bytes_of_words(alloc: Global, text: &str) -> Result<Option<Vec<u8>>, AllocError> {
    let mut bytes = Vec::new(alloc);
    for word in text.split_whitespace() {
        let Some(word) = small(word) else {
            return Ok(None);
        };
        bytes.extend_from_slice(word.to_le_bytes().as_slice())?;
    }
    Ok(Some(bytes))
}
