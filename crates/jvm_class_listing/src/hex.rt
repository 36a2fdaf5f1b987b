//! Bytes by their hexadecimal digits.

use std::alloc::{AllocError, Global};

/// The bytes that hexadecimal digits, two by two, stand for. What is no digit is passed over.
pub fn bytes_of(alloc: Global, hex: &str) -> Result<Vec<u8>, AllocError> {
    let mut bytes = Vec::with_capacity(alloc, hex.len() / 2)?;
    let mut high = None;
    for digit in hex.as_bytes() {
        let value = match *digit {
            b'0'..=b'9' => *digit - b'0',
            b'a'..=b'f' => *digit - b'a' + 10,
            _ => continue,
        };
        match high {
            None => high = Some(value),
            Some(first) => {
                bytes.push((first as u8 % 16) * 16 + value)?;
                high = None;
            }
        }
    }
    Ok(bytes)
}
