//! Parts of texts.

/// The first so many bytes, or all if they are fewer.
pub fn front(bytes: &[u8], count: usize) -> &[u8] {
    &bytes[..count.min(bytes.len())]
}

/// What stands behind so many bytes.
pub fn behind(bytes: &[u8], count: usize) -> &[u8] {
    &bytes[count.min(bytes.len())..]
}
