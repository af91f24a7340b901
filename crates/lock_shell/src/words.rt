//! The words of a line.

use std::alloc::{AllocError as NoMemory, Global};

/// Whether a byte stands between words: a blank, a tab, the end of a line, or a comma. Another control character is part of a word.
fn is_between(byte: u8) -> bool {
    matches!(byte, b' ' | b'\t' | b'\r' | b'\n' | b',')
}

/// The words of a line, in their order. Fails if memory is refused.
pub(crate) fn words_of<'a>(alloc: Global, line: &'a [u8]) -> Result<Vec<&'a [u8]>, NoMemory> {
    line.split(|byte| is_between(*byte))
        .filter(|word| !word.is_empty())
        .collect(alloc)
}

/// Whether a word is `name`, in upper or lower case.
pub(crate) fn is_word(word: &[u8], name: &str) -> bool {
    word.eq_ignore_ascii_case(name.as_bytes())
}
