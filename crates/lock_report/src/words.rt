//! Fixed words, and what a test adds to a count.

ghost use Rattle.std.specs.Prelude.{◌≡◌, ◌≤◌, ◌++◌, if◌then◌else◌, OnOk, string_bytes};

use std::alloc::AllocError as NoMemory;

/// Appends the words.
pub fn put_words(out: &mut String, words: &str) -> Result<(), NoMemory>
    ensures { OnOk result (string_bytes out.new ≡ string_bytes out.old ++ words.now) }
{
    out.push_str(words)
}

/// 1 if the test holds, else 0.
pub fn one_if(test: bool) -> u64
    ensures value { result ≡ (if test then 1 else 0) }
    ensures few { result ≤ 1 }
{
    if test { 1 } else { 0 }
}
