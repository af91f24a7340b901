//! The lines of a hint.

ghost use Rattle.std.specs.Prelude.{◌≡◌, ◌++◌, [], ◌∷◌, ℕ, List, IfOk, OnOk, OnErr, map};
ghost use Rattle.lock_trace.specs.HintTexts.{IsHintText};
ghost use Rattle.lock_trace.specs.inner.PrintableBytes.{IsStart, printable_byte};

use std::alloc::{AllocError as NoMemory, Global};
use std::marker::Model;

/// Lines for a person's terminal. Each begins with two blanks or `glm: `, and has printable ASCII alone.
#[derive(Drop)]
pub(crate) struct Lines {
    /// The lines, each with its line feed.
    text: Vec<u8>,
    /// What makes the texts of lines.
    alloc: Global,
}

impl Model for Lines {
    ghost use Rattle.std.specs.Prelude.{ℕ, List};
    ghost use Rattle.lock_trace.specs.HintTexts.{IsHintText};

    ghost Value = { List ℕ };

    ghost view = { λ lines. lines.text.items };

    ghost invariant = { λ lines. IsHintText lines.text.items };
}

/// The byte, or a question mark if it isn't printable ASCII.
fn printable(byte: u8) -> u8
    ensures { result ≡ printable_byte byte }
{
    if byte < b' ' || byte > b'~' {
        b'?'
    } else {
        byte
    }
}

/// A line that begins with `start` and has these words, with its line feed.
fn line_of(alloc: Global, start: &str, words: &str) -> Result<Vec<u8>, NoMemory>
    ensures { IfOk result (λ line. line.items ≡ (start.now ++ map printable_byte words.now) ++ 10 ∷ []) }
{
    let mut line: Vec<u8> = Vec::with_capacity(alloc, words.len().saturating_add(8))?;
    line.extend_from_slice(start.as_bytes())?;
    let bytes = words.as_bytes();
    let shown: Vec<u8> = bytes.iter().map(|byte| printable(*byte)).collect(alloc)?;
    line.extend_from_slice(&shown)?;
    line.push(b'\n')?;
    Ok(line)
}

/// Appends the line. If memory is refused, the text is as it was.
fn append(text: &mut Vec<u8>, line: &[u8]) -> Result<(), NoMemory>
    ensures more { OnOk result (text.new.items ≡ text.old.items ++ line.now) }
    ensures same { OnErr result (text.new.items ≡ text.old.items) }
{
    text.extend_from_slice(line)
}

impl Lines {
    /// No lines.
    pub(crate) fn new(alloc: Global) -> Lines {
        let text = Vec::new(alloc);
        Lines { text, alloc }
    }

    /// What makes the texts of lines.
    pub(crate) fn alloc(&self) -> Global {
        self.alloc
    }

    /// Appends a line of these words behind `start`.
    pub(crate) fn put(&mut self, start: &str, words: &str) -> Result<(), NoMemory>
        requires { IsStart start.now }
    {
        let line = line_of(self.alloc, start, words)?;
        append(&mut self.text, &line)
    }

    /// The text of the lines.
    pub(crate) fn into_text(self) -> Vec<u8>
        ensures text { IsHintText result.items }
    {
        self.text
    }
}
