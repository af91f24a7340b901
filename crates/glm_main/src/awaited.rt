//! Standard input that prints a hint, or the prompt of a shell, if it comes from a terminal.

use std::io;
use std::io::{Read, Write};

/// The hint for a user at a terminal.
const AWAITED: &str =
    "glm: rows are awaited from the terminal, one a line; Ctrl-D ends them, and --help shows them\n";

/// The prompt for a user at a terminal who is in a shell.
const PROMPT: &str = "> ";

/// What a user at a terminal is shown.
#[derive(Clone, Copy, Debug, Drop, PartialEq, Eq)]
pub(crate) enum Shown {
    /// Nothing: the input comes from no terminal.
    Nothing,
    /// The hint, before the first read.
    Hint,
    /// The prompt, before each read.
    Prompt,
}

/// A reader that writes a hint or a prompt to `errors`, if the input comes from a terminal.
#[derive(Drop)]
pub(crate) struct Awaited<R, E> {
    /// The reader of the rows.
    input: R,
    /// The writer of the hint or the prompt.
    errors: E,
    /// What is written before the next read.
    shown: Shown,
}

impl<R: Read, E: Write> Awaited<R, E> {
    /// Wraps a reader.
    pub(crate) fn new(input: R, errors: E, shown: Shown) -> Awaited<R, E> {
        Awaited {
            input,
            errors,
            shown,
        }
    }
}

impl<R: Read, E: Write> Read for Awaited<R, E> {
    ghost remaining = { λ awaited. R.remaining awaited.input };

    /// Writes what is due, and reads from the input. A failure to write it is ignored.
    fn read(&mut self, bytes: &mut [u8]) -> io::Result<usize> {
        match self.shown {
            Shown::Nothing => {}
            Shown::Hint => {
                self.shown = Shown::Nothing;
                let _written = self.errors.write_all(AWAITED.as_bytes());
            }
            Shown::Prompt => {
                let _written = self.errors.write_all(PROMPT.as_bytes());
            }
        }
        let count = self.input.read(bytes)?;
        if count == 0 && self.shown == Shown::Prompt {
            // the user's own prompt begins a line
            let _written = self.errors.write_all(b"\n");
        }
        Ok(count)
    }
}
