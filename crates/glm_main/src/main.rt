//! The program `glm`: passes the command line and the standard streams to the library `glm`, and returns its exit
//! status.
//!
//! `main.rt` reads the words and calls `glm::program_with_hints` with a gate that is always open, and with hints if standard error is a
//! terminal. `awaited.rt` is standard input that prints a hint if rows are awaited from a terminal, and a prompt for each line of a shell.
//!
//! Nothing is decided here except the status for a command line that can't be read: `USAGE` if a word isn't UTF-8, else
//! `NO_MEMORY`. The library has a crate of its own, since a library and a program can't share a name.
//!
//! Proved: that the program is safe. What it writes and returns for its words is proved of `glm::program_with_hints`. Only tested:
//! what is here, with built programs.
#![tactic(auto)]

mod awaited;

use crate::awaited::{Awaited, Shown};
use glm::{Hints, NO_MEMORY, OpenGate, USAGE, program_with_hints};
use std::io::{ErrorKind, IsTerminal, Read, Write};
use std::process::ExitCode;
use std::rt::Runtime;
use std::sync::Wait;
use std::thread::Threads;
use std::{env, io};

/// Standard input, and where a user is prompted for it.
#[derive(Drop)]
struct StandardInput<I, P> {
    /// The bytes.
    input: I,
    /// Whether they come from a terminal.
    is_terminal: bool,
    /// What a hint or a prompt is written to.
    prompts: P,
}

/// What a user is shown, if standard input comes from a terminal: a prompt before each line of a shell, or a hint that rows are awaited.
fn shown_for(words: &[&str], is_terminal: bool) -> Shown {
    if !is_terminal {
        return Shown::Nothing;
    }
    match words {
        [_, command, ..] if *command == "shell" => Shown::Prompt,
        _ => Shown::Hint,
    }
}

/// Runs the program and returns its exit status. Fails if the command line can't be read: memory is refused, or a word isn't UTF-8.
fn status<
    R: Runtime + AllocGlobal + Threads + Wait,
    I: Read + Drop,
    P: Write + Drop,
    O: Write,
    E: Write,
>(
    rt: &R,
    standard: StandardInput<I, P>,
    output: &mut O,
    errors: &mut E,
    hints: Hints,
) -> io::Result<u8> {
    let alloc = rt.alloc();
    let given: Vec<String> = env::args(rt)?.collect(alloc)?;
    let mut words = Vec::new(alloc);
    for word in &given {
        words.push(word.as_str())?;
    }
    let StandardInput {
        input,
        is_terminal,
        prompts,
    } = standard;
    let input = Awaited::new(input, prompts, shown_for(&words, is_terminal));
    let status = program_with_hints(rt, alloc, &words, input, output, errors, &OpenGate, hints);
    Ok(status)
}

/// Runs the program on the standard streams. A command line that can't be read ends with status `USAGE` or `NO_MEMORY`.
fn main(rt: HostRuntime) -> ExitCode {
    let mut output = rt.stdout();
    let mut errors = rt.stderr();
    let is_terminal = rt.stdin().is_terminal();
    let hints = if errors.is_terminal() {
        Hints::Always
    } else {
        Hints::AsAsked
    };
    let standard = StandardInput {
        input: rt.stdin(),
        is_terminal,
        prompts: rt.stderr(),
    };
    match status(&rt, standard, &mut output, &mut errors, hints) {
        Ok(status) => ExitCode::from(status),
        Err(error) if error.kind() == ErrorKind::InvalidData => {
            let _written = eprintln!(rt;
                "error: a word of the command line isn't UTF-8\n\nFor more information, try '--help'."
            );
            ExitCode::from(USAGE)
        }
        Err(_) => {
            let _written = eprintln!(rt; "glm: out of memory");
            ExitCode::from(NO_MEMORY)
        }
    }
}
