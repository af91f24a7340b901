//! The command `shell` of `glm`: reads calls as a person types them, and answers each at once.
//!
//! `line.rt` reads what a line asks for, `words.rt` splits it. `desk.rt` is the lock table of a shell, which serves calls and takes
//! them back; `reply_line.rt` has the line of a reply, with what explains it. `answer.rt` answers a line, `why.rt` says why a session
//! waits, `trace_text.rt` and `files.rt` write and read traces, `texts.rt` has the other texts. `talking.rt` goes on.
//!
//! Proved: each reply shown is that of its entry of the history that the shell keeps, which is legal, with what explains it; a path
//! goes on only behind a granted call; of which call `why` tells; what `undo` leaves, and that a line that can't be read and a file
//! that can't be loaded change nothing; and the text of each answer, but for the system's reason that a file can't be opened or
//! written. Only tested: how lines are read, and what files have.
#![tactic(auto)]

mod answer;
mod desk;
mod files;
mod line;
mod reply_line;
mod talking;
mod texts;
mod trace_text;
mod why;
mod words;

pub use talking::shell;
