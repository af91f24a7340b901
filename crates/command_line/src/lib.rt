//! The command line of `glm`: what its words ask for, and the texts of its help.
//!
//! `args.rt` has the parser's commands, `options.rt` the options that they share, and `requests.rt` makes a request of the words; `texts.rt` has the help texts
//! and the version; `laws.rt` what command lines ask for, as laws; `misuse.rt` says what is wrong with words
//! that make no request.
//!
//! Proved: which request a list of words makes, for every list, by the definitions of `clap`'s grammar.
#![tactic(auto)]

mod args;
pub mod laws;
mod misuse;
mod options;
mod requests;
mod texts;

pub use args::{
    CommandRequest, Delivery, Form, MAX_PLACE, MAX_STREAMED_SESSIONS, MAX_TURNS, Request,
};
pub use misuse::usage_text;
pub use requests::request_of;
pub use texts::{NOT_A_NUMERAL, STATE_ALONE, TWO_FORMS, VERSION, VERSION_TEXT};
