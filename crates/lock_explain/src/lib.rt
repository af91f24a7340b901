//! What a served call did and why, and that as text, as CSV rows and as a graph for Graphviz: the test that refused it, for whom its
//! request waits or would wait and through what, the cycles that the request closed, the victims, and the requests of others granted.
//!
//! Begin with `explanation.rt`, the types, and `explaining.rt`, which makes an explanation of the lock table before a call and the one
//! after: [`serve_explained`] serves a call on one of two books, and compares it with the other. Refusal and blockers are found in the
//! book before the call (`asked.rt`, `refusal.rt`, `waiting.rt`), victims and grants by comparing both (`endings.rt`), cycles by a
//! waits-for graph of its own, with the request in it (`cycles.rt`). `laws.rt` says what the definitions mean. The forms are written by
//! `text.rt` with `request_text.rt`, `rows.rt` and `dot.rt`.
//!
//! Proved: an explanation has exactly what the definitions in `specs/` say of the call, and each text is exactly that of the explanation.
//! Cycles are given as one connected part, not one by one. Only tested: what the texts look like. The only error is that memory was
//! refused.
#![tactic(auto)]

mod asked;
mod cycles;
mod dot;
mod endings;
mod explaining;
mod explanation;
pub mod laws;
mod refusal;
mod request_text;
mod rows;
mod text;
mod waiting;

pub use dot::explanation_dot;
pub use explaining::{blockers_ahead, is_eventful, serve_eventful, serve_explained};
pub use explanation::{
    Blocker, Edge, EventfulCall, ExplainedCall, Explanation, MissedParent, Party, Refusal, Wait,
};
pub use request_text::{put_ahead, put_request};
pub use rows::explanation_rows;
pub use std::alloc::AllocError as NoMemory;
pub use text::{explanation_text, words_of_why};
