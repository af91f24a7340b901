//! Sequential objects: what one thread can do with an object, and which histories of calls with replies it can have. What shares an
//! object among threads, as `publication` does, needs no more than this crate, which knows nothing of threads or of locks.
//!
//! Begin with `object.rt`, the trait of an object with its histories and their laws, and `entry.rt`, the entries of a history. Further
//! traits say what an object can do besides: serve calls (`serving.rt`) or batches (`batching.rt`), let go of its history (`trimming.rt`),
//! tell whose waits have ended (`telling.rt`), be made for a number of sessions (`fresh.rt`), make room (`tending.rt`). An object that is
//! one function (`stepping.rt`) is made by `recording.rt`, where the laws are proved once. Two lists of which contracts see all items:
//! `ghost_list.rt` takes no memory, `trimmed_list.rt` keeps the newest.
//!
//! What is proved of a shared object is as strong as what the object says of itself: `is_legal`, and `agree`. The laws (`laws.rt`)
//! refuse an object of which any history is legal, unless all of its replies agree.
#![tactic(auto)]

mod batching;
mod entry;
mod fresh;
mod ghost_list;
pub mod laws;
mod object;
mod recording;
mod serving;
mod stepping;
mod telling;
mod tending;
mod trimmed_list;
mod trimming;

pub use batching::{Batching, serve_each};
pub use entry::{Entry, Item, MAX_SESSIONS, are_within};
pub use fresh::Fresh;
pub use ghost_list::GhostList;
pub use object::Sequential;
pub use recording::Recording;
pub use serving::Serving;
pub use stepping::Stepping;
pub use telling::Telling;
pub use tending::Tends;
pub use trimmed_list::{MOST_DROPPED, NO_BOUND, TrimmedList};
pub use trimming::Trimming;
