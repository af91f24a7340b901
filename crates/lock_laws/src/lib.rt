//! Further laws of the rules, on which no other crate stands. The rules are those of `lock_rules`; of `lock_report` the laws of listings
//! know how it finds what an abort would grant. There is no code.
//!
//! The laws say how waits end, who becomes a victim, what a try does beside a lock, which of two holders was granted its mode later, how
//! retried transactions grow old, and what a listing tells of an abort.
//!
//! Begin with `ends.rt` and `specs/Ends.antt`; `specs/Examples.antt` has histories worked by hand. README.md has the other files.
#![tactic(auto)]

pub mod cycles;
pub mod ends;
pub mod grants;
pub mod listing_laws;
pub mod retries;
pub mod tries;
