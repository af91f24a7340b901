//! Who blocks whom in a state, found in its lists: the roots of the jam, how many sessions each blocks and how many requests its abort
//! would grant, and through whom each session waits; and the text for people, which tells it.
//!
//! `requests.rt` finds the waiting requests among the claims, `contended.rt` the claims on what they wait for, `waits.rt` who waits for
//! whom, as it follows from these. `blockers.rt` lists for whom each waits, its first blocker first, `wait_rows.rt` makes rows of that,
//! `graph.rt` has the waits-for graph, `grants.rt` tells what an abort would grant, `roots.rt` lists the roots, `showing.rt` writes the text.
//!
//! What it takes grows with the number of claims, with the requests that wait times the waits, with a search of the graph for each root
//! and session, and for each root with the claims on resources that somebody waits for.

mod blockers;
mod contended;
mod grants;
mod graph;
mod requests;
mod roots;
mod showing;
mod wait_rows;
mod waits;

pub use blockers::told_waits;
pub use requests::requests_among;
pub use showing::{Lists, Moment, lists_text};
pub use wait_rows::first_waits;
pub use waits::waits_among;
