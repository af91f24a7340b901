//! A history as a picture: a lane for each session and for each contended resource, as SVG.
//!
//! [`Timeline`] collects call by call what a picture is drawn of (`timeline.rt`). `layout.rt` gives each place its column, and each session
//! and each contended resource its lane. `lanes.rt` draws what is in the lanes, `drawing.rt` the whole.
//!
//! Proved: every call is safe and returns. Only tested: what the pictures look like. The only error is that memory was refused. The
//! collecting of a call costs a few look-ups, and the end of a transaction one step for each of its locks; a picture costs what it
//! draws, and a sort. Calls in front of what is drawn need no explanation. What is kept are the calls of the places drawn, and of the calls before them only what isn't over.
#![tactic(auto)]

mod drawing;
mod lanes;
mod layout;
mod timeline;

pub use drawing::timeline_svg;
pub use layout::MOST_PLACES;
pub use std::alloc::AllocError as NoMemory;
pub use timeline::{Deed, Timeline};
