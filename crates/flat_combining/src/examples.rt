//! Machines that threads can share, as examples of how one is written.

mod bounded_queue;
mod counter;
mod ordered_map;

pub use bounded_queue::{BoundedQueue, QueueCall, QueueReply};
pub use counter::Counter;
pub use ordered_map::{MapCall, MapReply, OrderedMap};
