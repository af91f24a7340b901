//! The locks of one session.
//!
//! [`Locks`] lists the resources that a session holds. Once the session releases locks early, an index counts, for each
//! resource, the children that are held below it (`locks.rt`), so that a release costs the same in whatever order locks go.
//! `locks/pages.rt` reads the list by pages. `resource_order.rt` compares resources and brings them into their order,
//! `seeded.rt` hashes them.
//!
//! Proved: which resources each call leaves, whether a child of a resource is held, and what a page has. Only measured: the
//! time. Memory is taken by [`Locks::make_room`] and [`Locks::first_behind`] alone. The crate knows nothing of modes and of
//! other sessions.
#![tactic(auto)]

mod locks;
mod resource_order;
mod seeded;

pub use locks::{HeldLock, Locks};
pub use resource_order::{is_same, sort_resources};
pub use seeded::Seeded;
pub use std::alloc::AllocError as NoMemory;
