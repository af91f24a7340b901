//! The depth of the lock tree.

/// The number of levels of the lock tree: database, file, page, record, as in Gray, Lorie, Putzolu and Traiger (1976), and
/// field, a part of a record. No other line of code or proof in this crate depends on how many there are.
pub const LEVELS: usize = 5;
