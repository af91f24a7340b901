/// Lock word: no session has the object. Any other value is the number of the session that has it.
pub const FREE: u64 = 0;

/// Words from one record to the next: 64 bytes, so that two records share no cache line.
pub const WORDS_APART: usize = 8;

/// How far a record's link word lies behind its state word. The head word of the publication list lies as far behind
/// the lock word, which is at index 0.
pub const HEAD: usize = 1;

/// Head word or link word: no record follows.
pub const END: u64 = 65535;

/// State word of a record: no call is pending, and the record isn't on the publication list.
pub const OUT: u64 = 0;

/// State word of a record: the slot holds a published call.
pub const POSTED: u64 = 1;

/// State word of a record: the combiner has opened the call.
pub const BUSY: u64 = 2;

/// State word of a record: the slot holds the reply.
pub const SERVED: u64 = 3;

/// State word of a record: its session has retired.
pub const CLOSED: u64 = 4;

/// State word of a record: no call is pending, and the record is on the publication list.
pub const EMPTY: u64 = 5;
