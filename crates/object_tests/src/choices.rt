//! How threads choose their calls by pseudorandom numbers.

use flat_combining::examples::{MapCall, QueueCall};

/// The keys of the map are below this number, so that many calls are refused.
const KEYS: u64 = 8;

/// A call that a test chooses by a pseudorandom number.
pub(crate) trait Chosen: Copy {
    /// The call for a number in one of the four quarters, from 0 on, of a session's calls. No call of quarter 0 takes something out of
    /// the object, and no call of quarter 3 puts something in.
    fn choose(quarter: u64, number: u64) -> Self;
}

/// Whether a call that changes the object takes something out: never in quarter 0, and always in quarter 3.
fn takes_out(quarter: u64, number: u64) -> bool {
    number % 3 < quarter
}

impl Chosen for u32 {
    /// An amount for a counter.
    fn choose(_quarter: u64, number: u64) -> u32 {
        (number % 1000) as u32
    }
}

impl Chosen for QueueCall {
    fn choose(quarter: u64, number: u64) -> QueueCall {
        if takes_out(quarter, number) {
            return QueueCall::Pop;
        }
        QueueCall::Push(number)
    }
}

impl Chosen for MapCall {
    /// Half of the calls add or take a key; the others look up a key, or the least one.
    fn choose(quarter: u64, number: u64) -> MapCall {
        let key = (number / 12 % KEYS) as u32;
        match number / 3 % 4 {
            0 => MapCall::Get(key),
            1 => MapCall::First,
            _ if takes_out(quarter, number) => MapCall::Take(key),
            _ => MapCall::Add(key, number),
        }
    }
}
