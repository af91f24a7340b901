//! The counters and gauges of a lock table in numbers, as C's structs have them.

ghost use Rattle.std.specs.Prelude.{◌≡◌};
ghost use Rattle.library_books.specs.Counts.{calls_by_number, refusals_by_number, numbers_of_counts, numbers_of_gauges};

use lock_desk::{Calls, Counts, Gauges, Refusals};

/// How many counters of calls there are: one for each number of an operation, and the first, which stays 0.
pub const OP_NUMBERS: usize = 11;

/// How many counters of refusals there are: one for each number of a refusal, and those of 0 and of the retired 10, which stay 0.
pub const WHY_NUMBERS: usize = 13;

/// The counters of a history: calls by the number of their operation, refused calls by the number of their refusal, requests and how
/// they were answered, waits and how they ended, and the calls that made victims.
#[repr(C)]
#[derive(Clone, Copy)]
pub struct CountNumbers {
    pub calls: [u64; OP_NUMBERS],
    pub refusals: [u64; WHY_NUMBERS],
    pub requests: u64,
    pub granted_at_once: u64,
    pub requests_refused: u64,
    pub waits_begun: u64,
    pub waits_granted: u64,
    pub victims: u64,
    pub waits_withdrawn: u64,
    pub waits_aborted: u64,
    pub waits_restarted: u64,
    pub waiting: u64,
    pub deadlocks: u64,
}

/// The calls of each operation, each at the index that is the operation's number.
fn calls_by_number(calls: &Calls) -> [u64; OP_NUMBERS]
    ensures { result ≡ calls_by_number calls.now }
{
    [
        0,
        calls.begin,
        calls.lock,
        calls.convert,
        calls.poll,
        calls.release,
        calls.commit,
        calls.abort,
        calls.try_lock,
        calls.withdraw,
        calls.restart,
    ]
}

/// The refused calls, each counter at the index that is the refusal's number.
fn refusals_by_number(refusals: &Refusals) -> [u64; WHY_NUMBERS]
    ensures { result ≡ refusals_by_number refusals.now }
{
    [
        0,
        refusals.already_open,
        refusals.no_transaction,
        refusals.is_waiting,
        refusals.is_doomed,
        refusals.nothing_asked,
        refusals.not_held,
        refusals.parent_not_held,
        refusals.child_held,
        refusals.too_many_locks,
        0,
        refusals.would_wait,
        refusals.not_waiting,
    ]
}

/// The counters in numbers.
pub fn count_numbers(counts: &Counts) -> CountNumbers
    ensures { result ≡ numbers_of_counts counts.now }
{
    CountNumbers {
        calls: calls_by_number(&counts.calls),
        refusals: refusals_by_number(&counts.refusals),
        requests: counts.requests,
        granted_at_once: counts.granted_at_once,
        requests_refused: counts.requests_refused,
        waits_begun: counts.waits_begun,
        waits_granted: counts.waits_granted,
        victims: counts.victims,
        waits_withdrawn: counts.waits_withdrawn,
        waits_aborted: counts.waits_aborted,
        waits_restarted: counts.waits_restarted,
        waiting: counts.waiting,
        deadlocks: counts.deadlocks,
    }
}

/// The gauges of a lock table at one moment.
#[repr(C)]
#[derive(Clone, Copy)]
pub struct GaugeNumbers {
    pub transactions: u64,
    pub locks: u64,
    pub waiting: u64,
    pub longest_queue: u64,
    /// The cells that the lock table keeps and that serve no resource. No clause says how many they are.
    pub idle_cells: u64,
}

/// The gauges in numbers.
pub fn gauge_numbers(gauges: Gauges, idle_cells: usize) -> GaugeNumbers
    ensures { result ≡ numbers_of_gauges gauges idle_cells }
{
    GaugeNumbers {
        transactions: gauges.transactions,
        locks: gauges.locks,
        waiting: gauges.waiting,
        longest_queue: gauges.longest_queue,
        idle_cells: idle_cells as u64,
    }
}
