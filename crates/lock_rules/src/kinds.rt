//! The kinds of calls, of replies and of refusals, each kind in one list, with their numbers and words.

ghost use Rattle.std.specs.Prelude.{◌≡◌, ◌↔◌, Some};
ghost use Rattle.lock_rules.specs.declared.kinds.Op.{Op as OpValue};
ghost use Rattle.lock_rules.specs.Kinds.{number_of_op, number_of_kind, number_of_why, op_of_call, kind_of_reply, word_of, word_of_reply};

use crate::calls::{Call, Reply, Why};

/// The operation of a call: the call without its resource and its mode.
#[derive(Clone, Copy, Debug, PartialEq, Eq, Hash)]
pub enum Op {
    /// `Call::Begin`.
    Begin = 1,
    /// `Call::Lock`.
    Lock = 2,
    /// `Call::Convert`.
    Convert = 3,
    /// `Call::Poll`.
    Poll = 4,
    /// `Call::Release`.
    Release = 5,
    /// `Call::Commit`.
    Commit = 6,
    /// `Call::Abort`.
    Abort = 7,
    /// `Call::Try`.
    Try = 8,
    /// `Call::Withdraw`.
    Withdraw = 9,
    /// `Call::Restart`.
    Restart = 10,
}

/// All operations, each once, in the order of their numbers.
pub const OPS: [Op; 10] = [
    Op::Begin,
    Op::Lock,
    Op::Convert,
    Op::Poll,
    Op::Release,
    Op::Commit,
    Op::Abort,
    Op::Try,
    Op::Withdraw,
    Op::Restart,
];

impl Op {
    /// The number of the operation, from 1.
    #[inline]
    pub fn number(self) -> u32
        ensures { result ≡ number_of_op self }
    {
        self as u32
    }

    /// The operation's word, in lower case.
    #[inline]
    pub fn word(self) -> &'static str
        ensures { result.now ≡ word_of self }
    {
        match self {
            Op::Begin => "begin",
            Op::Lock => "lock",
            Op::Convert => "convert",
            Op::Poll => "poll",
            Op::Release => "release",
            Op::Commit => "commit",
            Op::Abort => "abort",
            Op::Try => "try",
            Op::Withdraw => "withdraw",
            Op::Restart => "restart",
        }
    }

    /// Returns the operation with this number, `None` if no operation has it.
    #[inline]
    pub fn from_number(number: u32) -> Option<Op>
        ensures { (op : OpValue) → (result ≡ Some op) ↔ (number ≡ number_of_op op) }
    {
        for op in OPS {
            if op.number() == number {
                return Some(op);
            }
        }
        None
    }
}

impl Call {
    /// The operation of the call.
    #[inline]
    pub fn op(&self) -> Op
        ensures { result ≡ op_of_call self.now }
    {
        match self {
            Call::Begin => Op::Begin,
            Call::Lock(_, _) => Op::Lock,
            Call::Convert(_, _) => Op::Convert,
            Call::Poll => Op::Poll,
            Call::Release(_) => Op::Release,
            Call::Commit => Op::Commit,
            Call::Abort => Op::Abort,
            Call::Try(_, _) => Op::Try,
            Call::Withdraw => Op::Withdraw,
            Call::Restart => Op::Restart,
        }
    }
}

/// The kind of a reply: the reply without its value.
#[derive(Clone, Copy, Debug, PartialEq, Eq, Hash)]
pub enum ReplyKind {
    /// `Reply::Began`.
    Began = 1,
    /// `Reply::Granted`.
    Granted = 2,
    /// `Reply::Waiting`.
    Waiting = 3,
    /// `Reply::Deadlock`.
    Deadlock = 4,
    /// `Reply::Clear`.
    Clear = 5,
    /// `Reply::Released`.
    Released = 6,
    /// `Reply::Committed`.
    Committed = 7,
    /// `Reply::Aborted`.
    Aborted = 8,
    /// `Reply::Refused`.
    Refused = 9,
    /// `Reply::Withdrawn`.
    Withdrawn = 10,
    /// `Reply::Restarted`.
    Restarted = 11,
}

/// All kinds of replies, each once, in the order of their numbers.
pub const REPLY_KINDS: [ReplyKind; 11] = [
    ReplyKind::Began,
    ReplyKind::Granted,
    ReplyKind::Waiting,
    ReplyKind::Deadlock,
    ReplyKind::Clear,
    ReplyKind::Released,
    ReplyKind::Committed,
    ReplyKind::Aborted,
    ReplyKind::Refused,
    ReplyKind::Withdrawn,
    ReplyKind::Restarted,
];

impl ReplyKind {
    /// The number of the kind, from 1.
    #[inline]
    pub fn number(self) -> u32
        ensures { result ≡ number_of_kind self }
    {
        self as u32
    }

    /// The kind's word, in lower case.
    #[inline]
    pub fn word(self) -> &'static str
        ensures { result.now ≡ word_of_reply self }
    {
        match self {
            ReplyKind::Began => "began",
            ReplyKind::Granted => "granted",
            ReplyKind::Waiting => "waiting",
            ReplyKind::Deadlock => "deadlock",
            ReplyKind::Clear => "clear",
            ReplyKind::Released => "released",
            ReplyKind::Committed => "committed",
            ReplyKind::Aborted => "aborted",
            ReplyKind::Refused => "refused",
            ReplyKind::Withdrawn => "withdrawn",
            ReplyKind::Restarted => "restarted",
        }
    }
}

impl Reply {
    /// The kind of the reply.
    #[inline]
    pub fn kind(&self) -> ReplyKind
        ensures { result ≡ kind_of_reply self.now }
    {
        match self {
            Reply::Began(_) => ReplyKind::Began,
            Reply::Granted(_) => ReplyKind::Granted,
            Reply::Waiting => ReplyKind::Waiting,
            Reply::Deadlock => ReplyKind::Deadlock,
            Reply::Clear => ReplyKind::Clear,
            Reply::Released => ReplyKind::Released,
            Reply::Committed(_) => ReplyKind::Committed,
            Reply::Aborted(_) => ReplyKind::Aborted,
            Reply::Refused(_) => ReplyKind::Refused,
            Reply::Withdrawn => ReplyKind::Withdrawn,
            Reply::Restarted(_) => ReplyKind::Restarted,
        }
    }
}

/// All refusals, each once, in the order of their numbers.
pub const REFUSALS: [Why; 11] = [
    Why::AlreadyOpen,
    Why::NoTransaction,
    Why::IsWaiting,
    Why::IsDoomed,
    Why::NothingAsked,
    Why::NotHeld,
    Why::ParentNotHeld,
    Why::ChildHeld,
    Why::TooManyLocks,
    Why::WouldWait,
    Why::NotWaiting,
];

impl Why {
    /// The number of the refusal, from 1, in the order of the tests.
    #[inline]
    pub fn number(self) -> u32
        ensures { result ≡ number_of_why self }
    {
        self as u32
    }
}
