//! Calls and replies in numbers: reading them from C's structs, and writing them there.

ghost use Rattle.std.specs.Prelude.{◌≡◌, ◌≢◌, ◌<◌, IfSome, IfNone, IfOk, IfErr, length};
ghost use Rattle.lock_modes.specs.Codes.{code_of};
ghost use Rattle.lock_rules.specs.Kinds.{number_of_op};
ghost use Rattle.library_books.specs.Numbers.{IsOp, IsLevel, HasLevelBehind, IsModeCode, IsPath, IsCall, IsCallFault, value_of, place_of, numbers_of_call, numbers_of_reply, numbers_of_entry, numbers_of_holder};

use crate::arrays::NumbersOf;
use crate::status::{NO_SUCH_LEVEL, NO_SUCH_MODE, NO_SUCH_OP};
use lock_modes::Mode;
use lock_rules::{Call, Entry, Op, Reply};
use lock_tree::{LEVELS, Resource};

/// A node of the lock tree. The first `level` numbers are its path from the root.
#[repr(C)]
#[derive(Clone, Copy)]
pub struct ResourceNumbers {
    pub level: u32,
    pub numbers: [u32; LEVELS],
}

/// A call. `mode` and `resource` matter only if the call has a mode or a resource.
#[repr(C)]
#[derive(Clone, Copy)]
pub struct CallNumbers {
    pub op: u32,
    pub mode: u32,
    pub resource: ResourceNumbers,
}

/// A reply: its kind and the value that goes with the kind.
#[repr(C)]
#[derive(Clone, Copy)]
pub struct ReplyNumbers {
    pub kind: u32,
    pub value: u64,
}

/// A holder of a resource: the session and the code of its mode.
#[repr(C)]
#[derive(Clone, Copy)]
pub struct HolderNumbers {
    pub session: u32,
    pub mode: u32,
}

/// An entry of the history: a call of a session and its reply.
#[repr(C)]
#[derive(Clone, Copy)]
pub struct EntryNumbers {
    pub session: u32,
    pub call: CallNumbers,
    pub reply: ReplyNumbers,
}

/// The answer to a published call: the index of its entry in the history, and the reply.
#[repr(C)]
#[derive(Clone, Copy)]
pub struct AnswerNumbers {
    pub place: u64,
    pub reply: ReplyNumbers,
}

/// The result of a pass: the number of calls served, and 1 if memory was refused for a call, otherwise 0.
#[repr(C)]
#[derive(Clone, Copy)]
pub struct PassNumbers {
    pub served: u32,
    pub starved: u32,
}

/// The resource field of calls that have no resource.
pub const NOWHERE: ResourceNumbers = ResourceNumbers {
    level: 0,
    numbers: [0; LEVELS],
};

/// The resource that the numbers encode. Returns `None` if no resource has this level.
pub fn read_resource(path: &ResourceNumbers) -> Option<Resource>
    ensures some { IfSome result (λ r. IsPath path.now r) }
    ensures none { IfNone result (¬ (IsLevel path.now.level)) }
{
    Resource::from_prefix(&path.numbers, path.level as usize)
}

/// The resource that the numbers encode. Returns `None` if no resource has this level, or its path has none behind `level`.
pub fn read_path(place: &ResourceNumbers, level: u32) -> Option<Resource>
    ensures some { IfSome result (λ r. IsPath place.now r × (level < length r)) }
    ensures none { IfNone result (¬ (HasLevelBehind place.now level)) }
{
    let resource = read_resource(place)?;
    if level >= u32::from(resource.level()) {
        return None;
    }
    Some(resource)
}

/// The mode with this code. Returns `None` if no mode has it.
pub fn read_mode(code: u32) -> Option<Mode>
    ensures some { IfSome result (λ mode. code ≡ code_of mode) }
    ensures none { IfNone result (¬ (IsModeCode code)) }
{
    if code > 255 {
        return None;
    }
    Mode::from_code(code as u8)
}

/// The resource and the mode of a lock, a conversion or a try. On failure returns the status of the first test that fails.
fn read_wanted(asked: &CallNumbers) -> Result<(Resource, Mode), u32>
    ensures ok { IfOk result (λ wanted. IsPath asked.now.resource wanted.0 × (asked.now.mode ≡ code_of wanted.1)) }
    ensures level { IfErr result (λ fault. fault ≡ NO_SUCH_LEVEL → ¬ (IsLevel asked.now.resource.level)) }
    ensures mode { IfErr result (λ fault. fault ≢ NO_SUCH_LEVEL → (fault ≡ NO_SUCH_MODE) × IsLevel asked.now.resource.level × ¬ (IsModeCode asked.now.mode)) }
{
    let Some(resource) = read_resource(&asked.resource) else {
        return Err(NO_SUCH_LEVEL);
    };
    let Some(mode) = read_mode(asked.mode) else {
        return Err(NO_SUCH_MODE);
    };
    Ok((resource, mode))
}

/// The operation with this number. Returns `None` if no operation has it.
fn read_op(number: u32) -> Option<Op>
    ensures some { IfSome result (λ op. number ≡ number_of_op op) }
    ensures none { IfNone result (¬ (IsOp number)) }
{
    Op::from_number(number)
}

/// The call that the numbers encode. Tests the op, then the level, then the mode, and returns the status of the first
/// test that fails.
#[inline(always)]
pub fn read_call(asked: &CallNumbers) -> Result<Call, u32>
    ensures ok { IfOk result (λ call. IsCall asked.now call) }
    ensures err { IfErr result (λ fault. IsCallFault asked.now fault) }
{
    let Some(op) = read_op(asked.op) else {
        return Err(NO_SUCH_OP);
    };
    match op {
        Op::Begin => Ok(Call::Begin),
        Op::Lock => {
            let (resource, mode) = read_wanted(asked)?;
            Ok(Call::Lock(resource, mode))
        }
        Op::Convert => {
            let (resource, mode) = read_wanted(asked)?;
            Ok(Call::Convert(resource, mode))
        }
        Op::Poll => Ok(Call::Poll),
        Op::Release => match read_resource(&asked.resource) {
            Some(resource) => Ok(Call::Release(resource)),
            None => Err(NO_SUCH_LEVEL),
        },
        Op::Commit => Ok(Call::Commit),
        Op::Abort => Ok(Call::Abort),
        Op::Try => {
            let (resource, mode) = read_wanted(asked)?;
            Ok(Call::Try(resource, mode))
        }
        Op::Withdraw => Ok(Call::Withdraw),
        Op::Restart => Ok(Call::Restart),
    }
}

/// The numbers of a resource. Those past its level are 0.
pub fn place_of(resource: &Resource) -> ResourceNumbers
    ensures { result ≡ place_of resource.now }
{
    let numbers = resource.numbers();
    let mut padded = [0; LEVELS];
    padded[..numbers.len()].copy_from_slice(numbers);
    ResourceNumbers {
        level: numbers.len() as u32,
        numbers: padded,
    }
}

/// The numbers of a call. A call without a mode has mode 0, a call without a resource has level 0.
pub fn call_numbers(call: &Call) -> CallNumbers
    ensures { result ≡ numbers_of_call call.now }
{
    let op = call.op().number();
    let (mode, resource) = match *call {
        Call::Lock(resource, mode) | Call::Convert(resource, mode) | Call::Try(resource, mode) => {
            (u32::from(mode.code()), place_of(&resource))
        }
        Call::Release(resource) => (0, place_of(&resource)),
        Call::Begin | Call::Poll | Call::Commit | Call::Abort | Call::Withdraw | Call::Restart => (
            0, NOWHERE,
        ),
    };
    CallNumbers { op, mode, resource }
}

/// The value of a reply, 0 if its kind has none.
#[inline(always)]
fn value_of(reply: &Reply) -> u64
    ensures { result ≡ value_of reply.now }
{
    match *reply {
        Reply::Began(number) => number,
        Reply::Granted(mode) => u64::from(mode.code()),
        Reply::Committed(count) => u64::from(count),
        Reply::Aborted(count) => u64::from(count),
        Reply::Restarted(count) => u64::from(count),
        Reply::Refused(why) => u64::from(why.number()),
        Reply::Waiting | Reply::Deadlock | Reply::Clear | Reply::Released | Reply::Withdrawn => 0,
    }
}

/// The numbers of a reply.
#[inline(always)]
pub fn reply_numbers(reply: Reply) -> ReplyNumbers
    ensures { result ≡ numbers_of_reply reply }
{
    ReplyNumbers {
        kind: reply.kind().number(),
        value: value_of(&reply),
    }
}

impl NumbersOf<Entry> for EntryNumbers {
    ghost numbers = { numbers_of_entry };

    fn of(entry: &Entry) -> EntryNumbers {
        EntryNumbers {
            session: u32::from(entry.session),
            call: call_numbers(&entry.call),
            reply: reply_numbers(entry.reply),
        }
    }
}

impl NumbersOf<(u16, Mode)> for HolderNumbers {
    ghost numbers = { numbers_of_holder };

    fn of(holder: &(u16, Mode)) -> HolderNumbers {
        HolderNumbers {
            session: u32::from(holder.0),
            mode: u32::from(holder.1.code()),
        }
    }
}
