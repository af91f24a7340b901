//! A program: the end of a transaction and the begin of the next, or a restart, and the calls of a path.

ghost use Rattle.std.specs.Prelude.{◌≡◌, ◌+◌, ◌-◌, ◌<◌, ◌≤◌, ◌∷◌, ◌++◌, [], length, Some, slice_get};
ghost use Rattle.lock_tree.specs.declared.levels.TheConstants.{LEVELS};
ghost use Rattle.lock_programs.specs.declared.program.TheConstants.{CALLS};

use crate::noting::done_with;
use crate::path::StartedPath;
use lock_modes::Mode;
use lock_rules::{Call, Reply};
use lock_tree::{LEVELS, Resource};
use std::alloc::AllocError as NoMemory;

/// The greatest number of calls of a program: a commit or abort, a begin, and one for each level of the lock tree.
pub const CALLS: usize = 7;

const _: () = prove!(CALLS == LEVELS + 2);

/// What a program does with the session's transaction before the calls of its path.
#[derive(Clone, Copy, Debug, PartialEq, Eq)]
pub enum Start {
    /// Nothing.
    Nothing,
    /// Begins one.
    Begins,
    /// Commits the open one.
    Commits,
    /// Aborts the open one.
    Aborts,
    /// Commits the open one and begins the next.
    CommitsAndBegins,
    /// Aborts the open one and begins the next.
    AbortsAndBegins,
    /// Restarts the open one.
    Restarts,
}

impl Start {
    ghost use Rattle.lock_programs.specs.Starts.{start_calls};

    /// The number of its calls.
    #[inline(always)]
    pub(crate) fn length(self) -> usize
        ensures { result ≡ length (start_calls self) }
    {
        match self {
            Start::Nothing => 0,
            Start::Begins | Start::Commits | Start::Aborts | Start::Restarts => 1,
            Start::CommitsAndBegins | Start::AbortsAndBegins => 2,
        }
    }

    /// The call at index `at`, from 0 on.
    #[inline(always)]
    pub(crate) fn call(self, at: usize) -> Call
        requires { at < length (start_calls self) }
        ensures { slice_get (start_calls self) at ≡ Some result }
    {
        match self {
            Start::Nothing | Start::Begins => Call::Begin,
            Start::Commits => Call::Commit,
            Start::Aborts => Call::Abort,
            Start::Restarts => Call::Restart,
            Start::CommitsAndBegins => { if at == 0 { Call::Commit } else { Call::Begin } }
            Start::AbortsAndBegins => { if at == 0 { Call::Abort } else { Call::Begin } }
        }
    }
}

/// The last call of a path.
#[derive(Clone, Copy, Debug, PartialEq, Eq)]
pub enum Last {
    /// A lock on the resource in the mode.
    Locks(Mode),
    /// A conversion of the lock on the resource.
    Converts(Mode),
    /// A lock on the resource that is refused where it would wait.
    Tries(Mode),
    /// The release of the resource.
    Releases,
    /// A poll. It names no resource.
    Polls,
    /// The withdrawal of the waiting request. It names no resource.
    Withdraws,
}

impl Last {
    ghost use Rattle.std.specs.Prelude.{ℕ, List};
    ghost use Rattle.lock_programs.specs.Starts.{last_call, ancestor_call};
    ghost use Rattle.lock_programs.specs.Answers.{done_with};

    /// The call, on this resource.
    #[inline(always)]
    pub(crate) fn call(self, resource: &Resource) -> Call
        ensures { result ≡ last_call self resource.now }
    {
        match self {
            Last::Locks(mode) => Call::Lock(*resource, mode),
            Last::Converts(mode) => Call::Convert(*resource, mode),
            Last::Tries(mode) => Call::Try(*resource, mode),
            Last::Releases => Call::Release(*resource),
            Last::Polls => Call::Poll,
            Last::Withdraws => Call::Withdraw,
        }
    }

    /// The call that locks an ancestor on the way to it: a try, if it is one.
    #[inline(always)]
    pub(crate) fn above(self, ancestor: Resource, mode: Mode) -> Call
        ensures { result ≡ ancestor_call mode self ancestor }
    {
        match self {
            Last::Tries(_) => Call::Try(ancestor, mode),
            _ => Call::Lock(ancestor, mode),
        }
    }

    /// The reply to it if it was granted or done: `mode` is the mode granted.
    #[inline(always)]
    pub(crate) fn done(self, mode: Mode) -> Reply
        ensures { (began ended : ℕ) (r : List ℕ) → result ≡ done_with began ended mode (last_call self r) }
    {
        match self {
            Last::Locks(_) | Last::Converts(_) | Last::Tries(_) => Reply::Granted(mode),
            Last::Releases => Reply::Released,
            Last::Polls => Reply::Clear,
            Last::Withdraws => Reply::Withdrawn,
        }
    }
}

/// The calls of a program.
#[derive(Clone, Copy)]
enum Calls {
    /// One call.
    One(Call),
    /// A path, and what comes before it.
    Path(StartedPath),
}

/// Several calls of a session, in order: one call of any kind; or what `Start` says, then a lock on each ancestor of a resource from a
/// level on, in one mode, then a call on the resource. A path that ends with a try tries the ancestors, too: none of its requests waits.
pub struct Program {
    /// The calls.
    calls: Calls,
}

impl Clone for Program {
    fn clone(&self) -> Result<Program, NoMemory> {
        Ok(*self)
    }
}

impl Copy for Program {}

impl Program {
    ghost use Rattle.lock_modes.specs.Order.{need_of};
    ghost use Rattle.lock_rules.specs.declared.calls.Call.{Call as CallValue};
    ghost use Rattle.lock_programs.specs.Answers.{done_with};
    ghost use Rattle.lock_programs.specs.declared.program.Last.TheVariants.{Locks};
    ghost use Rattle.lock_programs.specs.Starts.{start_calls, last_call, path_calls};
    ghost use Rattle.lock_programs.specs.Calls.{calls_of};

    /// A program that begins with `start`, locks the ancestors of `resource` from the level `from` on in the mode `above`, each by a
    /// lock, or by a try if `last` is one, and makes the call `last` on the resource. Levels are counted from 1, that of a database.
    pub fn path(start: Start, resource: &Resource, from: u8, above: Mode, last: Last) -> Program
        requires some { 1 ≤ from }
        requires within { from ≤ length resource.now }
        ensures { calls_of result ≡ start_calls start ++ path_calls resource.now above last from (length resource.now + 1 - from) }
    {
        let _numbers = resource.numbers();
        Program {
            calls: Calls::Path(StartedPath {
                resource: *resource,
                from,
                above,
                last,
                start,
            }),
        }
    }

    /// A program that locks the rest of a path, behind `locked` levels that are locked: the further ancestors of `resource` in
    /// the mode that `mode` needs of a parent, and the resource in `mode`.
    pub fn locks(start: Start, resource: &Resource, mode: Mode, locked: u8) -> Program
        requires rest { locked < length resource.now }
        ensures { calls_of result ≡ start_calls start ++ path_calls resource.now (need_of mode) (Locks mode) (locked + 1) (length resource.now - locked) }
    {
        let _numbers = resource.numbers();
        Program::path(
            start,
            resource,
            locked + 1,
            mode.parent_need(),
            Last::Locks(mode),
        )
    }

    /// A program of what `start` says alone. `Start::Nothing` makes one of no calls.
    pub fn start(start: Start) -> Program
        ensures { calls_of result ≡ start_calls start }
    {
        let resource = any_resource();
        let _numbers = resource.numbers();
        Program {
            calls: Calls::Path(StartedPath {
                resource,
                from: resource.level() + 1,
                above: Mode::NL,
                last: Last::Polls,
                start,
            }),
        }
    }

    /// A program of one call.
    #[inline(always)]
    pub fn one(call: Call) -> Program
        ensures { calls_of result ≡ call ∷ [] }
    {
        Program {
            calls: Calls::One(call),
        }
    }

    /// The number of calls.
    #[inline(always)]
    pub fn length(&self) -> usize
        ensures value { result ≡ length (calls_of self.now) }
        ensures few { result ≤ CALLS }
    {
        match &self.calls {
            Calls::One(_) => 1,
            Calls::Path(path) => path.length(),
        }
    }

    /// The call at index `at`, from 0 on.
    #[inline(always)]
    pub fn call(&self, at: usize) -> Call
        requires { at < length (calls_of self.now) }
        ensures { slice_get (calls_of self.now) at ≡ Some result }
    {
        match &self.calls {
            Calls::One(call) => *call,
            Calls::Path(path) => path.call(at),
        }
    }

    /// The reply to the call at index `at`, from 0 on, if it was granted or done, as `done_with` has it.
    #[inline(always)]
    pub(crate) fn done(&self, at: usize, began: u64, ended: u32, mode: Mode) -> Reply
        requires { at < length (calls_of self.now) }
        ensures { (c : CallValue) × (slice_get (calls_of self.now) at ≡ Some c) × (result ≡ done_with began ended mode c) }
    {
        match &self.calls {
            Calls::One(call) => done_with(began, ended, mode, call),
            Calls::Path(path) => path.done(at, began, ended, mode),
        }
    }
}

/// A resource, for programs that name none.
fn any_resource() -> Resource {
    match Resource::from_numbers(&[0]) {
        Some(resource) => resource,
        None => unreachable!(),
    }
}
