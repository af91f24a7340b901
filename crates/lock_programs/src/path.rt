//! A path of a program, and what comes before it.

ghost use Rattle.std.specs.Prelude.{◌≡◌, ◌+◌, ◌-◌, ◌<◌, ◌≤◌, ℕ, length, Some, slice_get};
ghost use Rattle.lock_tree.specs.declared.levels.TheConstants.{LEVELS};
ghost use Rattle.lock_programs.specs.declared.program.TheConstants.{CALLS};

use crate::noting::done_with;
use crate::program::{Last, Start};
use lock_modes::Mode;
use lock_rules::{Call, Reply};
use lock_tree::{LEVELS, Resource};
use std::alloc::AllocError as NoMemory;

/// What `Start` says; then a lock on each ancestor of a resource from a level on, in one mode; then a call on the resource. There may
/// be none of either kind.
pub struct StartedPath {
    /// The resource at the end of the path. Nothing relies on it if there is no path.
    pub(crate) resource: Resource,
    /// The level of the first resource on the path, from 1; the one below the resource if there is no path.
    pub(crate) from: u8,
    /// The mode of the locks on the ancestors.
    pub(crate) above: Mode,
    /// The call on the resource.
    pub(crate) last: Last,
    /// What comes before the path.
    pub(crate) start: Start,
    ghost some: { 1 ≤ from },
    ghost within: { from ≤ length resource + 1 },
    ghost deep: { length resource ≤ LEVELS },
}

impl Clone for StartedPath {
    fn clone(&self) -> Result<StartedPath, NoMemory> {
        Ok(*self)
    }
}

impl Copy for StartedPath {}

impl StartedPath {
    ghost use Rattle.lock_rules.specs.declared.calls.Call.{Call as CallValue};
    ghost use Rattle.lock_programs.specs.Answers.{done_with};
    ghost use Rattle.lock_programs.specs.Calls.{calls_started, path_of};

    /// The number of calls.
    #[inline(always)]
    pub(crate) fn length(&self) -> usize
        ensures value { result ≡ length (calls_started self.now) }
        ensures few { result ≤ CALLS }
    {
        self.start.length() + self.path_length()
    }

    /// The number of calls of the path.
    #[inline(always)]
    fn path_length(&self) -> usize
        ensures levels { result ≡ length self.now.resource + 1 - self.now.from }
        ensures counted { result ≡ length (path_of self.now) }
    {
        (self.resource.level() + 1 - self.from) as usize
    }

    /// The call at index `at`, from 0 on.
    #[inline(always)]
    pub(crate) fn call(&self, at: usize) -> Call
        requires { at < length (calls_started self.now) }
        ensures { slice_get (calls_started self.now) at ≡ Some result }
    {
        let first = self.start.length();
        if at < first {
            return self.start.call(at);
        }
        self.on_path(at - first)
    }

    /// The call at index `at` of the path, from 0 on.
    #[inline(always)]
    fn on_path(&self, at: usize) -> Call
        requires { at < length self.now.resource + 1 - self.now.from }
        ensures { slice_get (path_of self.now) at ≡ Some result }
    {
        let level = self.from as usize + at;
        if level == self.resource.level() as usize {
            return self.last.call(&self.resource);
        }
        self.last.above(self.resource.at_level(level), self.above)
    }

    /// The reply to the call at index `at`, from 0 on, if it was granted or done, as `done_with` has it.
    #[inline(always)]
    pub(crate) fn done(&self, at: usize, began: u64, ended: u32, mode: Mode) -> Reply
        requires { at < length (calls_started self.now) }
        ensures { (c : CallValue) × (slice_get (calls_started self.now) at ≡ Some c) × (result ≡ done_with began ended mode c) }
    {
        let first = self.start.length();
        if at < first {
            let call = self.start.call(at);
            return done_with(began, ended, mode, &call);
        }
        self.done_on_path(at - first, mode)
    }

    /// The reply to the call at index `at` of the path, from 0 on, if it was granted or done. It begins and ends no transaction.
    #[inline(always)]
    fn done_on_path(&self, at: usize, mode: Mode) -> Reply
        requires { at < length self.now.resource + 1 - self.now.from }
        ensures { (began ended : ℕ) → (c : CallValue) × (slice_get (path_of self.now) at ≡ Some c) × (result ≡ done_with began ended mode c) }
    {
        if self.from as usize + at == self.resource.level() as usize {
            return self.last.done(mode);
        }
        Reply::Granted(mode)
    }
}
