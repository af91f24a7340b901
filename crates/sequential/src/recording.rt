//! An object with the history of its calls.

ghost use Rattle.std.specs.Prelude.{◌≡◌, ◌≤◌, [], length};
ghost use Rattle.sequential.specs.Kept.{first_kept};

use crate::batching::{Batching, serve_each};
use crate::entry::{Entry, Item, MAX_SESSIONS};
use crate::object::Sequential;
use crate::serving::Serving;
use crate::stepping::Stepping;
use crate::trimmed_list::{NO_BOUND, TrimmedList};
use crate::trimming::Trimming;
use std::alloc::{AllocError as NoMemory, Global};
use std::marker::Model;

/// An object with its sessions and the history of its calls.
#[derive(Drop)]
pub struct Recording<S: Stepping> {
    /// The number of sessions.
    sessions: u16,
    /// The object.
    object: S,
    /// All calls with their replies, oldest first; in memory are those that are kept.
    history: TrimmedList<Entry<S::Call, S::Reply>>,
}

impl<S: Stepping> Model for Recording<S> {
    ghost use Rattle.sequential.specs.Recorded.{RecordedView};
    ghost use Rattle.sequential.specs.RecordingFields.{recorded_view_of, IsRecorded};

    ghost Value = { RecordedView S S.Call S.Reply };

    ghost view = { recorded_view_of };

    ghost invariant = { IsRecorded S.Stepping };
}

impl<S: Stepping> Recording<S> {
    /// An object that has answered no calls, for sessions 1 to `sessions`. It keeps all calls.
    pub fn new(alloc: Global, object: S, sessions: u16) -> Recording<S>
        requires some { 1 ≤ sessions }
        requires few { sessions ≤ MAX_SESSIONS }
        requires fresh { S.is_behind object [] }
        ensures { result ≡ record { object = object; sessions = sessions; history = []; cut = 0; bound = NO_BOUND } }
    {
        Recording {
            sessions,
            object,
            history: TrimmedList::new(alloc),
        }
    }

    /// Keeps at most the newest `bound` calls from now on, and lets go of older ones as calls are served. What was let go before
    /// doesn't come back.
    pub fn keep_at_most(&mut self, bound: u64)
        ensures { self.new ≡ record self.old { cut = first_kept self.old.cut self.old.bound (length self.old.history); bound = bound } }
    {
        self.history.keep_at_most(bound);
    }

    /// The object, which is as its history leaves it.
    pub fn object(&self) -> &S
        ensures object { result.now ≡ self.now.object }
        ensures behind { S.is_behind self.now.object self.now.history }
    {
        &self.object
    }
}

impl<S: Stepping> Sequential for Recording<S> {
    type Call = S::Call;

    type Reply = S::Reply;

    ghost use Rattle.sequential.specs.Replies.{AreRepliesOf};
    ghost use Rattle.sequential.specs.ReplyLaws.{fronts_of, empty_of, total_of, determined_of};

    ghost sessions = { λ r. r.sessions };

    ghost history = { λ r. r.history };

    ghost cut = { λ r. r.cut };

    ghost bound = { λ r. record { lines = r.bound; notes = 0 } };

    ghost is_legal = { AreRepliesOf S.reply_to };

    ghost agree = { λ _ reply other. reply ≡ other };

    ghost any_call = { S.any_call };

    ghost any_reply = { S.any_reply };

    fn sessions(&self) -> u16 {
        self.sessions
    }

    fn served(&self) -> u64 {
        // nothing is let go of an empty history
        let _first = self.history.first_kept();
        self.history.count()
    }

    ghost empty = { empty_of S.reply_to };

    ghost fronts = { fronts_of S.reply_to };

    ghost total = { total_of S.reply_to };

    ghost determined = { determined_of S.reply_to };
}

impl<S: Stepping> Serving for Recording<S> {
    ghost goes_first = { S.goes_first };

    ghost tells_from = { λ _ _. Unit {0} };

    fn goes_first(call: &S::Call) -> bool {
        S::goes_first(call)
    }

    fn serve(&mut self, session: u16, call: S::Call) -> Result<S::Reply, NoMemory> {
        self.history.reserve(1)?;
        let asked = call;
        let reply = self.object.step(session, call)?;
        self.history.push_reserved(Entry {
            session,
            call: asked,
            reply,
        });
        Ok(reply)
    }
}

impl<S: Stepping> Batching for Recording<S> {
    fn serve_batch(&mut self, items: &mut [Item<S::Call, S::Reply>]) -> usize {
        serve_each(self, items)
    }
}

impl<S: Stepping> Trimming for Recording<S> {
    type Line = Entry<S::Call, S::Reply>;

    ghost use Rattle.std.proofs.Common.{refl};

    ghost lines = { λ history. history };

    fn kept_from(&self) -> u64 {
        // the length of the history fits into 64 bits
        let _count = self.history.count();
        self.history.first_kept()
    }

    fn kept(&self) -> &[Entry<S::Call, S::Reply>] {
        self.history.kept()
    }

    fn let_go(&mut self, count: u64) -> u64 {
        self.history.let_go(count)
    }

    fn take_kept(&mut self, alloc: Global) -> Vec<Entry<S::Call, S::Reply>> {
        self.history.take_kept(alloc)
    }

    ghost grows = { λ front rest. (rest, refl) };
}
