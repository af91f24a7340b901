//! What a picture of a history is drawn of, and how it is collected: what each call begins and ends.

use crate::drawing::Written;
use indexmap::IndexMap;
use lock_explain::{Blocker, Edge, Explanation};
use lock_modes::Mode;
use lock_rules::{Call, Claim, Entry, Reply};
use lock_tree::Resource;
use std::alloc::{AllocError as NoMemory, Global};

/// A transaction of a session, from its begin or a restart (`origin`) up to the reply that ends it, `None` if it goes on.
#[derive(Clone, Copy)]
pub(crate) struct Bar {
    pub(crate) session: u16,
    pub(crate) transaction: u64,
    pub(crate) origin: &'static str,
    pub(crate) from: u64,
    pub(crate) upto: u64,
    pub(crate) end: Option<Reply>,
    /// The place of the call that made it a deadlock victim.
    pub(crate) doomed: Option<u64>,
}

/// A request while it waited, with the sessions that it waited for when it began to wait.
#[derive(Drop)]
pub(crate) struct Waited {
    pub(crate) request: Claim,
    pub(crate) blockers: Vec<Blocker>,
    pub(crate) from: u64,
    pub(crate) upto: u64,
}

/// A lock while it was held in one mode.
#[derive(Clone, Copy)]
pub(crate) struct Hold {
    pub(crate) session: u16,
    pub(crate) resource: Resource,
    pub(crate) mode: Mode,
    pub(crate) from: u64,
    pub(crate) upto: u64,
}

/// What a call did to another session: it granted its request, or made its transaction a deadlock victim.
#[derive(Clone, Copy)]
pub enum Deed {
    Grants(u16),
    Dooms(u16),
}

/// A call with its reply, what it did to others, and the waits on the cycles that its request closed.
#[derive(Drop)]
pub(crate) struct Mark {
    pub(crate) place: u64,
    pub(crate) entry: Entry,
    pub(crate) deeds: Vec<Deed>,
    pub(crate) edges: Vec<Edge>,
}

/// A history, or the first part of it, as it is drawn from one place on. Calls are noted one after another with
/// [`note`](Timeline::note), from the first of the history on.
#[derive(Drop)]
pub struct Timeline {
    /// The first place that is drawn. What ended before it isn't kept.
    pub(crate) from: u64,
    /// How many calls were noted, which is the place of the next one.
    pub(crate) noted: u64,
    sessions: u16,
    /// What isn't over yet, by session: its transaction, its wait, and its locks.
    open: IndexMap<u16, Bar>,
    waiting: IndexMap<u16, Waited>,
    held: IndexMap<u16, IndexMap<Resource, Hold>>,
    /// What is over, and the calls in order.
    pub(crate) bars: Vec<Bar>,
    pub(crate) waits: Vec<Waited>,
    pub(crate) holds: Vec<Hold>,
    pub(crate) marks: Vec<Mark>,
}

impl Timeline {
    /// A picture of no calls yet, of the sessions 1 to `sessions`, that is drawn from the place `from` on. Fails only with `NoMemory`.
    pub fn new(alloc: Global, sessions: u16, from: u64) -> Result<Timeline, NoMemory> {
        Ok(Timeline {
            from,
            noted: 0,
            sessions,
            open: IndexMap::new(alloc),
            waiting: IndexMap::new(alloc),
            held: IndexMap::new(alloc),
            bars: Vec::new(alloc),
            waits: Vec::new(alloc),
            holds: Vec::new(alloc),
            marks: Vec::new(alloc),
        })
    }

    /// Notes the next call of the history, with its explanation. Fails only with `NoMemory`, after which the picture is of no use.
    pub fn note(&mut self, alloc: Global, entry: &Entry, told: &Explanation) -> Written {
        self.note_reply(alloc, entry)?;
        let mut mark = Mark {
            place: self.noted,
            entry: *entry,
            deeds: Vec::new(alloc),
            edges: Vec::new(alloc),
        };
        self.note_told(told, &mut mark)?;
        if self.noted >= self.from {
            self.marks.push(mark)?;
        }
        self.noted = self.noted.saturating_add(1);
        Ok(())
    }

    /// Notes what the next call of the history did to another session, whose wait it ended.
    pub fn note_deed(&mut self, deed: Deed) -> Written {
        match deed {
            Deed::Grants(session) => {
                let request = self.waiting.get(&session).map(|wait| wait.request);
                self.end_wait(session)?;
                match request {
                    Some(request) => self.hold(session, request.resource, Some(request.mode)),
                    None => Ok(()),
                }
            }
            Deed::Dooms(session) => {
                self.doom(session);
                self.end_wait(session)
            }
        }
    }

    /// Notes the next call of the history, which isn't drawn, behind the waits that it ended. `request` is the request of its session,
    /// if one waits then.
    pub fn note_unexplained(
        &mut self,
        alloc: Global,
        entry: &Entry,
        request: Option<Claim>,
    ) -> Written {
        self.note_reply(alloc, entry)?;
        if let Call::Lock(_, _) | Call::Convert(_, _) = entry.call {
            match (entry.reply, request) {
                (Reply::Waiting, Some(request)) => self.begin_wait(request, Vec::new(alloc))?,
                (Reply::Deadlock, _) => self.doom(entry.session),
                _ => {}
            }
        }
        self.noted = self.noted.saturating_add(1);
        Ok(())
    }

    /// Whether the session waits, with a request that began to wait at this place.
    pub fn waits_since(&self, session: u16, place: u64) -> bool {
        self.waiting
            .get(&session)
            .is_some_and(|wait| wait.from == place)
    }

    /// Notes for whom the session's request waited when it began to wait, if the session waits.
    pub fn note_blockers(&mut self, session: u16, blockers: Vec<Blocker>) {
        if let Some(wait) = self.waiting.get_mut(&session) {
            wait.blockers = blockers;
        }
    }

    /// Ends all that isn't over at the end of the picture, and brings waits and locks into the order in which they began. Fails only
    /// with `NoMemory`.
    pub fn finish(&mut self, alloc: Global) -> Result<(), NoMemory> {
        for session in 0..=self.sessions {
            self.end(alloc, session, None)?;
        }
        self.waits.sort_by_key(|wait| wait.from)?;
        self.holds.sort_by_key(|hold| hold.from)?;
        Ok(())
    }

    /// Notes what the reply tells of the caller's own transaction and locks.
    fn note_reply(&mut self, alloc: Global, entry: &Entry) -> Written {
        let (session, reply) = (entry.session, entry.reply);
        match (reply, entry.call) {
            (Reply::Began(number), _) => self.begin(alloc, session, number, "begun"),
            (
                Reply::Granted(mode),
                Call::Lock(resource, _) | Call::Convert(resource, _) | Call::Try(resource, _),
            ) => self.hold(session, resource, Some(mode)),
            (Reply::Released, Call::Release(resource)) => self.hold(session, resource, None),
            (Reply::Withdrawn, _) => self.end_wait(session),
            (Reply::Committed(_) | Reply::Aborted(_) | Reply::Restarted(_), _) => {
                self.end(alloc, session, Some(reply))
            }
            _ => Ok(()),
        }
    }

    /// Notes what the call did besides: its own wait, cycles, victims and grants.
    fn note_told(&mut self, told: &Explanation, mark: &mut Mark) -> Written {
        if let Some(wait) = &told.wait {
            mark.edges.extend_from_slice(&wait.edges)?;
            self.begin_wait(wait.request, wait.blockers.clone()?)?;
            if mark.entry.reply != Reply::Waiting {
                self.end_wait(mark.entry.session)?;
            }
        }
        for victim in &told.victims {
            let deed = Deed::Dooms(victim.session);
            mark.deeds.push(deed)?;
            self.note_deed(deed)?;
        }
        for request in &told.granted {
            let deed = Deed::Grants(request.session);
            mark.deeds.push(deed)?;
            self.note_deed(deed)?;
        }
        Ok(())
    }

    /// Begins the wait of the request.
    fn begin_wait(&mut self, request: Claim, blockers: Vec<Blocker>) -> Written {
        let (session, place) = (request.session, self.noted);
        let waited = Waited {
            request,
            blockers,
            from: place,
            upto: place,
        };
        self.waiting.insert(session, waited)?;
        Ok(())
    }

    /// Makes the transaction of the session a victim.
    fn doom(&mut self, session: u16) {
        if let Some(bar) = self.open.get_mut(&session) {
            bar.doomed = Some(self.noted);
        }
    }

    /// Begins the bar of a transaction.
    fn begin(&mut self, alloc: Global, session: u16, number: u64, origin: &'static str) -> Written {
        let bar = Bar {
            session,
            transaction: number,
            origin,
            from: self.noted,
            upto: self.noted,
            end: None,
            doomed: None,
        };
        self.open.insert(session, bar)?;
        self.held.insert(session, IndexMap::new(alloc))?;
        Ok(())
    }

    /// Ends the lock on the resource, and begins one in this mode if there is one. A lock in this mode stays.
    fn hold(&mut self, session: u16, resource: Resource, mode: Option<Mode>) -> Written {
        let Some(held) = self.held.get_mut(&session) else {
            return Ok(());
        };
        if held.get(&resource).map(|hold| hold.mode) == mode {
            return Ok(());
        }
        let ended = held.swap_remove(&resource);
        if let Some(mode) = mode {
            let hold = Hold {
                session,
                resource,
                mode,
                from: self.noted,
                upto: self.noted,
            };
            held.insert(resource, hold)?;
        }
        self.keep_hold(ended)
    }

    /// Keeps a lock that the call ended, if that is drawn.
    fn keep_hold(&mut self, hold: Option<Hold>) -> Written {
        if let (Some(mut hold), true) = (hold, self.noted >= self.from) {
            hold.upto = self.noted;
            self.holds.push(hold)?;
        }
        Ok(())
    }

    /// Ends the wait of the session, if it waits.
    fn end_wait(&mut self, session: u16) -> Written {
        let wait = self.waiting.swap_remove(&session);
        if let (Some(mut wait), true) = (wait, self.noted >= self.from) {
            wait.upto = self.noted;
            self.waits.push(wait)?;
        }
        Ok(())
    }

    /// Ends the transaction of the session, its wait and its locks, and begins the next bar of one that restarts.
    fn end(&mut self, alloc: Global, session: u16, end: Option<Reply>) -> Written {
        self.end_wait(session)?;
        if let Some(held) = self.held.swap_remove(&session) {
            for hold in held.values() {
                self.keep_hold(Some(*hold))?;
            }
        }
        let Some(mut bar) = self.open.swap_remove(&session) else {
            return Ok(());
        };
        bar.upto = self.noted;
        bar.end = end;
        if self.noted >= self.from {
            self.bars.push(bar)?;
        }
        match end {
            Some(Reply::Restarted(_)) => self.begin(alloc, session, bar.transaction, "restarted"),
            _ => Ok(()),
        }
    }
}
