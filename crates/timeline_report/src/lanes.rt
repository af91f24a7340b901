//! The lanes: of sessions with their transactions, waits and calls, and of resources with their holders.

use crate::drawing::{
    BAR, Cross, Diamond, Dot, Line, Rect, Ring, Written, put, put_text, width_of,
};
use crate::layout::{LANE, Lane, Layout, ROW, TOP};
use crate::timeline::{Bar, Deed, Hold, Mark, Waited};
use lock_explain::Edge;
use lock_rules::{Call, ClaimKind, Reply};
use std::alloc::AllocError as NoMemory;
use std::fmt::Write;

/// Of how many sessions or waits a title tells.
const MOST_TOLD: usize = 24;

/// Writes a short name at the beginning of a bar or lane, and a long one, again and again, where the labels of the lanes are far away,
/// each if there is room in front of `end`.
fn put_name(out: &mut String, class: &str, x: u64, end: u64, y: u64, names: [&str; 2]) -> Written {
    let [short, long] = names;
    for turn in 0..12u64 {
        let at = x.saturating_add(turn.saturating_mul(960));
        let room = end.saturating_sub(at);
        if at >= 960 && room >= width_of(long) {
            put_text(out, class, at, y, long)?;
        } else if turn == 0 && room >= width_of(short) {
            put_text(out, class, at, y, short)?;
        }
    }
    Ok(())
}

fn put_call(out: &mut String, call: Call) -> Written {
    out.push_str(call.op().word())?;
    match call {
        Call::Lock(resource, mode) | Call::Try(resource, mode) => {
            write!(out, " {resource} in {}", mode.name())
        }
        Call::Convert(resource, mode) => write!(out, " {resource} to {}", mode.name()),
        Call::Release(resource) => write!(out, " {resource}"),
        _ => Ok(()),
    }
}

fn put_reply(out: &mut String, reply: Reply) -> Written {
    out.push_str(reply.kind().word())?;
    match reply {
        Reply::Began(transaction) => write!(out, " transaction {transaction}"),
        Reply::Granted(mode) => write!(out, " {}", mode.name()),
        Reply::Committed(locks) | Reply::Aborted(locks) | Reply::Restarted(locks) => {
            write!(out, ", gave back {locks} locks")
        }
        Reply::Refused(why) => write!(out, ", {}", why.name()),
        _ => Ok(()),
    }
}

/// Writes how many more there are than are told, if there are any.
fn put_more(out: &mut String, all: usize) -> Written {
    match all.saturating_sub(MOST_TOLD) {
        0 => Ok(()),
        more => write!(out, "; and {more} more"),
    }
}

impl Layout<'_> {
    /// Writes the lanes, first the labels of those of sessions with a line along each.
    pub(crate) fn put_lanes(&self, out: &mut String) -> Written {
        let (mut y, right) = (TOP + 17, self.column(self.upto()));
        for session in &self.sessions {
            let label = format!(in self.alloc; "session {session}")?;
            put_text(out, "lane", 10, y.saturating_add(4), &label)?;
            put(out, "base", Line(self.left, y, right, y), &label)?;
            y = y.saturating_add(LANE);
        }
        for bar in &self.timeline.bars {
            self.put_bar(out, bar)?;
        }
        for wait in &self.timeline.waits {
            self.put_wait(out, wait)?;
        }
        for bar in &self.timeline.bars {
            self.put_end(out, bar)?;
        }
        for lane in self.lanes.values() {
            self.put_lane(out, lane)?;
        }
        for mark in &self.timeline.marks {
            self.put_mark(out, mark)?;
            self.put_cycle(out, mark)?;
            for deed in &mark.deeds {
                self.put_deed(out, mark, *deed)?;
            }
        }
        Ok(())
    }

    /// Up to where something lasts.
    fn until(&self, upto: u64) -> Result<String, NoMemory> {
        if upto < self.upto() {
            format!(in self.alloc; "to place {upto}")
        } else {
            format!(in self.alloc; "to the end of the picture")
        }
    }

    /// The title of a wait.
    fn title_of_wait(&self, wait: &Waited) -> Result<String, NoMemory> {
        let (request, from, until) = (&wait.request, wait.from, self.until(wait.upto)?);
        let (session, number) = (request.session, request.transaction.number);
        let (resource, mode) = (request.resource, request.mode.name());
        let mut title = format!(in self.alloc; "session {session}, transaction {number}: ")?;
        write!(&mut title, "waits from place {from} {until} ")?;
        match request.kind {
            ClaimKind::Conversion => write!(&mut title, "to convert {resource} to {mode}")?,
            _ => write!(&mut title, "for {resource} in {mode}")?,
        }
        for blocker in wait.blockers.iter().take(MOST_TOLD) {
            write!(&mut title, "; behind session {}", blocker.party.session)?;
            if let Some(mode) = blocker.held {
                write!(&mut title, ", which holds it in {}", mode.name())?;
            }
            if let Some(mode) = blocker.ahead {
                write!(&mut title, ", which waits ahead for {}", mode.name())?;
            }
        }
        put_more(&mut title, wait.blockers.len())?;
        Ok(title)
    }

    /// The title of a part of a transaction: what happened to it at a place, and how it ended.
    fn title_of_bar(&self, bar: &Bar, what: &str, place: u64) -> Result<String, NoMemory> {
        let (session, number, upto) = (bar.session, bar.transaction, bar.upto);
        let whose = format!(in self.alloc; "session {session}, transaction {number}")?;
        let mut title = format!(in self.alloc; "{whose}: {what} at place {place}, ")?;
        match bar.end {
            None => title.push_str("open at the end of the picture")?,
            Some(Reply::Committed(_)) => write!(&mut title, "committed at place {upto}")?,
            Some(Reply::Aborted(_)) => write!(&mut title, "aborted at place {upto}")?,
            Some(_) => write!(&mut title, "restarted at place {upto}")?,
        }
        Ok(title)
    }

    /// Writes the bar of a transaction: red from where it is a victim, with its name above it.
    fn put_bar(&self, out: &mut String, bar: &Bar) -> Written {
        let (session, number) = (bar.session, bar.transaction);
        let Some(y) = self.bars_at(session) else {
            return Ok(());
        };
        let (x, right) = (self.middle(bar.from), self.middle(bar.upto));
        let title = self.title_of_bar(bar, bar.origin, bar.from)?;
        put(out, "bar", Rect(x, y, right, BAR), &title)?;
        if let Some(place) = bar.doomed {
            let red = self.middle(place);
            let title = self.title_of_bar(bar, "made a deadlock victim", place)?;
            put(out, "victim", Rect(red, y, right, BAR), &title)?;
        }
        let short = format!(in self.alloc; "T{number}")?;
        let long = format!(in self.alloc; "session {session}, {short}")?;
        put_name(out, "name", x, right, y.saturating_sub(2), [&short, &long])
    }

    /// Writes the sign of how a transaction ended, over what lies there.
    fn put_end(&self, out: &mut String, bar: &Bar) -> Written {
        let Some(y) = self.bars_at(bar.session) else {
            return Ok(());
        };
        let title = self.title_of_bar(bar, bar.origin, bar.from)?;
        let (x, middle) = (self.middle(bar.upto), y.saturating_add(7));
        match bar.end {
            Some(Reply::Committed(_)) => put(out, "commit", Dot(x, middle), &title),
            Some(_) => put(out, "abort", Cross(x, middle), &title),
            None => Ok(()),
        }
    }

    /// Writes a wait, half a column wide if its own call ended it, and below it for whom, in the longest form for which there is room.
    fn put_wait(&self, out: &mut String, wait: &Waited) -> Written {
        let Some(y) = self.bars_at(wait.request.session) else {
            return Ok(());
        };
        let wide = u64::from(wait.from == wait.upto).saturating_mul(self.step / 4);
        let x = self.middle(wait.from).saturating_sub(wide);
        let right = self.middle(wait.upto).saturating_add(wide);
        let title = self.title_of_wait(wait)?;
        put(out, "wait", Rect(x, y, right, BAR), &title)?;
        let mut names = String::new(self.alloc);
        for blocker in wait.blockers.iter().take(MOST_TOLD) {
            let sign = if names.is_empty() { "" } else { ", " };
            write!(&mut names, "{sign}{}", blocker.party.session)?;
        }
        for form in ["waits for", "for"] {
            let words = format!(in self.alloc; "{form} {names}")?;
            if width_of(&words) <= right.saturating_sub(x) {
                return put_text(out, "name", x, y.saturating_add(24), &words);
            }
        }
        Ok(())
    }

    /// Writes the lane of a resource: its label, again along the lane, how many locks are left out, and its locks.
    fn put_lane(&self, out: &mut String, lane: &Lane) -> Written {
        let (y, right) = (lane.top, self.column(self.upto()));
        put(out, "border", Line(10, y, right, y), "")?;
        let names = [lane.label.as_str(), lane.label.as_str()];
        put_name(out, "lane", 10, right, y.saturating_add(11), names)?;
        if lane.left_out > 0 {
            let more = format!(in self.alloc; "and {} locks", lane.left_out)?;
            put_text(out, "note", 10, y.saturating_add(24), &more)?;
        }
        for (hold, row) in &lane.holds {
            let depth = (*row as u64).saturating_mul(ROW).saturating_add(14);
            self.put_hold(out, hold, y.saturating_add(depth))?;
        }
        Ok(())
    }

    /// Writes a lock: the session and the mode, if there is room.
    fn put_hold(&self, out: &mut String, hold: &Hold, y: u64) -> Written {
        let (session, resource, mode) = (hold.session, hold.resource, hold.mode.name());
        let (from, until) = (hold.from, self.until(hold.upto)?);
        let mut title = format!(in self.alloc; "session {session} holds {resource} in {mode} ")?;
        write!(&mut title, "from place {from} {until}")?;
        let (x, right) = (self.middle(from), self.middle(hold.upto));
        put(out, mode, Rect(x, y, right, 12), &title)?;
        let name = format!(in self.alloc; "{session} {mode}")?;
        let (x, y) = (x.saturating_add(3), y.saturating_add(10));
        if width_of(&name) < right.saturating_sub(x) {
            put_text(out, "held", x, y, &name)?;
        }
        Ok(())
    }

    /// Writes a call: a tick, and a diamond if it was refused. Its whole column shows its title.
    fn put_mark(&self, out: &mut String, mark: &Mark) -> Written {
        let (place, session) = (mark.place, mark.entry.session);
        let Some(y) = self.bars_at(session) else {
            return Ok(());
        };
        let mut title = format!(in self.alloc; "place {place}, session {session}: ")?;
        put_call(&mut title, mark.entry.call)?;
        title.push_str(": ")?;
        put_reply(&mut title, mark.entry.reply)?;
        let (x, left) = (self.middle(place), self.column(place));
        put(out, "call", Line(x, y, x, y.saturating_add(BAR)), &title)?;
        if let Reply::Refused(_) = mark.entry.reply {
            put(out, "refused", Diamond(x, y.saturating_add(7)), &title)?;
        }
        let right = left.saturating_add(self.step);
        put(out, "column", Rect(left, y, right, BAR), &title)
    }

    /// Writes a ring round each session on the cycles that a call closed, and a line that joins them.
    fn put_cycle(&self, out: &mut String, mark: &Mark) -> Written {
        let (place, caller, x) = (mark.place, mark.entry.session, self.middle(mark.place));
        let call = format!(in self.alloc; "place {place}: the call of session {caller}")?;
        let mut title = format!(in self.alloc; "{call} closes a cycle of waits, or several")?;
        for Edge { session, other } in mark.edges.iter().take(MOST_TOLD) {
            write!(&mut title, "; session {session} waits for session {other}")?;
        }
        put_more(&mut title, mark.edges.len())?;
        let mut above = None;
        for edge in &mark.edges {
            let at = self.bars_at(edge.session).map(|y| y.saturating_add(7));
            if let (Some(middle), true) = (at, at != above) {
                if let Some(before) = above {
                    put(out, "joins", Line(x, before, x, middle), &title)?;
                }
                put(out, "cycle", Ring(x, middle), &title)?;
                above = at;
            }
        }
        Ok(())
    }

    /// Writes an arrow to the session whose wait a call ended, if that is another and both are drawn; one to a victim beside the
    /// middle of its column, so that it doesn't lie on one that grants.
    fn put_deed(&self, out: &mut String, mark: &Mark, deed: Deed) -> Written {
        let (other, class, does, aside) = match deed {
            Deed::Grants(other) => (other, "grants", "grants the request", 0u64),
            Deed::Dooms(other) => (other, "dooms", "makes a deadlock victim", 3u64),
        };
        let (place, session) = (mark.place, mark.entry.session);
        let to = self.bars_at(other).filter(|_| other != session);
        let (Some(y), Some(to)) = (self.bars_at(session), to) else {
            return Ok(());
        };
        let call = format!(in self.alloc; "place {place}: the call of session {session}")?;
        let title = format!(in self.alloc; "{call} {does} of session {other}")?;
        let x = self.middle(place).saturating_add(aside);
        let edge = if y < to { to } else { to.saturating_add(BAR) };
        put(out, class, Line(x, y.saturating_add(7), x, edge), &title)
    }
}
