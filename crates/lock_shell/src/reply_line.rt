//! The line that shows a call with its reply, and what explains the reply.

ghost use Rattle.std.specs.Prelude.{◌≡◌, ◌++◌, OnOk, codes, decimal, string_bytes};
ghost use Rattle.std.specs.List.{flat_map};
ghost use Rattle.lock_modes.specs.Codes.{name_of};
ghost use Rattle.lock_shell.specs.Replies.{line_of_doomed, line_of_granted, line_of_victim, lines_of_others, text_of_reply, words_of_blocker, words_of_blockers, words_of_fate, words_of_lock, words_of_need, words_of_operands, words_of_refusal, words_of_reply, words_of_start, words_of_wait};

use lock_explain::{
    Blocker, Explanation, MissedParent, Party, Refusal, Wait, put_ahead, put_request, words_of_why,
};
use lock_modes::Mode;
use lock_report::put_words;
use lock_rules::{Call, Claim, Entry, Reply, Why};
use std::alloc::AllocError as NoMemory;
use std::fmt::Write;

/// Writes the place of a call, its session and its op.
fn put_start(out: &mut String, place: u64, session: u16, call: &Call) -> Result<(), NoMemory>
    ensures { OnOk result (string_bytes out.new ≡ string_bytes out.old ++ words_of_start place session call.now) }
{
    let op = call.op().word();
    write!(out, "[{place}] {session} {op}")
}

/// Writes what a call names behind its op.
fn put_operands(out: &mut String, call: &Call) -> Result<(), NoMemory>
    ensures { OnOk result (string_bytes out.new ≡ string_bytes out.old ++ words_of_operands call.now) }
{
    match call {
        Call::Lock(resource, mode) | Call::Convert(resource, mode) | Call::Try(resource, mode) => {
            let name = mode.name();
            write!(out, " {resource} {name}")
        }
        Call::Release(resource) => write!(out, " {resource}"),
        Call::Begin | Call::Poll | Call::Commit | Call::Abort | Call::Withdraw | Call::Restart =>
            Ok(()),
    }
}

/// Writes the words and the name of the mode.
fn put_mode(out: &mut String, words: &str, mode: Mode) -> Result<(), NoMemory>
    ensures { OnOk result (string_bytes out.new ≡ string_bytes out.old ++ (words.now ++ name_of mode)) }
{
    put_words(out, words)?;
    put_words(out, mode.name())
}

/// Writes the lock of a session that a request waits for, nothing if it doesn't conflict.
fn put_lock(out: &mut String, held: Option<Mode>) -> Result<(), NoMemory>
    ensures { OnOk result (string_bytes out.new ≡ string_bytes out.old ++ words_of_lock held) }
{
    match held {
        None => Ok(()),
        Some(mode) => put_mode(out, ", which holds ", mode),
    }
}

/// Writes the number of a session, with these words in front.
fn put_session(out: &mut String, start: &str, session: u16) -> Result<(), NoMemory>
    ensures { OnOk result (string_bytes out.new ≡ string_bytes out.old ++ (start.now ++ codes "session " ++ decimal session)) }
{
    write!(out, "{start}session {session}")
}

/// Writes a session that a request waits for, and through what, with these words in front.
fn put_blocker(out: &mut String, start: &str, blocker: &Blocker) -> Result<(), NoMemory>
    ensures { OnOk result (string_bytes out.new ≡ string_bytes out.old ++ words_of_blocker start.now blocker.now) }
{
    put_session(out, start, blocker.party.session)?;
    put_lock(out, blocker.held)?;
    put_ahead(out, blocker.held, blocker.ahead)
}

/// Writes the sessions that a request waits for, each with these words in front.
fn put_each(out: &mut String, start: &str, blockers: &[Blocker]) -> Result<(), NoMemory>
    ensures { OnOk result (string_bytes out.new ≡ string_bytes out.old ++ flat_map (words_of_blocker start.now) blockers.now) }
{
    for blocker in blockers {
        put_blocker(out, start, blocker)?;
    }
    Ok(())
}

/// Writes the sessions that a request waits for.
fn put_blockers(out: &mut String, blockers: &[Blocker]) -> Result<(), NoMemory>
    ensures { OnOk result (string_bytes out.new ≡ string_bytes out.old ++ words_of_blockers blockers.now) }
{
    if blockers.is_empty() {
        return Ok(());
    }
    let (first, others) = blockers.split_at(1);
    put_each(out, " for ", first)?;
    put_each(out, "; for ", others)
}

/// Writes for whom a request begins to wait, nothing if none does.
fn put_wait(out: &mut String, wait: &Option<Wait>) -> Result<(), NoMemory>
    ensures { OnOk result (string_bytes out.new ≡ string_bytes out.old ++ words_of_wait wait.now) }
{
    match wait {
        None => Ok(()),
        Some(wait) => put_blockers(out, &wait.blockers),
    }
}

/// Writes what a request needs of the parent.
fn put_need(out: &mut String, missed: &MissedParent) -> Result<(), NoMemory>
    ensures { OnOk result (string_bytes out.new ≡ string_bytes out.old ++ words_of_need missed.now) }
{
    let needed = missed.needed.name();
    let parent = missed.parent;
    write!(out, "needs {needed} on {parent}")
}

/// Writes why a call is refused: what it needs of the parent, or else the reason.
fn put_refusal(out: &mut String, why: Why, refusal: &Option<Refusal>) -> Result<(), NoMemory>
    ensures { OnOk result (string_bytes out.new ≡ string_bytes out.old ++ words_of_refusal why refusal.now) }
{
    match refusal {
        Some(refusal) => match &refusal.missed {
            Some(missed) => put_need(out, missed),
            None => put_words(out, words_of_why(why)),
        },
        None => put_words(out, words_of_why(why)),
    }
}

/// Writes a reply, and what explains it.
fn put_reply(out: &mut String, reply: Reply, explanation: &Explanation) -> Result<(), NoMemory>
    ensures { OnOk result (string_bytes out.new ≡ string_bytes out.old ++ words_of_reply reply explanation.now) }
{
    put_words(out, reply.kind().word())?;
    match reply {
        Reply::Began(number) => write!(out, " transaction {number}"),
        Reply::Granted(mode) => put_mode(out, " ", mode),
        Reply::Waiting => put_wait(out, &explanation.wait),
        Reply::Clear => put_words(out, ": it doesn't wait"),
        Reply::Committed(count) => write!(out, ", locks given back: {count}"),
        Reply::Aborted(count) => write!(out, ", locks given back: {count}"),
        Reply::Restarted(count) => write!(out, ", locks given back: {count}"),
        Reply::Refused(why) => {
            put_words(out, ": ")?;
            put_refusal(out, why, &explanation.refusal)
        }
        Reply::Deadlock | Reply::Released | Reply::Withdrawn => Ok(()),
    }
}

/// Writes what becomes of a victim, and how to see why.
fn put_fate(out: &mut String, session: u16) -> Result<(), NoMemory>
    ensures { OnOk result (string_bytes out.new ≡ string_bytes out.old ++ words_of_fate session) }
{
    write!(
        out,
        " is the victim, and can only abort or restart; 'why {session}' says more\n"
    )
}

/// Writes the line of a session whose transaction the call makes a deadlock victim.
fn put_doomed(out: &mut String, session: u16) -> Result<(), NoMemory>
    ensures { OnOk result (string_bytes out.new ≡ string_bytes out.old ++ line_of_doomed session) }
{
    put_session(out, "  deadlock: ", session)?;
    put_fate(out, session)
}

/// Writes the beginning of the line of a request of another session that the call grants.
fn put_grantee(out: &mut String, session: u16) -> Result<(), NoMemory>
    ensures { OnOk result (string_bytes out.new ≡ string_bytes out.old ++ (codes "  session " ++ decimal session ++ codes " is granted its request ")) }
{
    write!(out, "  session {session} is granted its request ")
}

/// Writes the line of a request of another session that the call grants.
fn put_granted(out: &mut String, request: &Claim) -> Result<(), NoMemory>
    ensures { OnOk result (string_bytes out.new ≡ string_bytes out.old ++ line_of_granted request.now) }
{
    put_grantee(out, request.session)?;
    put_request(out, request)?;
    put_words(out, "\n")
}

/// Writes the lines of the victims.
fn put_victims(out: &mut String, victims: &[Party]) -> Result<(), NoMemory>
    ensures { OnOk result (string_bytes out.new ≡ string_bytes out.old ++ flat_map line_of_victim victims.now) }
{
    for victim in victims {
        put_doomed(out, victim.session)?;
    }
    Ok(())
}

/// Writes the lines of the requests of other sessions that the call grants.
fn put_all_granted(out: &mut String, requests: &[Claim]) -> Result<(), NoMemory>
    ensures { OnOk result (string_bytes out.new ≡ string_bytes out.old ++ flat_map line_of_granted requests.now) }
{
    for request in requests {
        put_granted(out, request)?;
    }
    Ok(())
}

/// Writes what the call did to others.
fn put_lines_of_others(out: &mut String, explanation: &Explanation) -> Result<(), NoMemory>
    ensures { OnOk result (string_bytes out.new ≡ string_bytes out.old ++ lines_of_others explanation.now) }
{
    put_victims(out, &explanation.victims)?;
    put_all_granted(out, &explanation.granted)
}

/// Writes the line of the call at a place with its reply, and what the call did to others. Fails if memory is refused.
pub(crate) fn put_reply_text(
    out: &mut String,
    place: u64,
    entry: &Entry,
    explanation: &Explanation,
) -> Result<(), NoMemory>
    ensures { OnOk result (string_bytes out.new ≡ string_bytes out.old ++ text_of_reply place entry.now explanation.now) }
{
    put_start(out, place, entry.session, &entry.call)?;
    put_operands(out, &entry.call)?;
    put_words(out, ": ")?;
    put_reply(out, entry.reply, explanation)?;
    put_words(out, "\n")?;
    put_lines_of_others(out, explanation)
}
