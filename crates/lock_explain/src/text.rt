//! An explanation as lines for people.

ghost use Rattle.std.specs.Prelude.{◌≡◌, ◌++◌, IfOk, OnOk, string_bytes};
ghost use Rattle.std.specs.List.{flat_map};
ghost use Rattle.lock_modes.specs.Codes.{name_of};
ghost use Rattle.lock_explain.specs.ExplanationText.{has_nothing_to_tell, words_of_why, line_of_why, words_of_parent_held, line_of_parent, lines_of_missed, line_of_lock_below, lines_of_refusal, refusal_part, lines_of_asked, lines_if_asked, line_of_member, line_of_edge, lines_of_members, words_of_edge, lines_of_edges, lines_of_cycle, lines_of_wait, wait_part, line_of_victim, count_of_victims, words_of_owned, line_of_granted, own_part, lines_of_explanation, text_of_explanation};

use crate::explanation::{Blocker, Edge, Explanation, MissedParent, Party, Refusal, Wait};
use crate::request_text::{
    put_blockers, put_line_of_request, put_party, put_request, put_words_and_mode,
};
use lock_modes::Mode;
use lock_report::put_words;
use lock_rules::{Claim, Why};
use std::alloc::{AllocError as NoMemory, Global};
use std::fmt::Write;

/// Whether there is nothing to tell: no refusal, no wait, no victims, and no request of another session granted.
pub(crate) fn has_nothing_to_tell(explanation: &Explanation) -> bool
    ensures { result ≡ has_nothing_to_tell explanation.now }
{
    explanation.refusal.is_none()
        && explanation.wait.is_none()
        && explanation.victims.is_empty()
        && explanation.granted.is_empty()
}

/// The reason of a refusal in words. The number of locks is `MAX_LOCKS`: the contract fails if the limit becomes another.
pub fn words_of_why(why: Why) -> &'static str
    ensures { result.now ≡ words_of_why why }
{
    match why {
        Why::AlreadyOpen => "the session has an open transaction",
        Why::NoTransaction => "the session has no open transaction",
        Why::IsWaiting => "the session waits",
        Why::IsDoomed => "the session's transaction is a deadlock victim",
        Why::NothingAsked => "mode NL asks for nothing",
        Why::NotHeld => "the session doesn't hold the resource",
        Why::ParentNotHeld => "the parent isn't held as the request needs it",
        Why::ChildHeld => "the session holds a lock below the resource",
        Why::TooManyLocks => "the session holds 4096 locks",
        Why::WouldWait => "the request would wait",
        Why::NotWaiting => "the session doesn't wait",
    }
}

/// Writes the line of the reason.
fn put_why(out: &mut String, why: Why) -> Result<(), NoMemory>
    ensures { OnOk result (string_bytes out.new ≡ string_bytes out.old ++ line_of_why why) }
{
    let words = words_of_why(why);
    writeln!(out, "  refused: {words}")
}

/// Writes how the session holds the parent that it lacks.
fn put_parent_held(out: &mut String, held: Option<Mode>) -> Result<(), NoMemory>
    ensures { OnOk result (string_bytes out.new ≡ string_bytes out.old ++ words_of_parent_held held) }
{
    match held {
        None => put_words(out, "doesn't hold it"),
        Some(mode) => put_words_and_mode(out, "holds it in ", mode),
    }
}

/// Writes the line of the parent that a request lacks.
fn put_parent(out: &mut String, missed: &MissedParent) -> Result<(), NoMemory>
    ensures { OnOk result (string_bytes out.new ≡ string_bytes out.old ++ line_of_parent missed.now) }
{
    let needed = missed.needed.name();
    let parent = missed.parent;
    write!(out, "    needs {needed} on {parent}, and ")?;
    put_parent_held(out, missed.held)?;
    put_words(out, "\n")
}

/// Writes the line of the parent, nothing for `None`.
fn put_missed(out: &mut String, missed: &Option<MissedParent>) -> Result<(), NoMemory>
    ensures { OnOk result (string_bytes out.new ≡ string_bytes out.old ++ lines_of_missed missed.now) }
{
    match missed {
        None => Ok(()),
        Some(missed) => put_parent(out, missed),
    }
}

/// Writes the line of a lock below the resource.
fn put_lock_below(out: &mut String, lock: &Claim) -> Result<(), NoMemory>
    ensures { OnOk result (string_bytes out.new ≡ string_bytes out.old ++ line_of_lock_below lock.now) }
{
    let resource = lock.resource;
    let mode = lock.mode.name();
    writeln!(out, "    holds {resource} in {mode}")
}

/// Writes the lines of the locks below the resource.
fn put_locks_below(out: &mut String, locks: &[Claim]) -> Result<(), NoMemory>
    ensures { OnOk result (string_bytes out.new ≡ string_bytes out.old ++ flat_map line_of_lock_below locks.now) }
{
    for lock in locks {
        put_lock_below(out, lock)?;
    }
    Ok(())
}

/// Writes the lines of a request that would wait, and of the sessions that it would wait for.
fn put_asked(out: &mut String, request: &Claim, blockers: &[Blocker]) -> Result<(), NoMemory>
    ensures { OnOk result (string_bytes out.new ≡ string_bytes out.old ++ lines_of_asked request.now blockers.now) }
{
    put_line_of_request(out, "  would begin to wait ", request)?;
    put_blockers(out, "    would wait for ", blockers)
}

/// Writes the lines of the request that would wait, nothing for `None`.
fn put_if_asked(
    out: &mut String,
    request: &Option<Claim>,
    blockers: &[Blocker],
) -> Result<(), NoMemory>
    ensures { OnOk result (string_bytes out.new ≡ string_bytes out.old ++ lines_if_asked request.now blockers.now) }
{
    match request {
        None => Ok(()),
        Some(request) => put_asked(out, request, blockers),
    }
}

/// Writes the lines of a refusal.
fn put_refusal(out: &mut String, refusal: &Refusal) -> Result<(), NoMemory>
    ensures { OnOk result (string_bytes out.new ≡ string_bytes out.old ++ lines_of_refusal refusal.now) }
{
    put_why(out, refusal.why)?;
    put_missed(out, &refusal.missed)?;
    put_locks_below(out, &refusal.below)?;
    put_if_asked(out, &refusal.request, &refusal.blockers)
}

/// Writes the lines of the refusal, nothing for `None`.
fn put_refusal_part(out: &mut String, refusal: &Option<Refusal>) -> Result<(), NoMemory>
    ensures { OnOk result (string_bytes out.new ≡ string_bytes out.old ++ refusal_part refusal.now) }
{
    match refusal {
        None => Ok(()),
        Some(refusal) => put_refusal(out, refusal),
    }
}

/// Writes the line of a session on a cycle.
fn put_member(out: &mut String, member: &Party) -> Result<(), NoMemory>
    ensures { OnOk result (string_bytes out.new ≡ string_bytes out.old ++ line_of_member member.now) }
{
    put_words(out, "    ")?;
    put_party(out, member)?;
    put_words(out, "\n")
}

/// Writes the lines of the sessions on a cycle.
fn put_members(out: &mut String, members: &[Party]) -> Result<(), NoMemory>
    ensures { OnOk result (string_bytes out.new ≡ string_bytes out.old ++ flat_map line_of_member members.now) }
{
    for member in members {
        put_member(out, member)?;
    }
    Ok(())
}

/// Writes a wait of one session on a cycle for another.
fn put_words_of_edge(out: &mut String, edge: &Edge) -> Result<(), NoMemory>
    ensures { OnOk result (string_bytes out.new ≡ string_bytes out.old ++ words_of_edge edge.now) }
{
    write!(
        out,
        "session {} waits for session {}",
        edge.session, edge.other
    )
}

/// Writes the line of the wait.
fn put_edge(out: &mut String, edge: &Edge) -> Result<(), NoMemory>
    ensures { OnOk result (string_bytes out.new ≡ string_bytes out.old ++ line_of_edge edge.now) }
{
    put_words(out, "    ")?;
    put_words_of_edge(out, edge)?;
    put_words(out, "\n")
}

/// Writes the lines of the waits of the sessions on a cycle.
fn put_edges(out: &mut String, edges: &[Edge]) -> Result<(), NoMemory>
    ensures { OnOk result (string_bytes out.new ≡ string_bytes out.old ++ flat_map line_of_edge edges.now) }
{
    for edge in edges {
        put_edge(out, edge)?;
    }
    Ok(())
}

/// Writes the lines of the sessions on a cycle, after the words before them.
fn put_members_part(out: &mut String, members: &[Party]) -> Result<(), NoMemory>
    ensures { OnOk result (string_bytes out.new ≡ string_bytes out.old ++ lines_of_members members.now) }
{
    put_words(out, "  closes a cycle of waits, or several, through\n")?;
    put_members(out, members)
}

/// Writes the lines of the waits of the sessions on a cycle, after the word before them.
fn put_edges_part(out: &mut String, edges: &[Edge]) -> Result<(), NoMemory>
    ensures { OnOk result (string_bytes out.new ≡ string_bytes out.old ++ lines_of_edges edges.now) }
{
    put_words(out, "  where\n")?;
    put_edges(out, edges)
}

/// Writes the lines of the cycles that the request closed, nothing if it closed none.
fn put_cycle(out: &mut String, members: &[Party], edges: &[Edge]) -> Result<(), NoMemory>
    ensures { OnOk result (string_bytes out.new ≡ string_bytes out.old ++ lines_of_cycle members.now edges.now) }
{
    if members.is_empty() {
        return Ok(());
    }
    put_members_part(out, members)?;
    put_edges_part(out, edges)
}

/// Writes the lines of a wait.
fn put_wait(out: &mut String, wait: &Wait) -> Result<(), NoMemory>
    ensures { OnOk result (string_bytes out.new ≡ string_bytes out.old ++ lines_of_wait wait.now) }
{
    put_line_of_request(out, "  begins to wait ", &wait.request)?;
    put_blockers(out, "    waits for ", &wait.blockers)?;
    put_cycle(out, &wait.cycle, &wait.edges)
}

/// Writes the lines of the wait, nothing for `None`.
fn put_wait_part(out: &mut String, wait: &Option<Wait>) -> Result<(), NoMemory>
    ensures { OnOk result (string_bytes out.new ≡ string_bytes out.old ++ wait_part wait.now) }
{
    match wait {
        None => Ok(()),
        Some(wait) => put_wait(out, wait),
    }
}

/// Writes the line of a deadlock victim.
fn put_victim(out: &mut String, victim: &Party) -> Result<(), NoMemory>
    ensures { OnOk result (string_bytes out.new ≡ string_bytes out.old ++ line_of_victim victim.now) }
{
    put_words(out, "  victim: ")?;
    put_party(out, victim)?;
    put_words(out, ", the youngest on a cycle\n")
}

/// Writes the lines of the victims.
fn put_victims(out: &mut String, victims: &[Party]) -> Result<(), NoMemory>
    ensures { OnOk result (string_bytes out.new ≡ string_bytes out.old ++ flat_map line_of_victim victims.now) }
{
    for victim in victims {
        put_victim(out, victim)?;
    }
    Ok(())
}

/// Writes the line of how many victims there are, if there are several.
fn put_count_of_victims(out: &mut String, victims: &[Party]) -> Result<(), NoMemory>
    ensures { OnOk result (string_bytes out.new ≡ string_bytes out.old ++ count_of_victims victims.now) }
{
    if 1 < victims.len() {
        write!(out, "  victims: {}\n", victims.len())
    } else {
        Ok(())
    }
}

/// Writes a request with its session and transaction.
fn put_owned(out: &mut String, request: &Claim) -> Result<(), NoMemory>
    ensures { OnOk result (string_bytes out.new ≡ string_bytes out.old ++ words_of_owned request.now) }
{
    write!(
        out,
        "session {}, transaction {}, ",
        request.session, request.transaction.number
    )?;
    put_request(out, request)
}

/// Writes the line of a request of another session that was granted.
fn put_granted(out: &mut String, request: &Claim) -> Result<(), NoMemory>
    ensures { OnOk result (string_bytes out.new ≡ string_bytes out.old ++ line_of_granted request.now) }
{
    put_words(out, "  grants the request of ")?;
    put_owned(out, request)?;
    put_words(out, "\n")
}

/// Writes the lines of the requests of other sessions that were granted.
fn put_all_granted(out: &mut String, requests: &[Claim]) -> Result<(), NoMemory>
    ensures { OnOk result (string_bytes out.new ≡ string_bytes out.old ++ flat_map line_of_granted requests.now) }
{
    for request in requests {
        put_granted(out, request)?;
    }
    Ok(())
}

/// Writes the line of the call's own request, if it was granted after its wait.
fn put_own_part(out: &mut String, wait: &Option<Wait>) -> Result<(), NoMemory>
    ensures { OnOk result (string_bytes out.new ≡ string_bytes out.old ++ own_part wait.now) }
{
    match wait {
        None => Ok(()),
        Some(wait) => {
            if wait.granted {
                put_words(
                    out,
                    "  then its own request is granted, since victims made room\n",
                )
            } else {
                Ok(())
            }
        }
    }
}

/// Writes what the call did.
fn put_lines(out: &mut String, explanation: &Explanation) -> Result<(), NoMemory>
    ensures { OnOk result (string_bytes out.new ≡ string_bytes out.old ++ lines_of_explanation explanation.now) }
{
    put_refusal_part(out, &explanation.refusal)?;
    put_wait_part(out, &explanation.wait)?;
    put_count_of_victims(out, &explanation.victims)?;
    put_victims(out, &explanation.victims)?;
    put_all_granted(out, &explanation.granted)?;
    put_own_part(out, &explanation.wait)
}

/// An explanation as lines for people: why the call was refused, what its request waits for and the cycles that it closed,
/// the victims, and the requests that were granted. One line if there is nothing to tell. Fails only with `NoMemory`.
pub fn explanation_text(alloc: Global, explanation: &Explanation) -> Result<String, NoMemory>
    ensures { IfOk result (λ text. string_bytes text ≡ text_of_explanation explanation.now) }
{
    let mut out = String::new(alloc);
    if has_nothing_to_tell(explanation) {
        put_words(&mut out, "  done at once; nothing changed for others\n")?;
    } else {
        put_lines(&mut out, explanation)?;
    }
    Ok(out)
}
