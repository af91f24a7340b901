//! The explanation of a served call.

ghost use Rattle.std.specs.Prelude.{◌≡◌, ◌≢◌, ◌≤◌, ◌⊎◌, ◌++◌, ◌&&◌, not, true, false, List, [], ◌∷◌, is_some, IfOk, IfNone, IfSome};
ghost use Rattle.lock_rules.specs.declared.calls.Reply.{Reply as ReplyValue};
ghost use Rattle.lock_rules.specs.State.{Claim as ClaimValue, is_doomed, is_waiting};
ghost use Rattle.lock_rules.specs.Effects.{IsNotRefused};
ghost use Rattle.lock_rules.specs.Ended.{ended_waits};
ghost use Rattle.lock_rules.specs.Legal.{state_of};
ghost use Rattle.lock_rules.specs.Step.{step};
ghost use Rattle.sequential.specs.Histories.{IsEntryWithin};
ghost use Rattle.lock_explain.specs.Cycles.{cycle_of, edges_of};
ghost use Rattle.lock_explain.specs.Endings.{AreNewVictims};
ghost use Rattle.lock_explain.specs.Explanations.{IsExplanation, IsWaitOfCall, is_eventful};
ghost use Rattle.lock_explain.specs.Refused.{IsRefusalOf, blockers_if_asked};
ghost use Rattle.lock_explain.specs.Waiting.{BeginsToWait, request_if_free, waiting_state};
ghost use Rattle.lock_explain.specs.inner.Asked.{IsAskedIn, claim_of};
ghost use Rattle.lock_explain.specs.inner.Served.{AreEnded, IsServed};

use crate::asked::{Asked, asked_by, asked_if_free, request_line};
use crate::cycles::{Cycle, cycle_of};
use crate::endings::{granted_requests, is_doomed, new_victims};
use crate::explanation::{Blocker, EventfulCall, ExplainedCall, Explanation, Party, Refusal, Wait};
use crate::refusal::{blockers_if_asked, refusal_of};
use crate::waiting::blockers_of;
use lock_desk::Book;
use lock_rules::{Call, Entry, Reply};
use std::alloc::{AllocError as NoMemory, Global};

/// Why the served call was refused, `None` if it wasn't. Fails if memory is refused.
fn refusal_of_entry(
    alloc: Global,
    before: &Book,
    entry: &Entry,
) -> Result<Option<Refusal>, NoMemory>
    requires session { IsEntryWithin before.now.sessions entry.now }
    requires reply { entry.now.reply ≡ (step (state_of before.now.history) entry.now.session entry.now.call).reply }
    ensures refused { IfOk result (λ refusal. IfSome refusal (IsRefusalOf before.now.sessions (state_of before.now.history) entry.now.session entry.now.call)) }
    ensures accepted { IfOk result (λ refusal. IfNone refusal (IsNotRefused (state_of before.now.history) entry.now.session entry.now.call)) }
{
    let Reply::Refused(why) = entry.reply else {
        return Ok(None);
    };
    let refusal = refusal_of(alloc, before, entry.session, entry.call, why)?;
    Ok(Some(refusal))
}

/// Whether a call that requests a lock began to wait, by its reply and its victims: the request waits after the call, or the
/// call made victims.
fn has_begun_wait(reply: Reply, victims: &[Party]) -> bool
    ensures waits { result ≡ true → (reply ≡ ReplyValue.Waiting) ⊎ (victims.now ≢ []) }
    ensures none { result ≡ false → (reply ≢ ReplyValue.Waiting) × (victims.now ≡ []) }
{
    reply == Reply::Waiting || !victims.is_empty()
}

/// The request with which the call began to wait, `None` if none did. After the call such a request waits, or the call has
/// made victims.
fn wait_begun(before: &Book, entry: &Entry, victims: &[Party]) -> Option<Asked>
    requires served { IsServed before.now.sessions before.now.history entry.now (step (state_of before.now.history) entry.now.session entry.now.call).state }
    requires victims { AreNewVictims before.now.sessions (state_of before.now.history) (step (state_of before.now.history) entry.now.session entry.now.call).state victims.now }
    ensures own { IfSome result (λ asked. asked.session ≡ entry.now.session) }
    ensures asked { IfSome result (IsAskedIn before.now.sessions (state_of before.now.history)) }
    ensures begins { IfSome result (λ asked. BeginsToWait (state_of before.now.history) entry.now.session entry.now.call (claim_of asked)) }
    ensures none { IfNone result ((q : ClaimValue) → BeginsToWait (state_of before.now.history) entry.now.session entry.now.call q → ⊥) }
{
    if !has_begun_wait(entry.reply, victims) {
        return None;
    }
    asked_by(before, entry.session, &entry.call)
}

/// Whether the session neither waits nor is a victim.
fn is_clear(after: &Book, session: u16) -> bool
    ensures { result ≡ (not (is_waiting (state_of after.now.history) session) && not (is_doomed (state_of after.now.history) session)) }
{
    !after.is_waiting(session) && !is_doomed(after, session)
}

/// The cycles that the request of the call closed, none if the call made no victim. Fails if memory is refused.
// A request that closes a cycle makes a victim, so the waits-for graph is looked at only then.
fn cycle_closed(
    alloc: Global,
    before: &Book,
    entry: &Entry,
    asked: &Asked,
    victims: &[Party],
) -> Result<Cycle, NoMemory>
    requires served { IsServed before.now.sessions before.now.history entry.now (step (state_of before.now.history) entry.now.session entry.now.call).state }
    requires own { asked.now.session ≡ entry.now.session }
    requires asked { IsAskedIn before.now.sessions (state_of before.now.history) asked.now }
    requires begins { BeginsToWait (state_of before.now.history) entry.now.session entry.now.call (claim_of asked.now) }
    requires victims { AreNewVictims before.now.sessions (state_of before.now.history) (step (state_of before.now.history) entry.now.session entry.now.call).state victims.now }
    ensures members { IfOk result (λ cycle. cycle.members.items ≡ cycle_of before.now.sessions (waiting_state (state_of before.now.history) (claim_of asked.now)) asked.now.session) }
    ensures edges { IfOk result (λ cycle. cycle.edges.items ≡ edges_of before.now.sessions (waiting_state (state_of before.now.history) (claim_of asked.now)) asked.now.session) }
{
    if victims.is_empty() {
        return Ok(Cycle {
            members: Vec::new(alloc),
            edges: Vec::new(alloc),
        });
    }
    cycle_of(alloc, before, *asked)
}

/// What the request of the call waits for, once it has begun to wait. Fails if memory is refused.
fn wait_of(
    alloc: Global,
    before: &Book,
    entry: &Entry,
    asked: &Asked,
    victims: &[Party],
    after: &Book,
) -> Result<Wait, NoMemory>
    requires served { IsServed before.now.sessions before.now.history entry.now (state_of after.now.history) }
    requires victims { AreNewVictims before.now.sessions (state_of before.now.history) (state_of after.now.history) victims.now }
    requires own { asked.now.session ≡ entry.now.session }
    requires asked { IsAskedIn before.now.sessions (state_of before.now.history) asked.now }
    requires begins { BeginsToWait (state_of before.now.history) entry.now.session entry.now.call (claim_of asked.now) }
    ensures { IfOk result (IsWaitOfCall before.now.sessions (state_of before.now.history) entry.now.session entry.now.call) }
{
    let blockers = blockers_of(alloc, before, *asked)?;
    let cycle = cycle_closed(alloc, before, entry, asked, victims)?;
    Ok(Wait {
        request: request_line(before, asked),
        blockers,
        cycle: cycle.members,
        edges: cycle.edges,
        granted: is_clear(after, asked.session),
    })
}

/// The wait that the call began, `None` if it began none. Fails if memory is refused.
fn wait_of_entry(
    alloc: Global,
    before: &Book,
    entry: &Entry,
    victims: &[Party],
    after: &Book,
) -> Result<Option<Wait>, NoMemory>
    requires served { IsServed before.now.sessions before.now.history entry.now (state_of after.now.history) }
    requires victims { AreNewVictims before.now.sessions (state_of before.now.history) (state_of after.now.history) victims.now }
    ensures wait { IfOk result (λ wait. IfSome wait (IsWaitOfCall before.now.sessions (state_of before.now.history) entry.now.session entry.now.call)) }
    ensures no_wait { IfOk result (λ wait. IfNone wait ((q : ClaimValue) → BeginsToWait (state_of before.now.history) entry.now.session entry.now.call q → ⊥)) }
{
    let Some(asked) = wait_begun(before, entry, victims) else {
        return Ok(None);
    };
    let wait = wait_of(alloc, before, entry, &asked, victims, after)?;
    Ok(Some(wait))
}

/// Explains the call of the entry, which `after` has served last, and `before` hasn't. Fails if memory is refused.
fn explain(
    alloc: Global,
    before: &Book,
    entry: &Entry,
    after: &Book,
) -> Result<Explanation, NoMemory>
    requires sessions { after.now.sessions ≡ before.now.sessions }
    requires served { after.now.history ≡ before.now.history ++ entry.now ∷ [] }
    requires ended { AreEnded before.now.sessions before.now.history entry.now after.now.ended }
    ensures { IfOk result (IsExplanation before.now.sessions (state_of before.now.history) entry.now.session entry.now.call) }
{
    // called for its contract: the history is legal, so the entry has the reply of `step`
    let _history = after.history();
    let refusal = refusal_of_entry(alloc, before, entry)?;
    let victims = new_victims(alloc, before, entry, after)?;
    let wait = wait_of_entry(alloc, before, entry, &victims, after)?;
    let granted = granted_requests(alloc, before, entry, after)?;
    Ok(Explanation {
        refusal,
        wait,
        victims,
        granted,
    })
}

/// The entry of a call with this reply.
fn entry_of(session: u16, call: Call, reply: Reply) -> Entry
    ensures { result ≡ record { session = session; call = call; reply = reply } }
{
    Entry {
        session,
        call,
        reply,
    }
}

/// Serves a call of `session` on `after`, and explains it: why it was refused; for whom its request began to wait and through what, and
/// the cycles that this closed; who became a victim; and whose requests it granted.
///
/// Both books have served the same calls, and are of the same sessions, 1 to `before.sessions()`; `before` doesn't serve this one. Fails
/// with `NoMemory` if memory is refused; `after` may have served the call then. What an explanation tells, and in which order, is this
/// project's own. A call costs a look at all sessions only if its request waits, or if it ends a wait or makes a victim.
pub fn serve_explained(
    alloc: Global,
    before: &Book,
    after: &mut Book,
    session: u16,
    call: &Call,
) -> Result<ExplainedCall, NoMemory>
    requires some { 1 ≤ session }
    requires within { session ≤ before.now.sessions }
    requires sessions { after.old.sessions ≡ before.now.sessions }
    requires same { after.old.history ≡ before.now.history }
    ensures reply { IfOk result (λ told. told.reply ≡ (step (state_of before.now.history) session call.now).reply) }
    ensures book { IfOk result (λ told. after.new ≡ record after.old {
      history = before.now.history ++ record { session = session; call = call.now; reply = told.reply } ∷ [];
      ended = ended_waits before.now.sessions session (state_of before.now.history) (step (state_of before.now.history) session call.now).state;
    }) }
    ensures explanation { IfOk result (λ told. IsExplanation before.now.sessions (state_of before.now.history) session call.now told.explanation) }
{
    let reply = after.serve(session, *call)?;
    let entry = entry_of(session, *call, reply);
    let explanation = explain(alloc, before, &entry, after)?;
    Ok(ExplainedCall { reply, explanation })
}

/// Explains the call of the entry as `explain` does, if it is eventful. Fails if memory is refused.
fn explain_if_eventful(
    alloc: Global,
    before: &Book,
    entry: &Entry,
    after: &Book,
) -> Result<Option<Box<Explanation>>, NoMemory>
    requires sessions { after.now.sessions ≡ before.now.sessions }
    requires served { after.now.history ≡ before.now.history ++ entry.now ∷ [] }
    requires ended { AreEnded before.now.sessions before.now.history entry.now after.now.ended }
    ensures eventful { IfOk result (λ told. is_some told ≡ is_eventful entry.now.call entry.now.reply after.now.ended) }
    ensures explained { IfOk result (λ told. IfSome told (λ x. IsExplanation before.now.sessions (state_of before.now.history) entry.now.session entry.now.call x.value)) }
{
    if !is_eventful(entry, after.ended()) {
        return Ok(None);
    }
    let explanation = explain(alloc, before, entry, after)?;
    match Box::new(alloc, explanation) {
        Ok(boxed) => Ok(Some(boxed)),
        Err(_) => Err(NoMemory),
    }
}

/// Serves a call of `session` on `after`, and explains it as `serve_explained` does if it is eventful, as `is_eventful` says: a call that
/// isn't costs what it costs to serve it.
pub fn serve_eventful(
    alloc: Global,
    before: &Book,
    after: &mut Book,
    session: u16,
    call: &Call,
) -> Result<EventfulCall, NoMemory>
    requires some { 1 ≤ session }
    requires within { session ≤ before.now.sessions }
    requires sessions { after.old.sessions ≡ before.now.sessions }
    requires same { after.old.history ≡ before.now.history }
    ensures reply { IfOk result (λ told. told.reply ≡ (step (state_of before.now.history) session call.now).reply) }
    ensures book { IfOk result (λ told. after.new ≡ record after.old {
      history = before.now.history ++ record { session = session; call = call.now; reply = told.reply } ∷ [];
      ended = ended_waits before.now.sessions session (state_of before.now.history) (step (state_of before.now.history) session call.now).state;
    }) }
    ensures eventful { IfOk result (λ told. is_some told.explanation ≡ is_eventful call.now told.reply (ended_waits before.now.sessions session (state_of before.now.history) (step (state_of before.now.history) session call.now).state)) }
    ensures explained { IfOk result (λ told. IfSome told.explanation (λ x. IsExplanation before.now.sessions (state_of before.now.history) session call.now x.value)) }
{
    let reply = after.serve(session, *call)?;
    let entry = entry_of(session, *call, reply);
    let explanation = explain_if_eventful(alloc, before, &entry, after)?;
    Ok(EventfulCall { reply, explanation })
}

/// The sessions that the request of a call would wait for, by session number: none if the session waits already, or if the call requests no
/// lock. Fails if memory is refused.
pub fn blockers_ahead(
    alloc: Global,
    before: &Book,
    session: u16,
    call: Call,
) -> Result<Vec<Blocker>, NoMemory>
    requires some { 1 ≤ session }
    requires within { session ≤ before.now.sessions }
    ensures { IfOk result (λ blockers. blockers.items ≡ blockers_if_asked before.now.sessions (state_of before.now.history) (request_if_free (state_of before.now.history) session call)) }
{
    let asked = asked_if_free(before, session, &call);
    blockers_if_asked(alloc, before, &asked)
}

/// Whether a call is worth an explanation: it was refused, its own request waited, or it ended the wait of another session.
/// `ended` has the sessions whose wait it ended, as [`Book::ended`] lists them.
pub fn is_eventful(entry: &Entry, ended: &[u16]) -> bool
    ensures { result ≡ is_eventful entry.now.call entry.now.reply ended.now }
{
    match (entry.call, entry.reply) {
        (_, Reply::Refused(_)) => true,
        (Call::Lock(_, _) | Call::Convert(_, _), Reply::Waiting | Reply::Deadlock) => true,
        _ => !ended.is_empty(),
    }
}
