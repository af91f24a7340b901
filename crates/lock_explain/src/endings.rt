//! How a call ended waits: the victims that it made, and the requests of others that it granted.

ghost use Rattle.std.specs.Prelude.{◌≡◌, ◌++◌, ℕ, true, [], Contains, IfOk, OnOk};
ghost use Rattle.lock_rules.specs.State.{is_doomed};
ghost use Rattle.lock_rules.specs.Legal.{state_of};
ghost use Rattle.lock_explain.specs.Endings.{AreNewVictims, granted_request, granted_requests, is_new_victim};
ghost use Rattle.lock_explain.specs.inner.NewVictims.{new_victim, new_victims};
ghost use Rattle.lock_explain.specs.inner.Served.{AreEnded, IsServed};

use crate::explanation::Party;
use crate::waiting::party_of;
use lock_desk::Book;
use lock_rules::{Claim, Entry};
use std::alloc::{AllocError as NoMemory, Global};

/// Whether the open transaction of the session is a deadlock victim.
pub(crate) fn is_doomed(book: &Book, session: u16) -> bool
    ensures { result ≡ is_doomed (state_of book.now.history) session }
{
    match book.transaction(session) {
        Some(transaction) => transaction.doomed,
        None => false,
    }
}

/// Whether the call made the transaction of the session a victim.
fn is_new_victim(before: &Book, session: u16, after: &Book) -> bool
    ensures { result ≡ is_new_victim (state_of before.now.history) (state_of after.now.history) session }
{
    !is_doomed(before, session) && is_doomed(after, session)
}

/// Adds the session to the list if the call made its transaction a victim. Fails if memory is refused.
fn add_new_victim(
    before: &Book,
    session: u16,
    after: &Book,
    victims: &mut Vec<Party>,
) -> Result<(), NoMemory>
    ensures { OnOk result (victims.new.items ≡ victims.old.items ++ new_victim (state_of before.now.history) (state_of after.now.history) session) }
{
    if is_new_victim(before, session, after) {
        victims.push(party_of(after, session))?;
    }
    Ok(())
}

/// The sessions whose transactions the call made victims, by session number. Fails if memory is refused.
fn new_victims_by_session(
    alloc: Global,
    before: &Book,
    after: &Book,
) -> Result<Vec<Party>, NoMemory>
    ensures { IfOk result (λ victims. victims.items ≡ new_victims before.now.sessions (state_of before.now.history) (state_of after.now.history)) }
{
    let mut victims = Vec::new(alloc);
    let sessions = before.sessions();
    for position in 0..sessions {
        add_new_victim(before, position + 1, after, &mut victims)?;
    }
    Ok(victims)
}

/// Whether the call ended the wait of no other session.
fn ends_none(after: &Book) -> bool
    ensures { result ≡ true → (u : ℕ) → Contains after.now.ended u → ⊥ }
{
    after.ended().is_empty()
}

/// Whether the call made no victim: it ended no wait, and its own session isn't a new victim.
fn makes_no_victim(before: &Book, entry: &Entry, after: &Book) -> bool
    requires served { IsServed before.now.sessions before.now.history entry.now (state_of after.now.history) }
    requires ended { AreEnded before.now.sessions before.now.history entry.now after.now.ended }
    ensures { result ≡ true → AreNewVictims before.now.sessions (state_of before.now.history) (state_of after.now.history) [] }
{
    ends_none(after) && !is_new_victim(before, entry.session, after)
}

/// The sessions whose transactions are victims after a call, but weren't before it, the youngest first. Goes through all sessions only if
/// there are some. Fails if memory is refused.
pub(crate) fn new_victims(
    alloc: Global,
    before: &Book,
    entry: &Entry,
    after: &Book,
) -> Result<Vec<Party>, NoMemory>
    requires sessions { after.now.sessions ≡ before.now.sessions }
    requires served { IsServed before.now.sessions before.now.history entry.now (state_of after.now.history) }
    requires ended { AreEnded before.now.sessions before.now.history entry.now after.now.ended }
    ensures { IfOk result (λ victims. AreNewVictims before.now.sessions (state_of before.now.history) (state_of after.now.history) victims.items) }
{
    if makes_no_victim(before, entry, after) {
        return Ok(Vec::new(alloc));
    }
    let mut victims = new_victims_by_session(alloc, before, after)?;
    victims.sort_unstable_by(|a, b| b.transaction.cmp(&a.transaction));
    Ok(victims)
}

/// Adds the waiting request of the session to the list if it isn't the caller and the call granted the request. Fails if
/// memory is refused.
fn add_granted(
    before: &Book,
    caller: u16,
    session: u16,
    after: &Book,
    granted: &mut Vec<Claim>,
) -> Result<(), NoMemory>
    ensures { OnOk result (granted.new.items ≡ granted.old.items ++ granted_request caller (state_of before.now.history) (state_of after.now.history) session) }
{
    if !before.is_waiting(session) || after.is_waiting(session) {
        return Ok(());
    }
    if session == caller || is_doomed(after, session) {
        return Ok(());
    }
    let Some(request) = before.request(session) else {
        return Ok(());
    };
    granted.push(request)?;
    Ok(())
}

/// The waiting requests of the sessions other than the caller that a call granted, by session number. Goes through all sessions only if
/// the call ended a wait. Fails if memory is refused.
pub(crate) fn granted_requests(
    alloc: Global,
    before: &Book,
    entry: &Entry,
    after: &Book,
) -> Result<Vec<Claim>, NoMemory>
    requires sessions { after.now.sessions ≡ before.now.sessions }
    requires served { IsServed before.now.sessions before.now.history entry.now (state_of after.now.history) }
    requires ended { AreEnded before.now.sessions before.now.history entry.now after.now.ended }
    ensures { IfOk result (λ granted. granted.items ≡ granted_requests before.now.sessions entry.now.session (state_of before.now.history) (state_of after.now.history)) }
{
    let mut granted = Vec::new(alloc);
    if ends_none(after) {
        return Ok(granted);
    }
    let sessions = before.sessions();
    for position in 0..sessions {
        add_granted(before, entry.session, position + 1, after, &mut granted)?;
    }
    Ok(granted)
}
