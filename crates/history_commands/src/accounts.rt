//! The account of one call: what its reply says, and what it has brought about.

ghost use Rattle.std.specs.Prelude.{◌≡◌, ℕ, ◌+◌, ◌<◌, ◌++◌, List, [], ◌∷◌, None, Some, is_some, length, All, Ok, IfOk, IfSome, OnOk, string_bytes};
ghost use Rattle.lock_rules.specs.Legal.{state_of};
ghost use Rattle.sequential.specs.Histories.{IsEntryWithin};
ghost use Rattle.lock_explain.specs.Explanations.{IsExplanation};
ghost use Rattle.history_commands.specs.Waits.{waits_of};
ghost use Rattle.history_commands.specs.Explaining.{IsAccount, IsAccountIfEventful, account_in, answer_in, answer_told, doom_answered, is_entry_eventful, is_poll};

use crate::dooming::doomed_by;
use crate::listing::{add_open, waits_by};
use crate::since::with_places;
use command_line::Form;
use lock_desk::{Book, Call, Entry, NoMemory};
use lock_explain::{Explanation, explanation_dot, explanation_rows, explanation_text};
use lock_report::{Doom, WaitLine, answer_rows, answer_text, told_waits};
use lock_trace::piece_text;
use std::alloc::Global;

/// A served call, with the lock table before it.
#[derive(Clone, Copy)]
pub struct ServedCall<'a> {
    /// The lock table before the call.
    pub before: &'a Book,
    /// The entries that `before` has served.
    pub front: &'a [Entry],
    /// The entry of the call.
    pub entry: &'a Entry,
    /// The place of the entry in the history.
    pub place: u64,
}

/// The account of an entry with this explanation at a place. Fails if memory is refused.
fn account_text(
    alloc: Global,
    place: u64,
    entry: &Entry,
    explanation: &Explanation,
    form: Form,
) -> Result<Vec<u8>, NoMemory>
    ensures { IfOk result (λ text. text.items ≡ account_in form place entry.now explanation.now) }
{
    if form == Form::Graph || form == Form::Waits {
        let graph = explanation_dot(alloc, place, explanation)?;
        return Ok(graph.into_bytes());
    }
    if form == Form::Rows {
        let rows = explanation_rows(alloc, place, entry.session, explanation)?;
        return Ok(rows.into_bytes());
    }
    let mut text = piece_text(alloc, place, &[*entry])?;
    let lines = explanation_text(alloc, explanation)?;
    text.extend_from_slice(lines.as_bytes())?;
    Ok(text)
}

/// Which call made the transaction of the session a victim, `None` if it is no victim. The entries are those that `before` has
/// served. Fails if memory is refused.
pub fn doom_of(
    alloc: Global,
    before: &Book,
    front: &[Entry],
    session: u16,
) -> Result<Option<Doom>, NoMemory>
    requires within { All (IsEntryWithin before.now.sessions) front.now }
    requires front { before.now.history ≡ front.now }
    ensures { IfOk result (λ doom. doom ≡ doom_answered before.now.history session) }
{
    let Some(transaction) = before.transaction(session) else {
        return Ok(None);
    };
    if !transaction.doomed {
        return Ok(None);
    }
    doomed_by(alloc, before.sessions(), front, session)
}

/// The waits of `session` in the state of the book, to which these entries have led: that for its first blocker first, with the place since
/// when it waits. Fails if memory is refused.
fn waits_of(
    alloc: Global,
    book: &Book,
    front: &[Entry],
    session: u16,
) -> Result<Vec<WaitLine>, NoMemory>
    requires within { All (IsEntryWithin book.now.sessions) front.now }
    requires front { book.now.history ≡ front.now }
    ensures { IfOk result (λ waits. waits.items ≡ waits_of book.now.sessions (state_of book.now.history).table book.now.history session) }
{
    if !book.is_waiting(session) {
        return Ok(Vec::new(alloc));
    }
    let mut opens = Vec::new(alloc);
    add_open(book, session, &mut opens)?;
    let own = waits_by(alloc, book, session)?;
    let mut claims = Vec::new(alloc);
    book.locks(alloc, &mut claims)?;
    let told = told_waits(alloc, &opens, &claims, &own)?;
    with_places(alloc, front, &told)
}

/// What the answer to a poll of the session tells. The entries are those that `before` has served. Fails if memory is refused.
pub fn answer_of(
    alloc: Global,
    before: &Book,
    front: &[Entry],
    session: u16,
    place: u64,
    form: Form,
) -> Result<String, NoMemory>
    requires within { All (IsEntryWithin before.now.sessions) front.now }
    requires front { before.now.history ≡ front.now }
    requires place { place ≡ length before.now.history }
    ensures { IfOk result (λ text. string_bytes text ≡ answer_in form before.now.sessions before.now.history session) }
{
    if form == Form::Graph || form == Form::Waits {
        return Ok(String::new(alloc));
    }
    let waits = waits_of(alloc, before, front, session)?;
    let doom = doom_of(alloc, before, front, session)?;
    if form == Form::Rows {
        return answer_rows(alloc, place, &waits, doom);
    }
    answer_text(alloc, &waits, doom)
}

/// Whether the call is a poll.
fn is_poll(call: Call) -> bool
    ensures { result ≡ is_poll call }
{
    matches!(call, Call::Poll)
}

/// Appends what the answer tells, if the call is a poll. Fails if memory is refused.
fn add_answer(
    alloc: Global,
    call: &ServedCall<'_>,
    form: Form,
    text: &mut Vec<u8>,
) -> Result<(), NoMemory>
    requires within { All (IsEntryWithin call.now.before.now.sessions) call.now.front.now }
    requires front { call.now.before.now.history ≡ call.now.front.now }
    requires place { call.now.place ≡ length call.now.before.now.history }
    ensures { OnOk result (text.new.items ≡ text.old.items ++ answer_told form call.now.before.now.sessions call.now.before.now.history call.now.entry.now) }
{
    if !is_poll(call.entry.call) {
        return Ok(());
    }
    let told = answer_of(
        alloc,
        call.before,
        call.front,
        call.entry.session,
        call.place,
        form,
    )?;
    text.extend_from_slice(told.as_bytes())?;
    Ok(())
}

/// The account of the call, with what its answer tells if it is a poll. `explanation` is what the call did and why. Fails if memory is
/// refused.
pub fn account(
    alloc: Global,
    call: &ServedCall<'_>,
    explanation: &Explanation,
    form: Form,
) -> Result<Vec<u8>, NoMemory>
    requires within { All (IsEntryWithin call.now.before.now.sessions) call.now.front.now }
    requires front { call.now.before.now.history ≡ call.now.front.now }
    requires explained { IsExplanation call.now.before.now.sessions (state_of call.now.before.now.history) call.now.entry.now.session call.now.entry.now.call explanation.now }
    requires place { call.now.place ≡ length call.now.before.now.history }
    ensures { IfOk result (λ text. IsAccount form call.now.before.now.sessions call.now.before.now.history call.now.entry.now text.items) }
{
    let mut text = account_text(alloc, call.place, call.entry, explanation, form)?;
    add_answer(alloc, call, form, &mut text)?;
    Ok(text)
}

/// Appends the account of the call to `text` if it is explained, which an eventful call is. Fails if memory is refused.
pub(crate) fn add_account_if_eventful(
    alloc: Global,
    call: &ServedCall<'_>,
    told: &Option<Box<Explanation>>,
    form: Form,
    text: &mut Vec<u8>,
) -> Result<(), NoMemory>
    requires within { All (IsEntryWithin call.now.before.now.sessions) call.now.front.now }
    requires front { call.now.before.now.history ≡ call.now.front.now }
    requires eventful { is_some told.now ≡ is_entry_eventful call.now.before.now.sessions call.now.before.now.history call.now.entry.now }
    requires explained { IfSome told.now (λ x. IsExplanation call.now.before.now.sessions (state_of call.now.before.now.history) call.now.entry.now.session call.now.entry.now.call x.value) }
    requires place { call.now.place ≡ length call.now.before.now.history }
    ensures { OnOk result ((added : List ℕ) × (IsAccountIfEventful (is_entry_eventful call.now.before.now.sessions call.now.before.now.history call.now.entry.now) form call.now.before.now.sessions call.now.before.now.history call.now.entry.now added × (text.new.items ≡ text.old.items ++ added))) }
{
    let Some(explanation) = told else {
        return Ok(());
    };
    let appended = account(alloc, call, explanation, form)?;
    text.extend_from_slice(&appended)?;
    Ok(())
}
