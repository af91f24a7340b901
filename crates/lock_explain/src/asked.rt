//! A request that a call makes.

ghost use Rattle.std.specs.Prelude.{◌≡◌, ◌≤◌, is_some, option_map, IfSome};
ghost use Rattle.lock_rules.specs.State.{held_mode};
ghost use Rattle.lock_rules.specs.Legal.{state_of};
ghost use Rattle.lock_rules.specs.Listing.{kind_of_request, listed_as, transaction_of};
ghost use Rattle.lock_rules.specs.Step.{target_of};
ghost use Rattle.lock_explain.specs.Waiting.{request_if_free, request_made};
ghost use Rattle.lock_explain.specs.inner.Asked.{IsAskedIn, claim_of};

use lock_desk::Book;
use lock_modes::Mode;
use lock_rules::{Call, Claim, ClaimKind, Transaction};
use lock_tree::Resource;

/// A request of a session that doesn't wait.
#[derive(Clone, Copy)]
pub(crate) struct Asked {
    /// The session, numbered from 1.
    pub(crate) session: u16,
    /// The resource that it requests.
    pub(crate) resource: Resource,
    /// The mode that it will hold.
    pub(crate) target: Mode,
    /// Whether it holds the resource already.
    pub(crate) converts: bool,
}

/// The target of a request: the least mode at or above `asked` and what is held.
pub(crate) fn target_of(held: Option<Mode>, asked: Mode) -> Mode
    ensures { result ≡ target_of held asked }
{
    match held {
        Some(held) => held.sup(asked),
        None => asked,
    }
}

/// The request that the call of the session makes, `None` if it requests no lock.
pub(crate) fn asked_by(before: &Book, session: u16, call: &Call) -> Option<Asked>
    ensures made { option_map claim_of result ≡ request_made (state_of before.now.history) session call.now }
    ensures converts { IfSome result (λ asked. asked.converts ≡ is_some (held_mode (state_of before.now.history).table asked.session asked.resource)) }
{
    match *call {
        Call::Lock(resource, mode) | Call::Convert(resource, mode) | Call::Try(resource, mode) => {
            let held = before.held(session, resource);
            Some(Asked {
                session,
                resource,
                target: target_of(held, mode),
                converts: held.is_some(),
            })
        }
        _ => None,
    }
}

/// The request that the call of the session would make, `None` if the session waits already, or if the call requests no lock.
pub(crate) fn asked_if_free(before: &Book, session: u16, call: &Call) -> Option<Asked>
    requires some { 1 ≤ session }
    requires within { session ≤ before.now.sessions }
    ensures made { option_map claim_of result ≡ request_if_free (state_of before.now.history) session call.now }
    ensures asked { IfSome result (IsAskedIn before.now.sessions (state_of before.now.history)) }
{
    if before.is_waiting(session) {
        return None;
    }
    asked_by(before, session, call)
}

/// The open transaction of the session, as a listing shows it.
fn transaction_of(book: &Book, session: u16) -> Transaction
    ensures { result ≡ transaction_of (state_of book.now.history) session }
{
    match book.transaction(session) {
        Some(transaction) => transaction,
        None => Transaction {
            number: 0,
            doomed: false,
        },
    }
}

/// The request as a line of the listing.
pub(crate) fn request_line(before: &Book, asked: &Asked) -> Claim
    requires asked { IsAskedIn before.now.sessions (state_of before.now.history) asked.now }
    ensures { result ≡ listed_as (state_of before.now.history) (kind_of_request (state_of before.now.history) (claim_of asked.now)) (claim_of asked.now) }
{
    let kind = if asked.converts {
        ClaimKind::Conversion
    } else {
        ClaimKind::Fresh
    };
    Claim {
        resource: asked.resource,
        session: asked.session,
        transaction: transaction_of(before, asked.session),
        mode: asked.target,
        kind,
    }
}
