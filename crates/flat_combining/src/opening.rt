//! A first call, of which every session knows before it makes one of its own.

ghost use Rattle.std.specs.Prelude.{◌≡◌, IfOk, IsOk, All, map, [], ◌∷◌, ◌++◌};
ghost use Rattle.publication.specs.Views.{TicketView, answer};
ghost use Rattle.combining.specs.Sessions.{IsSessionOf, IsIdle};
ghost use Rattle.flat_combining.specs.Runs.{BeginsWith};

use crate::machine::Machine;
use crate::of::Shared;
use combining::{CallOutcome, Nobody, Office, Session, UNBOUNDED};
use std::alloc::{AllocError as NoMemory, Global};

/// Makes the first call of an office for the session `own`, and lets the others hear of it, which it returns in order.
fn begin_others<M: Machine>(
    alloc: Global,
    office: &Office<Shared<M>>,
    own: &mut Session<Shared<M>>,
    others: Vec<Session<Shared<M>>>,
    first: M::Call,
) -> Result<Vec<Session<Shared<M>>>, NoMemory>
    requires own { IsSessionOf office.now own.old × IsIdle own.old }
    requires others { All (λ session. IsSessionOf office.now session × IsIdle session) others.items }
    ensures own { IfOk result (λ _. (IsSessionOf office.now own.new × IsIdle own.new) × BeginsWith first own.new.front) }
    ensures called { IfOk result (λ _. (own.new.number ≡ own.old.number) × (reply : M.Reply) × (own.new.collected ≡ own.old.collected ++ answer 0 first reply ∷ [])) }
    ensures ready { IfOk result (λ made. All (λ session. IsSessionOf office.now session × IsIdle session) made.items) }
    ensures begun { IfOk result (λ made. All (λ session. BeginsWith first session.front) made.items) }
    ensures unchanged { IfOk result (λ made. map (λ (session : TicketView M.Call M.Reply). record session { front = []; heard = [] }) made.items ≡ map (λ (session : TicketView M.Call M.Reply). record session { front = []; heard = [] }) others.items) }
{
    let next = combining::call(office, own, first, u64::MAX, UNBOUNDED, &mut Nobody);
    let CallOutcome::Answered(answer) = next else {
        return Err(NoMemory);
    };
    if answer.place != 0 {
        return Err(NoMemory);
    }
    let mut made = Vec::new(alloc);
    for session in others {
        let mut session = session;
        office.hear(&mut session, own);
        made.push(session)?;
    }
    Ok(made)
}

/// Puts `own` behind the others, unless there was an error.
fn join<T: Drop>(others: Result<Vec<T>, NoMemory>, own: T) -> Result<Vec<T>, NoMemory>
    ensures came { IfOk result (λ _. IsOk others) }
    ensures items { IfOk result (λ all. IfOk others (λ made. all.items ≡ made.items ++ own ∷ [])) }
{
    let mut all = others?;
    all.push(own)?;
    Ok(all)
}

/// Makes the first call of an office that has just been opened, for the session `own`, and lets the others hear of it. Returns the others
/// in order, with `own` behind them, as `run` takes them. A value that is known only at run time, as a capacity, gets into the state by a
/// first call that sets it, if no later call changes it (`laws::first_calls_set_what_stays`).
///
/// Fails with `NoMemory` if memory is refused, and also if another call came first, which only the place of the answer tells. The sessions
/// are dropped then, so that the office can't be closed.
pub fn begin<M: Machine>(
    alloc: Global,
    office: &Office<Shared<M>>,
    own: Session<Shared<M>>,
    others: Vec<Session<Shared<M>>>,
    first: M::Call,
) -> Result<Vec<Session<Shared<M>>>, NoMemory>
    requires own { IsSessionOf office.now own × IsIdle own }
    requires others { All (λ session. IsSessionOf office.now session × IsIdle session) others.items }
    ensures ready { IfOk result (λ made. All (λ session. IsSessionOf office.now session × IsIdle session) made.items) }
    ensures begun { IfOk result (λ made. All (λ session. BeginsWith first session.front) made.items) }
    ensures called { IfOk result (λ made. (last : TicketView M.Call M.Reply) × ((last.number ≡ own.number) × (reply : M.Reply) × (last.collected ≡ own.collected ++ answer 0 first reply ∷ []))
        × (map (λ (session : TicketView M.Call M.Reply). record session { front = []; heard = [] }) made.items ≡ map (λ (session : TicketView M.Call M.Reply). record session { front = []; heard = [] }) (others.items ++ last ∷ []))) }
{
    let mut own = own;
    let made = begin_others(alloc, office, &mut own, others, first);
    join(made, own)
}
