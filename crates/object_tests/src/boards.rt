//! A board of a counter, on one thread: two sessions make calls one after another, each as the combiner.

ghost use Rattle.std.specs.Prelude.{◌≡◌, ◌++◌, ◌∷◌, [], false, None, IfOk, IfSome};
ghost use Rattle.publication.specs.Views.{answer};
ghost use Rattle.publication.specs.Boards.{IsOf, OpensNone, new_ticket, new_tickets};

use flat_combining::examples::Counter;
use flat_combining::{Shared, shared};
use publication::{Board, Ticket};
use sequential::{Sequential, Serving};
use std::alloc::{AllocError, Global};
use std::process::Abort;
use std::test::Fail;

/// Serves a call of the session's own, if no other session is the combiner, and enters it into the history. Returns the place of its
/// entry, and the reply; `None`, with no call entered, if there is another combiner or memory is refused.
fn call_alone<O: Serving>(
    board: &Board<O>,
    ticket: &mut Ticket<O>,
    call: O::Call,
) -> Option<(u64, O::Reply)>
    requires ours { IsOf board.now ticket.old }
    requires idle { (ticket.old.pending ≡ None) × (ticket.old.retired ≡ false) }
    requires alone { ticket.old.has_object ≡ false }
    requires none { OpensNone ticket.old }
    ensures entered { IfSome result (λ r. ticket.new.collected ≡ ticket.old.collected ++ answer r.0 call r.1 ∷ []) }
    ensures ours { IsOf board.now ticket.new }
    ensures idle { (ticket.new.pending ≡ None) × (ticket.new.retired ≡ false) }
    ensures alone { ticket.new.has_object ≡ false }
    ensures none { OpensNone ticket.new }
{
    let mut load = board.seize(ticket)?;
    let asked = call;
    let Ok(reply) = load.object.serve(ticket.number(), call) else {
        board.release(ticket, load);
        return None;
    };
    let _served = load.object.served();
    let place = board.enter(ticket, asked, reply);
    board.release(ticket, load);
    Some((place, reply))
}

/// Makes a board of a counter for two sessions, with their tickets.
fn new_board(
    alloc: Global,
) -> Result<(Board<Shared<Counter>>, Vec<Ticket<Shared<Counter>>>), AllocError>
    ensures { IfOk result (λ made. made.1.items ≡ new_tickets made.0.id 2 2) }
{
    Board::new(alloc, shared(alloc, Counter::new(), 2))
}

/// The sessions take turns, and each reply is the sum before.
fn want_turns(
    rt: &impl Abort,
    board: &Board<Shared<Counter>>,
    first: &mut Ticket<Shared<Counter>>,
    second: &mut Ticket<Shared<Counter>>,
)
    requires first { first.old ≡ new_ticket board.now.id 2 1 }
    requires second { second.old ≡ new_ticket board.now.id 2 2 }
{
    assert_eq!(rt; call_alone(board, first, 5), Some((0, 0)));
    assert_eq!(rt; call_alone(board, second, 7), Some((1, 5)));
    assert_eq!(rt; call_alone(board, first, 1), Some((2, 12)));
}

/// Any object can be shared through a board.
#[test]
fn boards_carry_the_calls_of_a_counter(rt: HostRuntime) -> Result<(), Fail> {
    let (board, mut tickets) = new_board(rt.alloc())?;
    let mut second = tickets.pop().expect(&rt, "the ticket of session 2");
    let mut first = tickets.pop().expect(&rt, "the ticket of session 1");
    want_turns(&rt, &board, &mut first, &mut second);
    Ok(())
}
