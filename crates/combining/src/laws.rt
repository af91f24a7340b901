//! What the contracts of this crate imply together. A law is the contract of a function that does nothing.

ghost use Rattle.std.specs.Prelude.{List};
ghost use Rattle.publication.specs.Views.{BoardView, TicketView};
ghost use Rattle.combining.specs.Closed.{IsClosed, IsOneHistory};

use sequential::Sequential;

/// Whatever calls the threads made, and however their atomic steps interleaved, the history of a closed office is sequential:
/// every reply in it is one that the object gives at its place, and any other that it can give there agrees with it. Each
/// session's calls are in the history, each once, in the session's order.
pub fn closed_offices_have_one_history<O: Sequential>()
    ensures { (office : BoardView) (sessions : List (TicketView O.Call O.Reply)) (object : O) →
        IsClosed O.Sequential office sessions object → IsOneHistory O.Sequential sessions (O.history object) }
{}
