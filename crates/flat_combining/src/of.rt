//! The sequential object that a machine is.

ghost use Rattle.std.specs.Prelude.{◌≡◌, ◌≤◌, []};
ghost use Rattle.flat_combining.specs.Runs.{state_behind};

use crate::machine::Machine;
use sequential::{MAX_SESSIONS, Recording, Stepping};
use std::alloc::{AllocError as NoMemory, Global};
use std::marker::Model;

/// A machine as an object that is given by one function. Contracts see the machine.
#[derive(Drop)]
pub struct Of<M: Machine> {
    /// The machine.
    machine: M,
}

/// The object of an office that shares a machine.
pub type Shared<M> = Recording<Of<M>>;

impl<M: Machine> Model for Of<M> {
    ghost use Rattle.flat_combining.specs.declared.of.Of.TheInside.{Inside};

    ghost Value = { M };

    ghost view = { λ (of : Inside). of.machine };
}

impl<M: Machine> Stepping for Of<M> {
    type Call = M::Call;

    type Reply = M::Reply;

    ghost use Rattle.std.specs.Prelude.{false};
    ghost use Rattle.flat_combining.specs.Runs.{reply_behind};

    ghost reply_to = { reply_behind M.Machine };

    ghost is_behind = { λ machine before. machine ≡ state_behind M.Machine before };

    ghost goes_first = { λ _. false };

    ghost any_call = { M.Machine.any_call };

    ghost any_reply = { M.Machine.reply M.Machine.initial 1 M.Machine.any_call };

    fn goes_first(_call: &M::Call) -> bool {
        false
    }

    fn step(&mut self, session: u16, call: M::Call) -> Result<M::Reply, NoMemory> {
        let reply = self.machine.step(session, call)?;
        Ok(reply)
    }
}

/// A machine in its initial state as an object for sessions 1 to `sessions`. It keeps no history in memory: that which contracts see
/// takes none.
pub fn shared<M: Machine>(alloc: Global, machine: M, sessions: u16) -> Shared<M>
    requires some { 1 ≤ sessions }
    requires few { sessions ≤ MAX_SESSIONS }
    requires initial { machine ≡ M.initial }
    ensures { result ≡ record { object = machine; sessions = sessions; history = []; cut = 0; bound = 0 } }
{
    let mut object = Recording::new(alloc, Of { machine }, sessions);
    object.keep_at_most(0);
    object
}

/// The machine of an object, in the state that the history leads to.
pub fn machine_of<M: Machine>(object: &Shared<M>) -> &M
    ensures { result.now ≡ state_behind M.Machine object.now.history }
{
    &object.object().machine
}
