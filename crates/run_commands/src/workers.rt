//! The work of one thread of a run: performs the rows of its session one after another, each once.

ghost use Rattle.std.specs.Prelude.{◌≡◌, ℕ, ◌+◌, ◌*◌, ◌++◌, ◌∷◌, [], None, Err, OnOk, length};
ghost use Rattle.run_commands.specs.Calls.{calls_of_rows};
ghost use Rattle.run_commands.specs.Workers.{TriedAtMost, fault_of_stop, rank_of_stop};

use crate::call_gate::Gate;
use combining::{Nobody, UNBOUNDED, back_off, tries_at};
use lock_desk::Call;
use lock_office::{CallOutcome, Office, Program, Session, WithSeen};
use lock_trace::TraceRow;
use replay_commands::ToolFault;

/// Why a thread stopped before its last row, or why a run failed. If there are several reasons, the first in this order is
/// reported.
#[derive(Clone, Copy, Debug, Drop, PartialEq, Eq)]
pub(crate) enum Stop {
    /// Memory was refused: to a pass of the thread's own before its call was answered, or to the run itself.
    NoMemory,
    /// The thread couldn't be started.
    Device,
    /// The gate stayed shut to a call.
    GateShut,
    /// A call wasn't answered within the allowed number of turns.
    TurnLimit,
}

impl Stop {
    /// The fault that the run fails with.
    pub(crate) fn fault(self) -> ToolFault
        ensures { result ≡ fault_of_stop self }
    {
        match self {
            Stop::NoMemory => ToolFault::NoMemory,
            Stop::Device => ToolFault::Device,
            Stop::GateShut => ToolFault::GateShut,
            Stop::TurnLimit => ToolFault::TurnLimit,
        }
    }

    /// The position of the reason in the order of reporting: the number of its fault.
    pub(crate) fn rank(self) -> u8
        ensures { result ≡ rank_of_stop self }
    {
        self.fault().number()
    }
}

/// A shared lock table as a thread of a run uses it: a call is made turn by turn. Generic, so that the contracts of the work
/// don't depend on the office. They hold for a service that counts its sessions' turns, too.
pub(crate) trait Service: Sync {
    ghost use Rattle.std.specs.Prelude.{◌≡◌, ◌≢◌, ◌⊎◌, ℕ, ◌+◌, ◌++◌, ◌∷◌, [], Some, None};
    ghost use Rattle.std.specs.Option.{unwrap_or};
    ghost use Rattle.combining.specs.declared.calling.CallOutcome.TheVariants as CallOutcome;
    ghost use Rattle.run_commands.specs.Workers.{Calls};

    /// A session's handle.
    type Session;

    // the session belongs to this service, and may publish
    ghost is_of: { Self → Self.Session → Type 0 };

    // the session's number, its pending call, and the calls whose answers it collected
    ghost calls: { Self.Session → Calls };

    // the session made this many turns, and none of them was starved
    ghost has_tried: { Self.Session → ℕ → Type 0 };

    // the session's last turn was starved
    ghost was_starved: { Self.Session → Type 0 };

    /// Makes one turn of a call of the session, after `made` turns. A session with a call pending goes on with that one,
    /// whatever `call` is. `Answered`: the answer is collected. `Starved`: memory was refused, and the call is pending. `Wait`:
    /// the call is pending, or not made yet; another turn goes on.
    fn turn(&self, session: &mut Self::Session, call: &Call, made: u64) -> CallOutcome
        requires { is_of self.now session.old }
        ensures ours { is_of self.now session.new }
        ensures answered { (answer : _) → result ≡ CallOutcome.Answered answer → calls session.new ≡ record (calls session.old) {
          pending = None;
          collected = (calls session.old).collected ++ unwrap_or (calls session.old).pending call.now ∷ [];
        } }
        ensures pending { result ≡ CallOutcome.Starved → calls session.new ≡ record (calls session.old) { pending = Some (unwrap_or (calls session.old).pending call.now) } }
        ensures starved { result ≡ CallOutcome.Starved → was_starved session.new }
        ensures waits { result ≡ CallOutcome.Wait → (calls session.new ≡ calls session.old)
            ⊎ (calls session.new ≡ record (calls session.old) { pending = Some (unwrap_or (calls session.old).pending call.now) }) }
        ensures tried { (tries : ℕ) → result ≢ CallOutcome.Starved → has_tried session.old tries → has_tried session.new (tries + 1) };
}

impl Service for Office {
    ghost use Rattle.std.specs.Prelude.{◌≡◌, false};
    ghost use Rattle.lock_office.specs.ProgramTurns.{IsPendingSingle};
    ghost use Rattle.lock_office.specs.Sessions.{IsSessionOf};
    ghost use Rattle.run_commands.specs.Workers.{calls_known};

    /// A session of the office, which makes single calls.
    type Session = Session;

    ghost is_of = { λ office session. IsSessionOf office session × (session.retired ≡ false) × IsPendingSingle session };

    ghost calls = { calls_known };

    // a session of an office doesn't count its turns
    ghost has_tried = { λ session tries. Unit {0} };

    // nor does it remember a starved turn
    ghost was_starved = { λ session. Unit {0} };

    /// Makes the turn, and tells nobody whose waits its passes have ended. The first turn tries to perform the call at once, as a program
    /// of one call; the next one publishes it, and looks for the answer.
    fn turn(&self, session: &mut Session, call: &Call, made: u64) -> CallOutcome {
        let mut nobody = WithSeen::new(Nobody);
        if !session.is_idle() {
            return session.run_look(self, tries_at(made), UNBOUNDED, &mut nobody);
        }
        let program = Program::one(*call);
        if made == 0 {
            return session.run_attempt(self, &program, UNBOUNDED, &mut nobody);
        }
        session.publish_program_if_idle(self, program);
        session.run_look(self, true, UNBOUNDED, &mut nobody)
    }
}

/// Makes a call in at most `turns` turns, and waits between them. Fails with `NoMemory` at the first starved turn, and with
/// `TurnLimit` after `turns` turns.
fn make_call<S: Service>(
    service: &S,
    session: &mut S::Session,
    call: Call,
    turns: u64,
) -> Result<(), Stop>
    requires ours { S.is_of service.now session.old }
    requires idle { (S.calls session.old).pending ≡ None }
    ensures ours { OnOk result (S.is_of service.now session.new) }
    ensures performed { OnOk result (S.calls session.new ≡ record (S.calls session.old) {
      collected = (S.calls session.old).collected ++ call ∷ [];
    }) }
    ensures tried { OnOk result ((before : ℕ) → S.has_tried session.old before → TriedAtMost (S.has_tried session.new) before turns) }
    ensures limit { result ≡ Err Stop.TurnLimit → (before : ℕ) → S.has_tried session.old before → S.has_tried session.new (before + turns) }
    ensures starved { result ≡ Err Stop.NoMemory → S.was_starved session.new }
{
    for made in 0..turns {
        match service.turn(session, &call, made) {
            CallOutcome::Answered(_) => return Ok(()),
            CallOutcome::Starved => return Err(Stop::NoMemory),
            CallOutcome::Wait => back_off(made),
        }
    }
    Err(Stop::TurnLimit)
}

/// Which call of a run it is, as the gate is told.
#[derive(Clone, Copy)]
struct CallNumber {
    /// The session.
    session: u16,
    /// How many calls the session made before.
    index: u64,
}

/// Performs the call with this number: enters the gate, makes the call and leaves the gate. Fails with `GateShut` if the gate
/// stayed shut, or as `make_call` fails.
fn call_through_gate<S: Service, G: Gate>(
    service: &S,
    session: &mut S::Session,
    number: CallNumber,
    call: Call,
    turns: u64,
    gate: &G,
) -> Result<(), Stop>
    requires ours { S.is_of service.now session.old }
    requires idle { (S.calls session.old).pending ≡ None }
    ensures ours { OnOk result (S.is_of service.now session.new) }
    ensures performed { OnOk result (S.calls session.new ≡ record (S.calls session.old) {
      collected = (S.calls session.old).collected ++ call ∷ [];
    }) }
    ensures tried { OnOk result ((before : ℕ) → S.has_tried session.old before → TriedAtMost (S.has_tried session.new) before turns) }
    ensures limit { result ≡ Err Stop.TurnLimit → (before : ℕ) → S.has_tried session.old before → S.has_tried session.new (before + turns) }
    ensures starved { result ≡ Err Stop.NoMemory → S.was_starved session.new }
{
    if !gate.enter(number.session, number.index) {
        return Err(Stop::GateShut);
    }
    make_call(service, session, call, turns)?;
    gate.leave(number.session, number.index);
    Ok(())
}

/// Performs the rows of session `number` in their order, each once. The session must have made no call yet. Fails at the
/// first call that fails.
pub(crate) fn work_through<S: Service, G: Gate>(
    service: &S,
    session: &mut S::Session,
    number: u16,
    rows: &[TraceRow],
    turns: u64,
    gate: &G,
) -> Result<(), Stop>
    requires ours { S.is_of service.now session.old }
    requires new { S.calls session.old ≡ record { number = number; pending = None; collected = [] } }
    ensures ours { OnOk result (S.is_of service.now session.new) }
    ensures performed { OnOk result (S.calls session.new ≡ record { number = number; pending = None; collected = calls_of_rows number rows.now }) }
    ensures tried { OnOk result ((before : ℕ) → S.has_tried session.old before
        → TriedAtMost (S.has_tried session.new) before (length (calls_of_rows number rows.now) * turns)) }
    ensures starved { result ≡ Err Stop.NoMemory → S.was_starved session.new }
{
    let mut index = 0;
    for row in rows {
        if row.session == number {
            let called = CallNumber {
                session: number,
                index,
            };
            call_through_gate(service, session, called, row.call, turns, gate)?;
            index += 1;
        }
    }
    Ok(())
}
