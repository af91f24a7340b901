//! Why a command of the tool failed, and the number of each kind of fault.

ghost use Rattle.std.specs.Prelude.{◌≡◌};
ghost use Rattle.replay_commands.specs.Faults.{number_of_fault};

use lock_trace::TraceFault;
use thiserror::Error;

/// Why a command failed. The program prints its text on standard error after `glm: `, except that a row that failed for the
/// device or for memory is printed like `Device` or `NoMemory`, without its number.
#[derive(Clone, Copy, Debug, Drop, PartialEq, Eq, Error)]
pub enum ToolFault {
    /// A row of the input was refused, or couldn't be read.
    #[error("{0}")]
    Trace(TraceFault),
    /// Memory was refused.
    #[error("out of memory")]
    NoMemory,
    /// The writer failed, or a thread couldn't be started.
    #[error("device")]
    Device,
    /// The gate of a run stayed shut to a call.
    #[error("gate shut")]
    GateShut,
    /// A call of a run wasn't answered within the number of tries that the caller allowed.
    #[error("turn limit")]
    TurnLimit,
}

impl ToolFault {
    /// The number of the fault: 1 for `Trace`, 2 for `NoMemory`, 3 for `Device`, 4 for `GateShut`, 5 for `TurnLimit`.
    pub fn number(&self) -> u8
        ensures { result ≡ number_of_fault self.now }
    {
        match self {
            ToolFault::Trace(_) => 1,
            ToolFault::NoMemory => 2,
            ToolFault::Device => 3,
            ToolFault::GateShut => 4,
            ToolFault::TurnLimit => 5,
        }
    }
}
