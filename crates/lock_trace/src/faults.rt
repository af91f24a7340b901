//! The faults of a trace or a history, and the row that each is in.

ghost use Rattle.std.specs.Prelude.{◌≡◌};
ghost use Rattle.lock_trace.specs.Tests.{number_of_kind};

use lock_tree::PathFault;
use thiserror::Error;

/// The first faulty row of a trace or a history, and what is wrong with it. Displayed as `row 3: Mode`.
#[derive(Clone, Copy, Debug, PartialEq, Eq, Error)]
#[error("row {row}: {kind}")]
pub struct TraceFault {
    /// The row number. Rows are counted from 1, without empty lines.
    pub row: u64,
    /// The first test that the row fails, or `Device` or `NoMemory`.
    pub kind: TraceKind,
}

/// Why a row is refused. A trace row is tested in the order `Shape`, `Session`, `Op`, `Path`, `Mode`, `Extra`, and
/// the first test that fails is the fault. A history row is also tested for `Place`, right after `Shape`, and for
/// `Reply` and `Value`, last. `Device` and `NoMemory` are no faults of the text. The tests are this project's own
/// choice, as are the formats; see docs/FORMATS.md.
#[derive(Clone, Copy, Debug, PartialEq, Eq, Error)]
pub enum TraceKind {
    /// The row has too few or too many fields.
    #[error("Shape")]
    Shape,
    /// The session is not the decimal text of a number from 1 to the number of sessions: digits alone, without a
    /// leading zero.
    #[error("Session")]
    Session,
    /// The operation is unknown. Names are lower case.
    #[error("Op")]
    Op,
    /// The operation takes a resource, and the field is no resource path.
    #[error("Path {0}")]
    Path(PathFault),
    /// The operation takes a mode, and the field is no mode's name.
    #[error("Mode")]
    Mode,
    /// A field that the operation does not take is not empty.
    #[error("Extra")]
    Extra,
    /// The reader failed while it read this row.
    #[error("Device")]
    Device,
    /// Memory was refused while this row was read.
    #[error("NoMemory")]
    NoMemory,
    /// The place is not the decimal text of the row's number less 1.
    #[error("Place")]
    Place,
    /// The reply is unknown. Reply words are lower case.
    #[error("Reply")]
    Reply,
    /// The value does not have the form that the reply takes.
    #[error("Value")]
    Value,
}

impl TraceKind {
    /// The number of the fault: 1 to 6 for the tests of a trace row, in their order; 7 for `Device` and 8 for
    /// `NoMemory`; 9 to 11 for the tests that only a history row has.
    pub fn number(&self) -> u8
        ensures { result ≡ number_of_kind self.now }
    {
        match self {
            TraceKind::Shape => 1,
            TraceKind::Session => 2,
            TraceKind::Op => 3,
            TraceKind::Path(_) => 4,
            TraceKind::Mode => 5,
            TraceKind::Extra => 6,
            TraceKind::Device => 7,
            TraceKind::NoMemory => 8,
            TraceKind::Place => 9,
            TraceKind::Reply => 10,
            TraceKind::Value => 11,
        }
    }
}
