//! Reads one row of a trace from the fields of its record.

ghost use Rattle.std.specs.Prelude.{◌≡◌};
ghost use Rattle.lock_trace.specs.Rows.{without_fields, resource_and_mode_in, call_in, row_in};

use crate::faults::TraceKind;
use crate::fields::{mode_of, op_of, resource_of, session_of};
use crate::record::{Row, field_at};
use csv::ByteRecord;
use lock_modes::Mode;
use lock_rules::{Call, Op};
use lock_tree::Resource;

/// One row of a trace: a call of a session. Rows are in the order in which the calls are made.
#[derive(Clone, Copy, Debug, PartialEq, Eq)]
pub struct TraceRow {
    /// The session number, counted from 1.
    pub session: u16,
    /// The call that the session makes.
    pub call: Call,
}

/// Returns `call`, which takes no resource and no mode. Fails with `Extra` unless both fields are empty.
#[inline(always)]
fn call_without_fields(call: Call, resource: &[u8], mode: &[u8]) -> Result<Call, TraceKind>
    ensures { result ≡ without_fields call resource.now mode.now }
{
    if !resource.is_empty() || !mode.is_empty() {
        return Err(TraceKind::Extra);
    }
    Ok(call)
}

/// Reads the resource and the mode of a call that takes both. Fails with `Path`, or else with `Mode`.
#[inline(always)]
fn resource_and_mode(resource: &[u8], mode: &[u8]) -> Result<(Resource, Mode), TraceKind>
    ensures { result ≡ resource_and_mode_in resource.now mode.now }
{
    let resource = resource_of(resource)?;
    let mode = mode_of(mode)?;
    Ok((resource, mode))
}

/// Reads the call of an operation from its resource and mode fields. Fails with the first that applies of `Path`,
/// `Mode` and `Extra`.
#[inline(always)]
fn call_of(op: Op, resource: &[u8], mode: &[u8]) -> Result<Call, TraceKind>
    ensures { result ≡ call_in op resource.now mode.now }
{
    match op {
        Op::Begin => call_without_fields(Call::Begin, resource, mode),
        Op::Lock => {
            let (resource, mode) = resource_and_mode(resource, mode)?;
            Ok(Call::Lock(resource, mode))
        }
        Op::Convert => {
            let (resource, mode) = resource_and_mode(resource, mode)?;
            Ok(Call::Convert(resource, mode))
        }
        Op::Poll => call_without_fields(Call::Poll, resource, mode),
        Op::Release => {
            let resource = resource_of(resource)?;
            if !mode.is_empty() {
                return Err(TraceKind::Extra);
            }
            Ok(Call::Release(resource))
        }
        Op::Commit => call_without_fields(Call::Commit, resource, mode),
        Op::Abort => call_without_fields(Call::Abort, resource, mode),
        Op::Try => {
            let (resource, mode) = resource_and_mode(resource, mode)?;
            Ok(Call::Try(resource, mode))
        }
        Op::Withdraw => call_without_fields(Call::Withdraw, resource, mode),
        Op::Restart => call_without_fields(Call::Restart, resource, mode),
    }
}

/// Reads a trace row from its four fields. Fails with the first that applies of `Session`, `Op`, `Path`, `Mode`
/// and `Extra`.
#[inline(always)]
pub(crate) fn read_row(
    sessions: u16,
    session: &[u8],
    op: &[u8],
    resource: &[u8],
    mode: &[u8],
) -> Result<TraceRow, TraceKind>
    ensures { result ≡ row_in sessions session.now op.now resource.now mode.now }
{
    let session = session_of(session, sessions)?;
    let op = op_of(op)?;
    let call = call_of(op, resource, mode)?;
    Ok(TraceRow { session, call })
}

impl Row for TraceRow {
    ghost use Rattle.lock_trace.specs.Rows.{IsRow, fields_of_row, row_of};
    ghost use Rattle.lock_trace.specs.Traces.{records_of_trace};

    ghost is = { IsRow };

    ghost records = { records_of_trace };

    ghost fields = { λ place row. fields_of_row row };

    ghost read = { λ n place fields. row_of n fields };

    fn in_record(row: &ByteRecord, sessions: u16, _place: u64) -> Result<TraceRow, TraceKind> {
        if row.len() != 4 {
            return Err(TraceKind::Shape);
        }
        read_row(
            sessions,
            field_at(row, 0),
            field_at(row, 1),
            field_at(row, 2),
            field_at(row, 3),
        )
    }
}
