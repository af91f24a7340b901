//! Writes a text to an output, and says what was written if the output fails.

ghost use Rattle.std.specs.Prelude.{◌≡◌, OnOk, OnErr, IfErr};
ghost use Rattle.std.specs.Io.KnownBytes.{Appends};
ghost use Rattle.replay_commands.specs.Written.{AppendsPart};

use crate::tool_fault::ToolFault;
use std::io::{ErrorKind, Write};

/// Writes the whole text. Fails with `Device` if the writer fails; then the first bytes of the text were written, and nothing
/// else. `Write::write_all` promises nothing of what it wrote before it failed, so this calls `Write::write`. An
/// interrupted write is repeated.
pub fn write_text<W: Write>(output: &mut W, text: &[u8]) -> Result<(), ToolFault>
    ensures written { OnOk result (Appends (W.contents output.old) (W.contents output.new) text.now) }
    ensures part { OnErr result (AppendsPart (W.contents output.old) (W.contents output.new) text.now) }
    ensures fault { IfErr result (λ fault. fault ≡ ToolFault.Device) }
{
    let mut rest = text;
    for _ in 0..u64::MAX {
        if rest.is_empty() {
            return Ok(());
        }
        match output.write(rest) {
            Ok(0) => return Err(ToolFault::Device),
            Ok(written) => rest = &rest[written..],
            Err(error) if error.kind() == ErrorKind::Interrupted => {}
            Err(_) => return Err(ToolFault::Device),
        }
    }
    Err(ToolFault::Device)
}
