//! Laws of what replays write. A caller's proof cites a law by calling it; the call does nothing at run time.

ghost use Rattle.std.specs.Prelude.{◌≡◌, ℕ, List, Option};
ghost use Rattle.lock_trace.specs.declared.trace_row.TraceRow.{TraceRow as RowValue};
ghost use Rattle.replay_commands.specs.Replays.{HasReplayedFront, HasReplayedPart, IsTextFor};

/// The rows of a trace have one text of a history, by whichever way it is written. What a replay in pieces has written if
/// memory was refused is the beginning of it.
pub fn rows_have_one_text()
    ensures one { (rows : List RowValue) (a b : List ℕ) → IsTextFor rows a → IsTextFor rows b → a ≡ b }
    ensures front { (rows : List RowValue) (old new : Option (List ℕ)) → HasReplayedFront rows old new → HasReplayedPart rows old new }
{}
