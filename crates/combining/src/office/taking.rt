//! Taking the history out of an open office.

ghost use Rattle.std.specs.Prelude.{◌≡◌, ◌+◌, ◌<◌, ◌≤◌, [], None, Some, Ok, IfOk, IfErr, IfSome, IfNone, length, vec_len};
ghost use Rattle.publication.specs.Boards.{HasCallsOf};
ghost use Rattle.combining.specs.Sessions.{IsSessionOf, HasTakenPiece};

use crate::office::Office;
use publication::{Piece, Ticket as Session};
use sequential::{MOST_DROPPED, Trimming};
use std::alloc::{AllocError as NoMemory, Global};

/// A piece of the history that a session took.
#[derive(Drop)]
pub struct HistoryPiece<L> {
    /// The place of its first line, from 0 on.
    pub first: u64,
    /// What the object wrote down of its history from that place on, in order: of most objects the calls with their replies.
    pub lines: Vec<L>,
    /// How many lines the object had written down in all by then, with those that it keeps and those that are gone.
    pub written: u64,
}

impl<O: Trimming> Office<O> {
    /// Takes the lines that the object keeps of its history: those that no session has taken before, and no bound has let go.
    /// They leave the object's memory, and the history that contracts see stays what it is. `None`, with nothing changed, means
    /// that another session had the object, as `Turn::Elsewhere` of `serve` does. The session need not be idle, and serves no
    /// calls.
    ///
    /// Each piece says at which place it begins. The pieces that sessions take follow one another, without a gap if the object
    /// has no bound (clause `ok` of `close`; `publication::piece_laws`). Put in order, they and what the closed office's object
    /// still has are all lines. An object that has written down more than `MOST_DROPPED` lines hands out none. It takes no
    /// memory.
    pub fn take_history(
        &self,
        alloc: Global,
        session: &mut Session<O>,
    ) -> Option<HistoryPiece<O::Line>>
        requires ours { IsSessionOf self.now session.old }
        ensures ours { IsSessionOf self.now session.new }
        ensures some { IfSome result (λ piece. HasTakenPiece O.Sequential O.lines session.old session.new piece.first piece.lines.items) }
        ensures all { IfSome result (λ piece. length (O.lines session.new.front) ≤ MOST_DROPPED → piece.first + vec_len piece.lines ≡ length (O.lines session.new.front)) }
        ensures written { IfSome result (λ piece. piece.written ≡ length (O.lines session.new.front)) }
        ensures many { IfSome result (λ piece. MOST_DROPPED < length (O.lines session.new.front) → piece.lines.items ≡ []) }
        ensures none { IfNone result ((session.new ≡ session.old) × (1 < self.now.sessions)) }
        ensures calls { HasCallsOf session.new.front session.new }
    {
        let mut load = self.board.seize(session)?;
        let first = load.object.kept_from();
        let written = first + load.object.kept().len() as u64;
        let lines = load.object.take_kept(alloc);
        let piece = Piece {
            session: session.number(),
            first,
            count: lines.len() as u64,
        };
        load.pieces.push(&piece);
        self.board.release(session, load);
        Some(HistoryPiece {
            first,
            lines,
            written,
        })
    }

    /// Takes the oldest lines that the object keeps, at most `most`, else as `take_history` does: fewer only if no more are kept.
    ///
    /// Memory for `most` lines is taken first, before the object is tried for. Fails with `NoMemory` if it is refused,
    /// with nothing changed.
    pub fn take_oldest(
        &self,
        alloc: Global,
        session: &mut Session<O>,
        most: usize,
    ) -> Result<Option<HistoryPiece<O::Line>>, NoMemory>
        requires ours { IsSessionOf self.now session.old }
        ensures ours { IsSessionOf self.now session.new }
        ensures some { (piece : _) → result ≡ Ok (Some piece) → HasTakenPiece O.Sequential O.lines session.old session.new piece.first piece.lines.items }
        ensures few { (piece : _) → result ≡ Ok (Some piece) → vec_len piece.lines ≤ most }
        ensures all { (piece : _) → result ≡ Ok (Some piece) → vec_len piece.lines < most → piece.first + vec_len piece.lines ≡ length (O.lines session.new.front) }
        ensures written { (piece : _) → result ≡ Ok (Some piece) → piece.written ≡ length (O.lines session.new.front) }
        ensures none { result ≡ Ok None → (session.new ≡ session.old) × (1 < self.now.sessions) }
        ensures err { IfErr result (λ _. session.new ≡ session.old) }
        ensures calls { IfOk result (λ _. HasCallsOf session.new.front session.new) }
    {
        let mut lines = Vec::with_capacity(alloc, most)?;
        let Some(mut load) = self.board.seize(session) else {
            return Ok(None);
        };
        let first = load.object.kept_from();
        let kept = load.object.kept();
        let written = first + kept.len() as u64;
        let count = usize::min(most, kept.len());
        let Ok(()) = lines.extend_from_slice(&kept[..count]) else {
            unreachable!()
        };
        load.object.let_go(count as u64);
        let piece = Piece {
            session: session.number(),
            first,
            count: count as u64,
        };
        load.pieces.push(&piece);
        self.board.release(session, load);
        Ok(Some(HistoryPiece {
            first,
            lines,
            written,
        }))
    }
}
