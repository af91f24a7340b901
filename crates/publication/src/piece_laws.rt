//! What the pieces of the history that sessions took make together. Each law is the contract of a function that does
//! nothing.

ghost use Rattle.std.specs.Prelude.{◌≡◌, ℕ, ◌+◌, ◌<◌, ◌≤◌, List, ◌++◌, length, slice_index_or, take, drop};
ghost use mathlib.Core.List.{IsPrefix};
ghost use Rattle.publication.specs.Pieces.{AreInOrder, AreInARow, lines_in, put_together};
ghost use Rattle.publication.specs.declared.piece.Piece.{Piece};

/// Of the lines in which an object writes its history down: pieces that follow one another without a gap are these lines up to
/// where the last piece ends, and with what is behind that place they are all of them. The lines of a piece stay what they are
/// as more are written behind them. Pieces that follow one another share no place.
pub fn pieces_are_the_history<L: Copy>()
    ensures together { (lines : List L) (pieces : List Piece) (upto : ℕ) →
        AreInARow 0 pieces upto → upto ≤ length lines → put_together lines pieces ≡ take upto lines }
    ensures whole { (lines : List L) (pieces : List Piece) (upto : ℕ) →
        AreInARow 0 pieces upto → upto ≤ length lines → put_together lines pieces ++ drop upto lines ≡ lines }
    ensures stay { (front lines : List L) (piece : Piece) →
        IsPrefix front lines → piece.first + piece.count ≤ length front → lines_in lines piece ≡ lines_in front piece }
    ensures apart { (from upto i j : ℕ) (pieces : List Piece) (d : Piece) → AreInOrder from pieces upto → i < j → j < length pieces →
        (slice_index_or pieces i d).first + (slice_index_or pieces i d).count ≤ (slice_index_or pieces j d).first }
{}
