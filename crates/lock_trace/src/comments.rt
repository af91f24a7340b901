//! The reader that skips comments.

ghost use Rattle.std.specs.Prelude.{◌≡◌, ◌≤◌, true, length, take, IfOk};
ghost use Rattle.std.specs.Io.{ReadsAtMost};
ghost use Rattle.std.specs.Io.KnownBytes.{ReadConsumes};
ghost use Rattle.lock_trace.specs.Comments.{spot_after, text_read, without_comments_from};
ghost use Rattle.lock_trace.specs.SkippingComments.{HasReadShown, remaining_of};

use crate::spot::Spot;
use std::io;
use std::io::{ErrorKind, Read};

/// Moves the bytes that are no comment to the front. Returns their number, and the spot behind all bytes.
fn keep_shown(bytes: &mut [u8], spot: Spot) -> (usize, Spot)
    ensures length { length bytes.new ≡ length bytes.old }
    ensures few { result.0 ≤ length bytes.new }
    ensures shown { take result.0 bytes.new ≡ without_comments_from spot bytes.old }
    ensures spot { result.1 ≡ spot_after spot bytes.old }
{
    let mut kept = 0;
    let mut spot = spot;
    for at in 0..bytes.len() {
        let byte = bytes[at];
        if spot.is_shown(byte) {
            bytes[kept] = byte;
            kept += 1;
        }
        spot = spot.behind(byte);
    }
    (kept, spot)
}

/// A reader that gives the bytes of another one without comments, or as they are.
#[derive(Drop)]
pub struct SkipComments<R> {
    /// The reader of the text.
    input: R,
    /// Whether comments are skipped.
    skips: bool,
    /// Where in a line the next byte stands.
    spot: Spot,
}

impl<R: Read> SkipComments<R> {
    /// Wraps a reader. Comments are skipped only if `skips`.
    pub fn new(input: R, skips: bool) -> SkipComments<R>
        ensures { remaining_of R.remaining result ≡ text_read skips (R.remaining input) }
    {
        SkipComments {
            input,
            skips,
            spot: Spot::Beginning,
        }
    }

    /// Reads once, and keeps what is no comment. Returns the numbers of bytes that were read and that were kept.
    fn read_once(&mut self, bytes: &mut [u8]) -> io::Result<(usize, usize)>
        requires skips { self.old.skips ≡ true }
        ensures skips { self.new.skips ≡ true }
        ensures length { length bytes.new ≡ length bytes.old }
        ensures few { IfOk result (λ counts. counts.1 ≤ length bytes.new) }
        ensures read { HasReadShown (remaining_of R.remaining self.old) (remaining_of R.remaining self.new) result bytes.new }
    {
        let count = self.input.read(bytes)?;
        let (kept, behind) = keep_shown(&mut bytes[..count], self.spot);
        self.spot = behind;
        Ok((count, kept))
    }

    /// Reads until some byte is no comment, or the text ends.
    fn read_shown(&mut self, bytes: &mut [u8]) -> io::Result<usize>
        requires skips { self.old.skips ≡ true }
        ensures bound { ReadsAtMost result bytes.new }
        ensures bytes { ReadConsumes (remaining_of R.remaining self.old) (remaining_of R.remaining self.new) result bytes.new }
    {
        for _ in 0..u64::MAX {
            let (count, kept) = self.read_once(bytes)?;
            if kept > 0 || count == 0 {
                return Ok(kept);
            }
        }
        Err(io::Error::from(ErrorKind::Other))
    }
}

impl<R: Read> Read for SkipComments<R> {
    ghost remaining = { remaining_of R.remaining };

    /// Reads from the other reader, and skips comments if they are to be skipped.
    fn read(&mut self, bytes: &mut [u8]) -> io::Result<usize> {
        if self.skips {
            self.read_shown(bytes)
        } else {
            self.input.read(bytes)
        }
    }
}
