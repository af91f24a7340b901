//! Where in a line a text goes on.

ghost use Rattle.std.specs.Prelude.{◌≡◌};
ghost use Rattle.lock_trace.specs.Comments.{is_shown, spot_behind};

/// Where in a line the next byte stands.
#[derive(Clone, Copy, Debug, Drop, PartialEq, Eq)]
pub enum Spot {
    /// At the beginning of a line.
    Beginning,
    /// Inside a line that is no comment.
    Inside,
    /// Inside a comment.
    Comment,
}

impl Spot {
    /// Whether the byte at this spot stays in the text.
    pub(crate) fn is_shown(self, byte: u8) -> bool
        ensures { result ≡ is_shown self byte }
    {
        match self {
            Spot::Beginning => byte != b'#',
            Spot::Inside => true,
            Spot::Comment => byte == b'\n' || byte == b'\r',
        }
    }

    /// The spot behind the byte at this spot.
    pub(crate) fn behind(self, byte: u8) -> Spot
        ensures { result ≡ spot_behind self byte }
    {
        if byte == b'\n' || byte == b'\r' {
            return Spot::Beginning;
        }
        match self {
            Spot::Beginning if byte == b'#' => Spot::Comment,
            Spot::Beginning => Spot::Inside,
            spot => spot,
        }
    }
}
