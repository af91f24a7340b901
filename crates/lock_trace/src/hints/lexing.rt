//! Finds rows and fields in a text, by the rules of the `csv` crate.

ghost use Rattle.std.specs.Prelude.{◌≡◌};
ghost use Rattle.csv.specs.Machine.{step};
ghost use Rattle.csv.specs.Reading.{default_config};
ghost use Rattle.csv.specs.declared.parser.State.{State};
ghost use Rattle.lock_trace.specs.inner.HintSpots.{IsSpotOf};

use std::ops::Range;

/// Where in a row the next byte is, by the rules of the `csv` crate.
#[derive(Clone, Copy, Debug, Drop, PartialEq, Eq)]
pub(crate) enum Spot {
    /// Between rows, where line ends are skipped.
    RowStart,
    /// At the first byte of a field, where a quote may open.
    FieldStart,
    /// In a field, outside of quotes.
    Plain,
    /// Inside quotes.
    Quoted,
    /// Behind a quote inside quotes, which closes them unless another follows.
    QuoteInQuoted,
}

impl Spot {
    /// The spot behind `byte`.
    fn after(self, byte: u8) -> Spot
        ensures csv { (state : State) → IsSpotOf state self → IsSpotOf (step default_config state byte).0 result }
    {
        match (self, byte) {
            (Spot::Quoted, b'"') => Spot::QuoteInQuoted,
            (Spot::Quoted, _) => Spot::Quoted,
            (Spot::RowStart | Spot::FieldStart | Spot::QuoteInQuoted, b'"') => Spot::Quoted,
            (_, b'\n' | b'\r') => Spot::RowStart,
            (_, b',') => Spot::FieldStart,
            _ => Spot::Plain,
        }
    }
}

/// What is in front of a place in a text.
#[derive(Clone, Copy, Debug, Default, Drop, PartialEq, Eq)]
pub(crate) struct Counted {
    /// How many bytes.
    pub(crate) bytes: usize,
    /// How many rows.
    pub(crate) rows: u64,
    /// How many line feeds.
    pub(crate) lines: u64,
}

/// Counts up to the first row behind `bytes` bytes and `rows` rows. `None` if there is none.
pub(crate) fn row_behind(text: &[u8], bytes: usize, rows: u64) -> Option<Counted> {
    let mut counted = Counted::default();
    let mut spot = Spot::RowStart;
    for byte in text {
        let next = spot.after(*byte);
        if spot == Spot::RowStart && next != Spot::RowStart {
            if counted.bytes >= bytes && counted.rows >= rows {
                return Some(counted);
            }
            counted.rows = counted.rows.saturating_add(1);
        }
        if *byte == b'\n' {
            counted.lines = counted.lines.saturating_add(1);
        }
        counted.bytes = counted.bytes.saturating_add(1);
        spot = next;
    }
    None
}

/// Where the field at this index of the row at the front of the text is, with its quotes, if the first one has the index `first`.
/// The last one if the row has fewer.
pub(crate) fn field_span(text: &[u8], first: usize, index: usize) -> Range<usize> {
    let (mut start, mut field, mut spot) = (0, first, Spot::RowStart);
    for (at, byte) in text.iter().enumerate() {
        spot = spot.after(*byte);
        if spot == Spot::RowStart || (spot == Spot::FieldStart && field == index) {
            return start..at;
        }
        if spot == Spot::FieldStart {
            field = field.saturating_add(1);
            start = at.saturating_add(1);
        }
    }
    start..text.len()
}

/// The row at the front of the text, without its line end.
pub(crate) fn first_row(text: &[u8]) -> &[u8] {
    let end = field_span(text, 0, usize::MAX).end;
    text.get(..end).unwrap_or(text)
}
