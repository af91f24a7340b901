//! The tables of the lock modes, typed by hand, independent of the code and of its definitions.

use lock_modes::Mode::{IS, IX, NL, S, SIX, U, X};
use lock_modes::{MODES, Mode};
use std::mem::size_of;

/// The two modes are compatible.
const YES: bool = true;

/// The two modes conflict.
const NO: bool = false;

/// The code, the conflict mask and the parent need of each mode, in the order of `MODES`.
const ROWS: [(u8, u8, Mode); 7] = [
    (0, 0, NL),
    (1, 8, IS),
    (3, 4, IX),
    (5, 10, IS),
    (7, 6, IX),
    (13, 10, IX),
    (15, 1, IX),
];

/// The name of each mode, in the order of `MODES`.
const NAMES: [&str; 7] = ["NL", "IS", "IX", "S", "SIX", "U", "X"];

/// Whether a mode has this code, conflict mask and parent need, and this name, from which it is read.
fn has_row(mode: Mode, (code, mask, need): (u8, u8, Mode), name: &str) -> bool {
    let mut right = mode.code() == code;
    right &= mode.conflict_mask() == mask;
    right &= mode.parent_need() == need;
    right &= mode.name() == name;
    right & (Mode::parse(name) == Some(mode))
}

/// Each mode has its row and its name.
#[test]
fn modes_have_their_rows(rt: HostRuntime) {
    assert!(rt; ROWS.len() == MODES.len());
    for k in 0..7 {
        assert!(rt; has_row(MODES[k], ROWS[k], NAMES[k]), "row {k}");
    }
}

/// Texts that are no name of a mode.
const NO_NAMES: [&str; 14] = [
    "", " ", "is", "Six", "u", "x", " IS", "IS ", "IS\n", "I", "SI", "SIXX", "IS,IX", "Х",
];

/// Other texts are read as none.
#[test]
fn other_texts_are_no_modes(rt: HostRuntime) {
    for text in NO_NAMES {
        assert!(rt; Mode::parse(text).is_none(), "{text:?}");
    }
}

/// Seven of the 256 bytes are codes; `from_code_or_nl` gives NL for the others.
#[test]
fn only_seven_bytes_are_codes_of_modes(rt: HostRuntime) {
    let mut found = 0u32;
    for byte in 0..=255 {
        let (mode, code) = match Mode::from_code(byte) {
            Some(mode) => {
                found = found.wrapping_add(1);
                (mode, byte)
            }
            None => (NL, 0),
        };
        let is_same = Mode::from_code_or_nl(byte) == mode;
        assert!(rt; is_same && ROWS[mode as usize].0 == code, "{byte}");
    }
    assert!(rt; found == 7);
}

/// The compatibility matrix: a row for each requested mode, with the granted modes, both in the order of `MODES`.
const FITS: [[bool; 7]; 7] = [
    [YES, YES, YES, YES, YES, YES, YES],
    [YES, YES, YES, YES, YES, NO, NO],
    [YES, YES, YES, NO, NO, NO, NO],
    [YES, YES, NO, YES, NO, NO, NO],
    [YES, YES, NO, NO, NO, NO, NO],
    [YES, YES, NO, YES, NO, NO, NO],
    [YES, NO, NO, NO, NO, NO, NO],
];

/// The least upper bound of each pair of modes, both in the order of `MODES`.
const BOUNDS: [[Mode; 7]; 7] = [
    [NL, IS, IX, S, SIX, U, X],
    [IS, IS, IX, S, SIX, U, X],
    [IX, IX, IX, SIX, SIX, X, X],
    [S, S, SIX, S, SIX, U, X],
    [SIX, SIX, SIX, SIX, SIX, X, X],
    [U, U, X, U, X, U, X],
    [X, X, X, X, X, X, X],
];

/// Whether a mode has these rows of the two tables. It covers another mode if their bound is the mode itself.
fn has_pairs(mode: Mode, fits: [bool; 7], bounds: [Mode; 7]) -> bool {
    let mut right = true;
    for k in 0..7 {
        let (other, bound) = (MODES[k], bounds[k]);
        right &= Mode::compatible(mode, other) == fits[k];
        right &= mode.sup(other) == bound;
        right &= mode.covers(other) == (bound == mode);
    }
    right
}

/// Modes are compatible and have their bounds as in the tables.
#[test]
fn modes_have_their_pairs(rt: HostRuntime) {
    for k in 0..7 {
        assert!(rt; has_pairs(MODES[k], FITS[k], BOUNDS[k]), "row {k}");
    }
}

/// The modes are ordered NL, IS, IX, S, SIX, U, X.
#[test]
fn a_mode_is_one_byte_and_modes_are_ordered(rt: HostRuntime) {
    let mut modes = [X, S, U, NL, SIX, IX, IS];
    modes.sort_unstable();
    assert!(rt; size_of::<Mode>() == 1 && modes == MODES);
}
