//! The seven lock modes: their order, which are compatible, what they need of the parent, and their codes and names.
//!
//! [`Mode`] has the tables as methods, [`MODES`] lists the modes, [`laws`] says how the tables go together. In
//! `specs/`, `Order.antt` and `Compatibility.antt` have order and compatibility both as listed pairs and as functions
//! that compute; `Codes.antt` has codes, masks and names.
//!
//! A whole column of holders is tested at once: the or of the codes of IS (1) and S (5) is 5, the conflict mask of X is
//! 1, and the two have a common bit, so X conflicts with a holder.
//!
//! Proved: each method returns what its table says; codes and masks agree with order and compatibility; the functions
//! of `specs/` are the listed pairs. Only tested: that the tables are those of docs/RULES.md, and that a mode is one
//! byte. No call takes memory.
#![tactic(auto)]

ghost use Rattle.std.specs.Prelude.{◌≡◌, ◌↔◌, IsTrue, bit_and, bit_or};
ghost use Rattle.lock_modes.specs.declared.Mode.{Mode as ModeValue};
ghost use Rattle.lock_modes.specs.Order.{IsAtOrBelow, at_or_below, IsLeastUpperBound, sup_of, need_of};
ghost use Rattle.lock_modes.specs.Compatibility.{IsCompatible, are_compatible};
ghost use Rattle.lock_modes.specs.Codes.{code_of, mode_of_code, mask_of, name_of};

pub mod laws;

/// A lock mode: those of Gray, Lorie, Putzolu and Traiger (1976), and U, which is this project's own. `Ord` compares
/// codes, so a mode comes after every mode below it.
#[derive(Clone, Copy, Debug, PartialEq, Eq, PartialOrd, Ord, Hash)]
pub enum Mode {
    /// No lock.
    NL,
    /// Intention share: the holder takes IS and S locks below.
    IS,
    /// Intention exclusive: the holder takes locks of any mode below.
    IX,
    /// Share: read access to the resource and everything below.
    S,
    /// Share with intention exclusive: S and IX together.
    SIX,
    /// Update: read access like S, announcing a conversion to X. At most one transaction holds a resource in U. U is
    /// granted beside IS and S, but neither of them beside U, so that no new readers delay the conversion.
    U,
    /// Exclusive: write access to the resource and everything below.
    X,
}

/// All modes, each once, by rising code.
pub const MODES: [Mode; 7] = [
    Mode::NL,
    Mode::IS,
    Mode::IX,
    Mode::S,
    Mode::SIX,
    Mode::U,
    Mode::X,
];

impl Mode {
    /// The mode as bits, for columns that are scanned as bytes. The bitwise or of two codes is the code of their least
    /// upper bound. The codes are this project's own choice.
    #[inline]
    pub fn code(self) -> u8
        ensures { result ≡ code_of self }
    {
        match self {
            Mode::NL => 0,
            Mode::IS => 1,
            Mode::IX => 3,
            Mode::S => 5,
            Mode::SIX => 7,
            Mode::U => 13,
            Mode::X => 15,
        }
    }

    /// Returns the mode with this code, `None` if no mode has it.
    #[inline]
    pub fn from_code(code: u8) -> Option<Mode>
        ensures { (m : ModeValue) → (result ≡ Some m) ↔ (code ≡ code_of m) }
    {
        match code {
            0 => Some(Mode::NL),
            1 => Some(Mode::IS),
            3 => Some(Mode::IX),
            5 => Some(Mode::S),
            7 => Some(Mode::SIX),
            13 => Some(Mode::U),
            15 => Some(Mode::X),
            _ => None,
        }
    }

    /// Returns the mode with this code, NL if no mode has it. For columns that hold codes alone, so that a caller has
    /// no impossible case to handle.
    #[inline]
    pub fn from_code_or_nl(code: u8) -> Mode
        ensures { result ≡ mode_of_code code }
    {
        match Mode::from_code(code) {
            Some(mode) => mode,
            None => Mode::NL,
        }
    }

    /// The bits that meet the codes of exactly the modes that conflict with this one. One test of the mask against the
    /// bitwise or of a column's codes tests the whole column. The masks are this project's own choice.
    #[inline]
    pub fn conflict_mask(self) -> u8
        ensures { result ≡ mask_of self }
    {
        match self {
            Mode::NL => 0,
            Mode::IS => 8,
            Mode::IX => 4,
            Mode::S => 10,
            Mode::SIX => 6,
            Mode::U => 10,
            Mode::X => 1,
        }
    }

    /// Whether `asked` may be granted while another transaction holds the resource in `granted`, by the compatibility
    /// table of Gray, Lorie, Putzolu and Traiger (1976), to which this project adds U. The order of the two counts for U:
    /// it may be granted beside IS and S, and neither of them may be granted beside U.
    #[inline]
    pub fn compatible(asked: Mode, granted: Mode) -> bool
        ensures value { result ≡ are_compatible asked granted }
        ensures relation { IsTrue result ↔ IsCompatible asked granted }
        ensures masks { (bit_and (mask_of asked) (code_of granted) ≡ 0) ↔ IsCompatible asked granted }
    {
        asked.conflict_mask() & granted.code() == 0
    }

    /// The least upper bound: the weakest mode that covers both. The target of a conversion, by Gray, Lorie, Putzolu
    /// and Traiger (1976).
    #[inline]
    pub fn sup(self, other: Mode) -> Mode
        ensures value { result ≡ sup_of self other }
        ensures least { IsLeastUpperBound self other result }
        ensures code { code_of result ≡ bit_or (code_of self) (code_of other) }
    {
        match (self, other) {
            // of IX and S, IX and U, SIX and U neither is at or below the other
            (Mode::IX, Mode::S) | (Mode::S, Mode::IX) => Mode::SIX,
            (Mode::IX, Mode::U) | (Mode::SIX, Mode::U) => Mode::X,
            (Mode::U, Mode::IX) | (Mode::U, Mode::SIX) => Mode::X,
            _ => self.max(other),
        }
    }

    /// Whether the other mode is at or below this one, so that a holder of this mode needs no lock in the other.
    #[inline]
    pub fn covers(self, other: Mode) -> bool
        ensures value { result ≡ at_or_below other self }
        ensures relation { IsTrue result ↔ IsAtOrBelow other self }
        ensures codes { IsTrue result ↔ (bit_or (code_of self) (code_of other) ≡ code_of self) }
    {
        self.code() | other.code() == self.code()
    }

    /// The weakest mode in which the parent has to be held before this mode may be requested. The intention modes are
    /// those of Gray, Lorie, Putzolu and Traiger (1976). That any mode at or above them will do is this project's own
    /// choice, and so is the need of U: it needs what X needs, since its holder means to convert it to X.
    #[inline]
    pub fn parent_need(self) -> Mode
        ensures { result ≡ need_of self }
    {
        match self {
            Mode::NL => Mode::NL,
            Mode::IS | Mode::S => Mode::IS,
            Mode::IX | Mode::SIX | Mode::U | Mode::X => Mode::IX,
        }
    }

    /// Returns the name that traces, histories and messages write.
    pub fn name(self) -> &'static str
        ensures { result.now ≡ name_of self }
    {
        match self {
            Mode::NL => "NL",
            Mode::IS => "IS",
            Mode::IX => "IX",
            Mode::S => "S",
            Mode::SIX => "SIX",
            Mode::U => "U",
            Mode::X => "X",
        }
    }

    /// Returns the mode of this name. `None` if the text isn't exactly a name, in upper case.
    pub fn parse(text: &str) -> Option<Mode>
        ensures { (m : ModeValue) → (result ≡ Some m) ↔ (text.now ≡ name_of m) }
    {
        for mode in MODES {
            if text == mode.name() {
                return Some(mode);
            }
        }
        None
    }
}
