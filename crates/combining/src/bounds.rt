//! How much a pass serves at most.

ghost use Rattle.std.specs.Prelude.{◌≡◌};
ghost use Rattle.combining.specs.Rounds.{IsBound, at_least_one};

/// How much a pass serves at most: in rounds, each of which takes so many published calls at most, and none once it has taken calls of so
/// much weight. What a call weighs is said by `Listener::weigh`: for a lock table, how many locks it gives back.
///
/// A call is served whole, so a round may exceed the weight by that of its last call.
#[derive(Clone, Copy, Debug, PartialEq, Eq)]
pub struct PassBound {
    /// How many calls it serves in a round at most, from 1 on.
    pub calls: u16,
    /// The weight at which a round takes no further call, from 1 on.
    pub weight: u32,
    /// How many rounds it makes at most, from 1 on.
    pub rounds: u16,
}

/// What a call weighs at most.
pub const MAX_WEIGHT: u16 = u16::MAX;

/// One round, with room for a call of each session whatever it weighs: a pass that serves all that is published.
pub const UNBOUNDED: PassBound = PassBound {
    calls: u16::MAX,
    weight: u32::MAX,
    rounds: 1,
};

impl PassBound {
    /// The bound with 1 in place of each 0.
    #[inline(always)]
    pub fn at_least_one(self) -> PassBound
        ensures value { result ≡ at_least_one self }
        ensures bound { IsBound result }
    {
        PassBound {
            calls: u16::max(self.calls, 1),
            weight: u32::max(self.weight, 1),
            rounds: u16::max(self.rounds, 1),
        }
    }
}
