//! The laws of all modes. Each is the contract of a function with an empty body.

ghost use Rattle.std.specs.Prelude.{◌≡◌, ◌≢◌, ◌≤◌, ◌↔◌, ◌⊎◌, List, true, All, Any, Contains, map, bit_and};
ghost use Rattle.std.specs.List.Sorted.{IsStrictlyIncreasing};
ghost use Rattle.std.specs.Ordering.{nat_cmp};
ghost use Rattle.lock_modes.specs.contracts.ModeOrd.TheImpl.{ghosts as derived};
ghost use Rattle.lock_modes.specs.declared.Mode.{Mode as ModeValue};
ghost use Rattle.lock_modes.specs.declared.Mode.TheVariants.{IS, S, U, X};
ghost use Rattle.lock_modes.specs.Order.{IsAtOrBelow, at_or_below, IsLeastUpperBound, sup_of, need_of};
ghost use Rattle.lock_modes.specs.Compatibility.{IsCompatible, are_compatible};
ghost use Rattle.lock_modes.specs.Codes.{code_of, mask_of, union_of};

use crate::MODES;

/// `MODES` has every mode, and by rising code, so each once.
pub fn modes_are_listed_once()
    ensures every { (m : ModeValue) → Contains MODES m }
    ensures rising { IsStrictlyIncreasing (map code_of MODES) }
{}

/// Each table that computes agrees with its relation. Every two modes have exactly one least upper bound.
pub fn tables_agree()
    ensures order { (low high : ModeValue) → IsAtOrBelow low high ↔ (at_or_below low high ≡ true) }
    ensures compatible { (asked granted : ModeValue) → IsCompatible asked granted ↔ (are_compatible asked granted ≡ true) }
    ensures sup { (a b bound : ModeValue) → IsLeastUpperBound a b bound ↔ (bound ≡ sup_of a b) }
{}

/// Modes are sorted by code, and the codes extend the order of the modes.
pub fn order_extends()
    ensures codes { (a b : ModeValue) → derived.cmp a b ≡ nat_cmp (code_of a) (code_of b) }
    ensures extends { (low high : ModeValue) → IsAtOrBelow low high → code_of low ≤ code_of high }
{}

/// The order of two requests counts for U alone: U is granted beside IS and S, and neither of them is granted beside U.
/// Two modes that two transactions hold were compatible in the order in which they were granted, so nothing more is true
/// of them in general.
pub fn only_u_depends_on_the_order()
    ensures others { (asked granted : ModeValue) → IsCompatible asked granted → IsCompatible granted asked ⊎ ((asked ≡ U) × ((granted ≡ IS) ⊎ (granted ≡ S))) }
    ensures u_beside_readers { IsCompatible U IS × IsCompatible U S }
    ensures no_readers_beside_u { (IsCompatible IS U → ⊥) × (IsCompatible S U → ⊥) }
{}

/// Compatible modes stay compatible if either of them is lowered.
pub fn lower_modes_are_compatible()
    ensures { (asked granted a g : ModeValue) → IsAtOrBelow a asked → IsAtOrBelow g granted → IsCompatible asked granted → IsCompatible a g }
{}

/// One test of a mask against the bitwise or of a column's codes tells whether the mode is compatible with every mode
/// of the column.
pub fn columns_meet_masks()
    ensures fits { (target : ModeValue) (column : List ModeValue) → (bit_and (mask_of target) (union_of column) ≡ 0) ↔ All (IsCompatible target) column }
    ensures conflicts { (target : ModeValue) (column : List ModeValue) → (bit_and (mask_of target) (union_of column) ≢ 0) ↔ Any (λ granted. ¬ IsCompatible target granted) column }
{}

/// What a mode needs of the parent rises with the mode, and is compatible with every other need. So two transactions that
/// hold only what they need on a parent never conflict there. The need is at or below the mode, except for U, which needs
/// what X needs.
pub fn needs_go_together()
    ensures below { (m : ModeValue) → m ≢ U → IsAtOrBelow (need_of m) m }
    ensures as_x { need_of U ≡ need_of X }
    ensures rises { (low high : ModeValue) → IsAtOrBelow low high → IsAtOrBelow (need_of low) (need_of high) }
    ensures together { (a b : ModeValue) → IsCompatible (need_of a) (need_of b) }
{}
