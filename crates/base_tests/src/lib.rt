//! Tests of the public calls of the crates below the lock table, for what no contract says: examples worked out by hand, and
//! each call once with success. Texts, their faults and reports are tested over the program, by `checks/program`.
#![tactic(auto)]

#[cfg(test)]
mod hints;
#[cfg(test)]
mod lanes;
#[cfg(test)]
mod modes;
#[cfg(test)]
mod reports;
#[cfg(test)]
mod resources;
#[cfg(test)]
mod rules;
#[cfg(test)]
mod traces;
#[cfg(test)]
mod waits;
