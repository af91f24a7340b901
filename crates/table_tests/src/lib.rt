//! Tests of the lock table and of programs, for what no caller in C can ask: an engine in Rattle, numbers that no session has, and the
//! memory of programs. What calls and programs answer is tested over the library for C, by `checks/scripts_of_calls` and
//! `checks/embedding`.
#![tactic(auto)]

#[cfg(test)]
mod engine;
#[cfg(test)]
mod numbers;
