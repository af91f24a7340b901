//! Tests of offices, for what no caller in C can ask: sessions that are lent to threads. What the calls of an office reply and tell is tested
//! over the library for C, by `checks/office_cases` and `checks/embedding`.
#![tactic(auto)]

#[cfg(test)]
mod threads;
