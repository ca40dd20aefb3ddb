//! Tests of the host that keeps shared records: which records live after which events. There is nothing here but these
//! tests.
#![tactic(auto)]

#[cfg(test)]
mod tests;
