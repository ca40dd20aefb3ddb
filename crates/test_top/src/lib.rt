//! Tests of the top call: worked files with the texts and statuses that they give, through every crate below.
//!
//! There is nothing here but these tests. A test is a table of cases, and one helper runs each of them over a shelf and
//! a sink in memory; only the tests of a failing sink and of failing memory call `run` themselves.
#![tactic(auto)]

#[cfg(test)]
mod tests;
