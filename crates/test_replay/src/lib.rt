//! Tests of `xbgp replay`: worked configurations and logs with the reports that they give, through every crate below.
//!
//! There is nothing here but these tests. Most are rows of one table; the others are made from its rows.
#![tactic(auto)]

#[cfg(test)]
mod tests;
