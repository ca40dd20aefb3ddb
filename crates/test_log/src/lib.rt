//! Tests of the event log: what lines say, and how the lines of a log are read from a shelf in memory and from a file.
//! There is nothing here but these tests.
#![tactic(auto)]

#[cfg(test)]
mod tests;
