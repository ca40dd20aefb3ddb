//! Tests of generated events and of the configuration on which they are played. There is nothing here but these tests.
#![tactic(auto)]

#[cfg(test)]
mod tests;
