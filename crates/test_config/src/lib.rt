//! Tests of configurations: for each key what is refused, with the kind, the part and the position of the fault, and
//! which of two faults is reported. There is nothing here but these tests.
#![tactic(auto)]

#[cfg(test)]
mod tests;
