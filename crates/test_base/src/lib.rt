//! Tests of the crates under xb_base: each call once, with texts, files and standard output from outside.
#![tactic(auto)]

#[cfg(test)]
mod tests;
