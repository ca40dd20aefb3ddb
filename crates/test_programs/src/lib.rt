//! Tests of what programs are made of, by the public calls of its crates: memory (`bpf_mem`), code (`bpf_insn`), runs
//! in a world with helpers (`bpf_machine`), and maps (`xbgp_maps`). Nothing else is here.
#![tactic(auto)]

#[cfg(test)]
mod tests;
