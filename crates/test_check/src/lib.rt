//! Tests of the crates that read a message's body: `bgp_attr`, `bgp_path`, `bgp_check` and `bgp_open`. Their expected
//! values are written out by hand from RFC 4271 and RFC 6793. There is nothing here but these tests.
#![tactic(auto)]

#[cfg(test)]
mod attributes;
#[cfg(test)]
mod hex;
#[cfg(test)]
mod opens;
#[cfg(test)]
mod paths;
#[cfg(test)]
mod updates;
#[cfg(test)]
mod widths;
