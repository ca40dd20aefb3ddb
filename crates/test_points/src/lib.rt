//! Tests of the engine (`xbgp_points`): worked chains of programs at each point, with what they give and what they
//! leave of the route, the map, the faults and the section.
#![tactic(auto)]

#[cfg(test)]
mod tests;
