//! The law on the walk over a path, the contract of a function without parameters.
ghost use Rattle.bgp_path.specs.Parts.{segments_join as parts_join};

/// The segments of a path, each after its type and its count, join to the value.
pub fn segments_join()
    ensures { parts_join }
{}
