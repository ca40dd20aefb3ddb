//! Laws on the walk over a section, each the contract of a function without parameters.
ghost use Rattle.bgp_attr.specs.Walks.{attributes_join as parts_join, attributes_match as parts_match};
ghost use Rattle.bgp_attr.specs.Walks.{attributes_walked as parts_walked};

/// The octets of the attributes, joined, are the section up to an overrun.
pub fn attributes_join()
    ensures { parts_join }
{}

/// Each attribute has the section's octets at its offset, and at the offset of an overrun there is no whole attribute.
pub fn attributes_match()
    ensures { parts_match }
{}

/// The steps of a walk over a section without overrun are the section's attributes, each with its offset.
pub fn attributes_walked()
    ensures { parts_walked }
{}
