//! Laws, each the contract of a function without parameters.
ghost use Rattle.spk_native.specs.Laws.{fold_law, wide_narrow_law};

/// The decision of two, along any order of a set, is the decision of the set, if no two ranks have the same neighbour
/// AS and different MEDs.
pub fn fold()
    ensures { fold_law }
{}

/// A route whose section is clean is the same again after a session with AS numbers of two octets (RFC 6793, sections
/// 4.2.2 and 4.2.3).
pub fn wide_narrow()
    ensures { wide_narrow_law }
{}
