//! Laws over all lists of events, each the contract of a function without parameters.
ghost use Rattle.spk_model.specs.Laws.{contained_step, containment, cutting, damage, encode_again, heard_is_told};
ghost use Rattle.spk_model.specs.Laws.{own_event, rule_free, told_is_advertised};

/// Octets that come from a peer in two pieces give what they give in one: the same outputs, and the same speaker.
pub fn cutting()
    ensures { cutting }
{}

/// What an Established peer hears of all that was sent to it since its link came up, followed by what is left of a
/// message, is what it was told.
pub fn heard_is_told()
    ensures { heard_is_told }
{}

/// If no prefix is pending for a peer, what it was told is what it is advertised.
pub fn told_is_advertised()
    ensures { told_is_advertised }
{}

/// How prefixes are packed into messages changes what peers are told, what is left of messages, and what is sent, and
/// nothing else.
pub fn rule_free()
    ensures { rule_free }
{}

/// A message that is refused does what the loss of the link would do at its first octet, and sends a NOTIFICATION
/// before: both give the same speaker.
pub fn damage()
    ensures { damage }
{}

/// An event of a peer sends nothing to another peer, and leaves all of it but what it is advertised.
pub fn own_event()
    ensures { own_event }
{}

/// An event at which all programs at some points fail does what it does with programs there that only call `next`.
pub fn contained_step()
    ensures { contained_step }
{}

/// If all programs at some points fail at each event, all outputs are those with programs there that only call `next`,
/// and the speakers after them agree on all but the faults of these programs.
pub fn containment()
    ensures { containment }
{}

/// An export that is encoded again, with the same maps and all faults noted, gives the same section and changes
/// nothing.
pub fn encode_again()
    ensures { encode_again }
{}
