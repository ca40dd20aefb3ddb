//! Laws of the definitions. Each is the contract of a function that does nothing, so that a caller has it as a fact.
ghost use Rattle.std.specs.Prelude.{◌≡◌, ℕ, List, ◌++◌, None, Some};
ghost use Rattle.std.specs.List.{concat, AllByRecursion};
ghost use Rattle.xb_wire.specs.Messages.{split, message_size, message_kind, IsMessage, HasMessageLength};

/// A stream has exactly one split into whole messages and a rest that does not begin with one (RFC 4271, section 4.1).
pub fn one_split()
    ensures joins { (s : List ℕ) → concat (split s).items ++ (split s).rest ≡ s }
    ensures whole { (s : List ℕ) → AllByRecursion IsMessage (split s).items }
    ensures ends { (s : List ℕ) → message_size (split s).rest ≡ None }
    ensures only { (messages : List (List ℕ)) (rest : List ℕ) → AllByRecursion IsMessage messages
        → message_size rest ≡ None
        → split (concat messages ++ rest) ≡ record { items = messages; rest = rest } }
{}

/// A whole message is of one of the four types, has at most 4,096 octets, and at least those of its type (RFC 4271,
/// section 6.1): an OPEN 29, an UPDATE 23, a NOTIFICATION 21, a KEEPALIVE exactly 19.
pub fn message_bounds()
    ensures { (s : List ℕ) (n : ℕ) → message_size s ≡ Some n → HasMessageLength (message_kind s) n }
{}
