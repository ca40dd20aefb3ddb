//! Laws of the definitions. Each is the contract of a function that does nothing.
ghost use Rattle.std.specs.Prelude.{◌≡◌, ℕ, List};
ghost use Rattle.std.specs.List.{concat};
ghost use Rattle.xb_wire.specs.Messages.{split};
ghost use Rattle.xb_wire.specs.Fronts.{IsNext};
ghost use Rattle.xb_wire.specs.declared.front.Next.{Next as Front};
ghost use Rattle.bgp_frame.specs.Fronts.{IsFirst};
ghost use Rattle.bgp_frame.specs.Pieces.{fed};

/// What `Frames::next` returns is the first message of the split of what waits, the fault of that split, or neither.
pub fn next_is_first()
    ensures { (waits : List ℕ) (next : Front) → IsNext waits next → IsFirst waits next }
{}

/// However a stream is cut into pieces, the messages that are removed and what then waits are the messages and the rest
/// of its split (RFC 4271, section 4.1).
pub fn any_cut()
    ensures messages { (pieces : List (List ℕ)) → (fed pieces).messages ≡ (split (concat pieces)).items }
    ensures waits { (pieces : List (List ℕ)) → (fed pieces).waits ≡ (split (concat pieces)).rest }
{}
