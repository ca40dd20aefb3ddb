//! Laws of the definitions. Each is the contract of a function that does nothing.
ghost use Rattle.std.specs.Prelude.{◌≡◌, ℕ, List, [], map, true, Ok};
ghost use Rattle.xb_words.specs.Cut.{with_offsets};
ghost use Rattle.xb_values.specs.Prefixes.{prefixes, are_prefixes};
ghost use Rattle.xb_wire.specs.Messages.{split};
ghost use Rattle.bgp_update.specs.Walks.{found_message, messages_from, prefixes_from};

/// The steps over octets that are prefixes to the end are the prefixes that the octets write (RFC 4271, section 4.3).
pub fn steps_are_prefixes()
    ensures { (s : List ℕ) → are_prefixes s ≡ true → prefixes_from s ≡ map (λ p. Ok p) (prefixes s) }
{}

/// The steps over a stream without a rest are the messages of its split, each with its offset (RFC 4271, section 4.1).
pub fn steps_are_messages()
    ensures { (s : List ℕ) → (split s).rest ≡ []
        → messages_from 0 s ≡ map (λ m. Ok (found_message m.0 m.1)) (with_offsets 0 (split s).items) }
{}
