// The prefixes of an UPDATE that was judged.
ghost use Rattle.std.specs.Prelude.{◌≡◌, [], ◌∷◌, true, IfSome, IfNone};
ghost use Rattle.xb_values.specs.Prefixes.{are_prefixes, prefixes};

use bgp_update::Prefixes;
use std::marker::Model;
use xb_values::Prefix;

/// The prefixes that octets write, if they write whole prefixes to the end. Contracts see those that are still to come.
#[derive(Drop)]
pub struct EachPrefix<'a> {
    rest: Prefixes<'a>,
}

impl<'a> Model for EachPrefix<'a> {
    ghost use Rattle.std.specs.Prelude.{List};
    ghost use Rattle.xb_values.specs.Prefixes.{Prefix};
    ghost use Rattle.spk_routes.specs.Each.{prefixes_in, HasNoError};

    ghost Value = { List Prefix };

    ghost view = { λ e. prefixes_in e.rest };

    ghost invariant = { λ e. HasNoError e.rest };
}

impl<'a> EachPrefix<'a> {
    /// The prefixes that `octets` write.
    #[tactic(auto, using(crate::proofs::EachLemmas::all_prefixes, crate::proofs::EachLemmas::no_error))]
    pub fn new(octets: &'a [u8]) -> EachPrefix<'a>
        requires { are_prefixes octets.now ≡ true }
        ensures { result ≡ prefixes octets.now }
    {
        EachPrefix {
            rest: Prefixes::new(octets),
        }
    }

    /// The next prefix. None after the last.
    pub fn next(&mut self) -> Option<Prefix>
        ensures first { IfSome result (λ p. self.old ≡ p ∷ self.new) }
        ensures end { IfNone result ((self.old ≡ []) × (self.new ≡ [])) }
    {
        match self.rest.next() {
            Some(Ok(prefix)) => Some(prefix),
            Some(Err(_)) | None => None,
        }
    }
}
