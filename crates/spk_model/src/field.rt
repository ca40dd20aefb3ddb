//! The candidates of one prefix.
ghost use Rattle.std.specs.Prelude.{◌≡◌, ◌<◌, List, length, IfSome};
ghost use Rattle.std.specs.List.{slice_get};
ghost use Rattle.spk_model.specs.Choosing.{Candidate};

use spk_native::Rank;
use xb_domain::Side;
use xbgp_view::RouteView;

/// The candidates of one prefix, by rising number of their source.
pub trait Field {
    /// A route of a candidate.
    type View: RouteView;

    /// The candidates.
    ghost candidates: { Self → List Candidate };

    /// How many there are.
    fn count(&self) -> usize
        ensures { result ≡ length (candidates self.now) };

    /// The route of the candidate at `i`, from 0.
    fn view(&self, i: usize) -> &Self::View
        requires { i < length (candidates self.now) }
        ensures { IfSome (slice_get (candidates self.now) i) (λ c. Self.View.route result.now ≡ c.route) };

    /// The source of the candidate at `i`.
    fn side(&self, i: usize) -> &Side
        requires { i < length (candidates self.now) }
        ensures { IfSome (slice_get (candidates self.now) i) (λ c. result.now ≡ c.side) };

    /// What the candidate at `i` is compared by.
    fn rank(&self, i: usize) -> Rank
        requires { i < length (candidates self.now) }
        ensures { IfSome (slice_get (candidates self.now) i) (λ c. result ≡ c.rank) };
}
