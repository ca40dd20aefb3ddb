// The candidates of one prefix.
ghost use Rattle.std.specs.Prelude.{◌≡◌, ◌++◌, ◌∷◌, [], ◌≤◌, length, map, OnOk, OnErr};
ghost use Rattle.spk_native.specs.Values.{HasNoFault, next_hop};
ghost use Rattle.spk_routes.specs.Candidates.{candidate_of, shown};

use crate::sides::{cost_of, local_pref_of};
use bgp_attr::codes::NEXT_HOP;
use spk_model::Field;
use spk_native::{Rank, rank_of};
use std::alloc::{AllocError, Global};
use xb_domain::Side;
use xbgp_config::Config;
use xbgp_view::RouteView;

// The NEXT_HOP of a route, 0 if there is none.
fn next_hop_of<R: RouteView>(route: &R) -> u32
    requires { HasNoFault (R.route route.now) }
    ensures { result ≡ next_hop (R.route route.now) }
{
    let mut octets = [0u8; 4];
    match route.copy(NEXT_HOP, &mut octets) {
        Some(_) => u32::from_be_bytes(octets),
        None => 0,
    }
}

/// A route with the side that it came from and what it is compared by.
#[derive(Drop)]
pub struct Contender<'a, R> {
    view: &'a R,
    side: Side,
    rank: Rank,
}

/// The candidates of one prefix by rising number of their sides. Their routes are borrowed.
#[derive(Drop)]
pub struct Contenders<'a, R> {
    items: Vec<Contender<'a, R>>,
}

impl<'a, R: RouteView> Contenders<'a, R> {
    /// No candidates.
    pub fn make(alloc: Global) -> Contenders<'a, R>
        ensures { shown R.route result ≡ [] }
    {
        Contenders {
            items: Vec::new(alloc),
        }
    }

    /// Appends a route that came from a side. The error is want of memory; then nothing changed.
    pub fn add(&mut self, config: &Config, side: Side, view: &'a R) -> Result<(), AllocError>
        requires { HasNoFault (R.route view.now) }
        ensures ok { OnOk result (shown R.route self.new
            ≡ shown R.route self.old ++ candidate_of config.now side (R.route view.now) ∷ []) }
        ensures err { OnErr result (shown R.route self.new ≡ shown R.route self.old) }
    {
        let cost = cost_of(config, next_hop_of(view));
        let rank = rank_of(view, &side, local_pref_of(config), cost);
        self.items.push(Contender { view, side, rank })?;
        Ok(())
    }
}

impl<'a, R: RouteView> Field for Contenders<'a, R> {
    type View = R;

    ghost candidates = { λ c. shown R.route c };

    fn count(&self) -> usize {
        self.items.len()
    }

    fn view(&self, i: usize) -> &R {
        self.items[i].view
    }

    fn side(&self, i: usize) -> &Side {
        &self.items[i].side
    }

    fn rank(&self, i: usize) -> Rank {
        self.items[i].rank
    }
}
