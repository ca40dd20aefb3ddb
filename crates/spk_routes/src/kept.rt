// What peers are sent of best routes if no program runs, kept in places by prefix.
ghost use Rattle.std.specs.Prelude.{◌≡◌, ◌<◌, ◌+◌, length, Some, IfSome, slice_get};
ghost use Rattle.std.specs.Bool.{OnTrue};
ghost use Rattle.bgp_attr.specs.Routes.{route_of, Route};
ghost use Rattle.spk_native.specs.Filters.{is_external};
ghost use Rattle.spk_routes.specs.Forms.{formed, IsWritten};
ghost use Rattle.spk_routes.specs.Places.{HaveForms};
ghost use Rattle.spk_routes.specs.Sound.{IsSound};

use crate::forms::{Forms, write_once};
use bgp_attr::MAX_CANONICAL;
use std::alloc::Global;
use std::mem;
use xb_domain::Side;
use xb_values::{Buf, Prefix};
use xbgp_config::Config;
use xbgp_view::{Overlay, RouteView};

// How many places there are at most for prefixes that come again.
const PLACES: usize = 4096;

/// What peers are sent of best routes, in places by prefix.
#[derive(Drop)]
pub(crate) struct Kept {
    // The first is for prefixes that don't come again.
    pub(crate) places: Vec<Forms>,
    // The place of the best route, which was loaded last. None if there was no memory for it.
    pub(crate) place: Option<usize>,
    // The prefix that came last of those with one number.
    pub(crate) last: Vec<Option<Prefix>>,
}

// The number of a prefix: the bits of its address that count.
fn number_of(prefix: Prefix) -> usize
    ensures { result < PLACES }
{
    let bits = u64::from(prefix.addr()) >> (32 - prefix.len());
    bits as usize % PLACES
}

impl Kept {
    /// No places.
    pub(crate) fn new(alloc: Global) -> Kept
        ensures { (best : Route) → HaveForms result best }
    {
        Kept {
            places: Vec::new(alloc),
            place: None,
            last: Vec::new(alloc),
        }
    }

    // Whether no other prefix with its number came since a prefix came last. It has come now.
    fn comes_again(&mut self, prefix: Prefix) -> bool {
        let number = number_of(prefix);
        'numbers: for _ in self.last.len()..=number {
            if self.last.push(None).is_err() {
                return false;
            }
        }
        match self.last.get_mut(number) {
            None => false,
            Some(last) => mem::replace(last, Some(prefix)) == Some(prefix),
        }
    }

    // The place for a prefix.
    fn place_for(&mut self, prefix: Prefix) -> usize {
        if self.comes_again(prefix) {
            number_of(prefix) + 1
        } else {
            0
        }
    }

    // Adds places until there is that one, and returns whether there was memory for them.
    fn reach(&mut self, place: usize) -> bool
        ensures { OnTrue result (place < length self.new.places.items) }
    {
        let alloc = *self.places.allocator();
        'places: for _ in self.places.len()..=place {
            if self.places.push(Forms::empty(alloc)).is_err() {
                return false;
            }
        }
        place < self.places.len()
    }

    // The place for a prefix, if its forms are of the route of a section now. None if there is no memory for them.
    fn find(&mut self, prefix: Prefix, section: &[u8]) -> Option<usize>
        ensures { IfSome result (λ i. slice_get self.new.places.items i ≡ Some (route_of section.now)) }
    {
        let place = self.place_for(prefix);
        if self.reach(place) && self.places[place].turn(section) {
            Some(place)
        } else {
            None
        }
    }

    /// Makes a route the best one, as that of a prefix. What is kept in the prefix's place is forgotten if it is of a
    /// route with another section.
    pub(crate) fn load<R: RouteView>(&mut self, prefix: Prefix, best: &mut Overlay, route: &R)
        ensures forms { HaveForms self.new best.new.route }
        ensures best { best.new ≡ record best.old { route = R.route route.now } }
    {
        best.load(route);
        self.place = match best.canonical_section() {
            None => None,
            Some(section) => self.find(prefix, section),
        };
    }

    /// Writes what a peer is sent of the best route if no program runs, and returns whether it is short enough. The
    /// best route is as before afterwards.
    pub(crate) fn write(
        &mut self,
        config: &Config,
        peer: &Side,
        wide: bool,
        best: &mut Overlay,
        out: &mut Buf,
    ) -> bool
        requires forms { HaveForms self.old best.old.route }
        requires sound { IsSound best.old.route }
        requires room { out.old.capacity ≡ MAX_CANONICAL }
        ensures written { IsWritten result out.new.octets
            (formed
            (record {
              external = is_external peer.now;
              wide = wide;
              local = config.now.local;
              local_pref = config.now.local_pref;
            })
            best.old.route) }
        ensures forms { HaveForms self.new best.old.route }
        ensures best { best.new.route ≡ best.old.route }
        ensures room { out.new.capacity ≡ MAX_CANONICAL }
    {
        match self.place {
            None => write_once(config, peer, wide, best, out),
            Some(i) => self.places[i].write(config, peer, wide, best, out),
        }
    }
}
