// What peers of one kind are sent of a best route if no program runs. It is the same for all of them, so it is written
// once and kept until a route with another section comes to its place.
ghost use Rattle.std.specs.Prelude.{◌≡◌, ◌≤◌, length, IsTrue};
ghost use Rattle.std.specs.Bool.{OnTrue};
ghost use Rattle.bgp_attr.specs.Routes.{Route, route_of};
ghost use Rattle.xbgp_config.specs.Configs.{is_host_address};
ghost use Rattle.spk_native.specs.Filters.{is_external};
ghost use Rattle.spk_routes.specs.Forms.{formed, AreAlike, IsBy, IsForm, IsWritten};
ghost use Rattle.spk_routes.specs.Sound.{IsSound};

use crate::section::{see_shape, write_sent};
use crate::sides::{local_of, local_pref_of};
use bgp_attr::MAX_CANONICAL;
use spk_native::{EXTERNAL, export_attrs};
use std::alloc::Global;
use std::marker::Model;
use xb_domain::Side;
use xb_values::Buf;
use xbgp_config::Config;
use xbgp_view::Overlay;

/// What a peer is sent of a route depends on this alone.
#[derive(Clone, Copy)]
pub(crate) struct Terms {
    pub(crate) external: bool,
    pub(crate) wide: bool,
    pub(crate) local: Side,
    pub(crate) local_pref: u32,
}

/// What is sent of a route by some terms.
#[derive(Drop)]
pub(crate) struct Form {
    // None if nothing is kept.
    pub(crate) terms: Option<Terms>,
    // Whether what is sent is short enough.
    pub(crate) fits: bool,
    pub(crate) section: Vec<u8>,
}

/// What external and internal peers are sent of a route. Contracts see the route.
#[derive(Drop)]
pub(crate) struct Forms {
    // The canonical section of the route.
    from: Vec<u8>,
    external: Form,
    internal: Form,
}

impl Model for Forms {
    ghost use Rattle.bgp_attr.specs.Routes.{route_of, Route};
    ghost use Rattle.spk_routes.specs.Forms.{IsForm};

    ghost Value = { Route };

    ghost view = { λ f. route_of f.from.items };

    ghost invariant = { λ f. IsForm f.external (route_of f.from.items) × IsForm f.internal (route_of f.from.items) };
}

// The terms of a peer, in whose session AS numbers have four octets (`wide`) or two.
fn terms_of(config: &Config, peer: &Side, wide: bool) -> Terms
    ensures terms { result ≡ record {
      external = is_external peer.now;
      wide = wide;
      local = config.now.local;
      local_pref = config.now.local_pref;
    } }
    ensures address { IsTrue (is_host_address (result.local).address) }
{
    Terms {
        external: peer.kind == EXTERNAL,
        wide,
        local: local_of(config),
        local_pref: local_pref_of(config),
    }
}

// Whether peers are sent the same by both terms.
fn are_alike(a: &Terms, b: &Terms) -> bool
    ensures { OnTrue result (AreAlike a.now b.now) }
{
    a.external == b.external
        && a.wide == b.wide
        && a.local_pref == b.local_pref
        && a.local.asn == b.local.asn
        && a.local.address == b.local.address
}

// Writes what a peer is sent of the best route, and returns whether it is short enough. The best route is as before
// afterwards.
fn write_by(terms: Terms, peer: &Side, best: &mut Overlay, out: &mut Buf) -> bool
    requires kind { terms.external ≡ is_external peer.now }
    requires address { IsTrue (is_host_address (terms.local).address) }
    requires sound { IsSound best.old.route }
    requires room { out.old.capacity ≡ MAX_CANONICAL }
    ensures written { IsWritten result out.new.octets (formed terms best.old.route) }
    ensures best { best.new.route ≡ best.old.route }
    ensures room { out.new.capacity ≡ MAX_CANONICAL }
{
    best.keep();
    see_shape(best);
    export_attrs(best, peer, peer, &terms.local, terms.local_pref);
    let fits = write_sent(best, terms.wide, out);
    best.back();
    fits
}

impl Form {
    // A form of which nothing is kept.
    fn empty(alloc: Global) -> Form
        ensures { (best : Route) → IsForm result best }
    {
        Form {
            terms: None,
            fits: false,
            section: Vec::new(alloc),
        }
    }

    // Forgets what is kept.
    fn forget(&mut self)
        ensures { (best : Route) → IsForm self.new best }
    {
        self.terms = None;
    }

    // Whether it is kept by terms like these.
    fn is_by(&self, terms: &Terms) -> bool
        ensures { OnTrue result (IsBy self.now terms.now) }
    {
        match &self.terms {
            None => false,
            Some(made_by) => are_alike(made_by, terms),
        }
    }

    // Keeps what is sent by some terms, if there is memory for it.
    fn keep(&mut self, terms: Terms, fits: bool, section: &[u8])
        requires { length section.now ≤ MAX_CANONICAL }
        ensures { (best : Route) → IsWritten fits section.now (formed terms best) → IsForm self.new best }
    {
        self.terms = None;
        self.section.clear();
        if self.section.extend_from_slice(section).is_ok() {
            self.fits = fits;
            self.terms = Some(terms);
        }
    }

    // Writes what is kept, and returns whether it is short enough.
    fn give(&self, terms: &Terms, best: &Overlay, out: &mut Buf) -> bool
        requires form { IsForm self.now best.now.route }
        requires by { IsBy self.now terms.now }
        requires room { out.old.capacity ≡ MAX_CANONICAL }
        ensures written { IsWritten result out.new.octets (formed terms.now best.now.route) }
        ensures room { out.new.capacity ≡ MAX_CANONICAL }
    {
        if self.fits {
            out.replace(&self.section);
        }
        self.fits
    }

    // Writes what a peer is sent of the best route, and returns whether it is short enough. It is kept, if there is
    // memory for it.
    fn write(&mut self, terms: Terms, peer: &Side, best: &mut Overlay, out: &mut Buf) -> bool
        requires form { IsForm self.old best.old.route }
        requires kind { terms.external ≡ is_external peer.now }
        requires address { IsTrue (is_host_address (terms.local).address) }
        requires sound { IsSound best.old.route }
        requires room { out.old.capacity ≡ MAX_CANONICAL }
        ensures written { IsWritten result out.new.octets (formed terms best.old.route) }
        ensures form { IsForm self.new best.old.route }
        ensures best { best.new.route ≡ best.old.route }
        ensures room { out.new.capacity ≡ MAX_CANONICAL }
    {
        if self.is_by(&terms) {
            return self.give(&terms, best, out);
        }
        let fits = write_by(terms, peer, best, out);
        self.keep(terms, fits, out.as_slice());
        fits
    }
}

/// Writes what a peer is sent of the best route if no program runs, keeping nothing, and returns whether it is short
/// enough. The best route is as before afterwards.
pub(crate) fn write_once(
    config: &Config,
    peer: &Side,
    wide: bool,
    best: &mut Overlay,
    out: &mut Buf,
) -> bool
    requires sound { IsSound best.old.route }
    requires room { out.old.capacity ≡ MAX_CANONICAL }
    ensures written { IsWritten result out.new.octets
        (formed
        (record {
          external = is_external peer.now;
          wide = wide;
          local = config.now.local;
          local_pref = config.now.local_pref;
        })
        best.old.route) }
    ensures best { best.new.route ≡ best.old.route }
    ensures room { out.new.capacity ≡ MAX_CANONICAL }
{
    write_by(terms_of(config, peer, wide), peer, best, out)
}

impl Forms {
    /// Forms of the route without attributes, of which nothing is kept.
    pub(crate) fn empty(alloc: Global) -> Forms {
        Forms {
            from: Vec::new(alloc),
            external: Form::empty(alloc),
            internal: Form::empty(alloc),
        }
    }

    /// Makes them forms of the route of a section, and returns true, or false if there is no memory for the section.
    /// What is kept is forgotten if the section is another than before.
    pub(crate) fn turn(&mut self, section: &[u8]) -> bool
        ensures { OnTrue result (self.new ≡ route_of section.now) }
    {
        if self.from.as_slice() == section {
            return true;
        }
        self.external.forget();
        self.internal.forget();
        self.from.clear();
        self.from.extend_from_slice(section).is_ok()
    }

    /// Writes what a peer is sent of the best route, of which they are, if no program runs, and returns whether it is
    /// short enough. The best route is as before afterwards.
    pub(crate) fn write(
        &mut self,
        config: &Config,
        peer: &Side,
        wide: bool,
        best: &mut Overlay,
        out: &mut Buf,
    ) -> bool
        requires of { self.old ≡ best.old.route }
        requires sound { IsSound best.old.route }
        requires room { out.old.capacity ≡ MAX_CANONICAL }
        ensures written { IsWritten result out.new.octets
            (formed
            (record {
              external = is_external peer.now;
              wide = wide;
              local = config.now.local;
              local_pref = config.now.local_pref;
            })
            best.old.route) }
        ensures of { self.new ≡ self.old }
        ensures best { best.new.route ≡ best.old.route }
        ensures room { out.new.capacity ≡ MAX_CANONICAL }
    {
        let terms = terms_of(config, peer, wide);
        if peer.kind == EXTERNAL {
            self.external.write(terms, peer, best, out)
        } else {
            self.internal.write(terms, peer, best, out)
        }
    }
}
