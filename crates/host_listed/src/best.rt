// A best route.
ghost use Rattle.std.specs.Prelude.{◌≡◌, IfOk};
ghost use Rattle.spk_routes.specs.Sound.{IsSound};

use rib_table::AttrList;
use std::alloc::{AllocError, Global};
use std::marker::Model;
use xbgp_view::RouteView;

/// A best route and the number of its source.
#[derive(Drop)]
pub(crate) struct Best {
    source: u32,
    route: AttrList,
}

impl Model for Best {
    ghost use Rattle.spk_model.specs.Routing.{Chosen};
    ghost use Rattle.spk_routes.specs.Sound.{IsSound};

    ghost Value = { Chosen };

    ghost view = { λ b. record { source = b.source; route = b.route } };

    ghost invariant = { λ b. IsSound b.route };
}

impl Best {
    /// A copy of the route that a view shows, from a source. The error is want of memory.
    pub(crate) fn copy_of<R: RouteView>(
        alloc: Global,
        source: u32,
        view: &R,
    ) -> Result<Best, AllocError>
        requires { IsSound (R.route view.now) }
        ensures { IfOk result (λ b. b ≡ record { source = source; route = R.route view.now }) }
    {
        let route = AttrList::copy_of(alloc, view)?;
        Ok(Best { source, route })
    }

    pub(crate) fn source(&self) -> u32
        ensures { result ≡ self.now.source }
    {
        self.source
    }

    pub(crate) fn route(&self) -> &AttrList
        ensures value { result.now ≡ self.now.route }
        ensures sound { IsSound result.now }
    {
        &self.route
    }
}
