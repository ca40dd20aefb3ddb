// What an UPDATE without fault does to the routes.
ghost use Rattle.std.specs.Prelude.{◌≡◌, ◌≤◌, ◌++◌, ◌==◌, not, length, fold, true, Some, None, IfOk, OnOk, OnErr};
ghost use Rattle.std.specs.Prelude.{MatchResult};
ghost use Rattle.xb_words.specs.Table.{set_of};
ghost use Rattle.xb_wire.specs.Messages.{Update};
ghost use Rattle.xb_wire.specs.declared.numbers.TheConstants.{MAX_BODY};
ghost use Rattle.xb_values.specs.Prefixes.{are_prefixes, prefix_cmp, prefixes};
ghost use Rattle.bgp_attr.specs.Paths.{width_of};
ghost use Rattle.bgp_check.specs.Judgement.{judge, judge_section};
ghost use Rattle.spk_model.specs.Sources.{is_wide, side_of as side_in};
ghost use Rattle.spk_model.specs.Routing.{announce, announce_one, drop_all, receive_route, routes_of, update, withdraw};
ghost use Rattle.spk_routes.specs.Sound.{IsSound};
ghost use Rattle.host_interned.specs.Meaning.{Does, Goes, IsReady};

use crate::routing::Core;
use bgp_fsm::Session;
use bgp_update::UpdateView;
use spk_native::inbound_native;
use spk_routes::{EachPrefix, PrefixSet, accepts, local_of, read_route, side_of};
use std::alloc::{AllocError, Global};
use xb_domain::Side;
use xb_values::Prefix;

// The prefixes that an UPDATE names.
fn named_in(alloc: Global, withdrawn: &[u8], nlri: &[u8]) -> Result<PrefixSet, AllocError>
    requires withdrawn { are_prefixes withdrawn.now ≡ true }
    requires nlri { are_prefixes nlri.now ≡ true }
    ensures { IfOk result (λ set. set ≡ set_of prefix_cmp (prefixes withdrawn.now ++ prefixes nlri.now)) }
{
    let mut named = PrefixSet::make(alloc);
    named.add_all(withdrawn)?;
    named.add_all(nlri)?;
    Ok(named)
}

impl Core {
    // Prefixes leave the table of a peer.
    fn drop_all(&mut self, sessions: &[Session], peer: u32, octets: &[u8])
        requires ready { IsReady self.old }
        requires least { 1 ≤ peer }
        requires most { peer ≤ length self.old.config.peers }
        requires whole { are_prefixes octets.now ≡ true }
        ensures { Does (λ setup t. drop_all setup sessions.now t peer (prefixes octets.now)) self.old self.new }
    {
        let _ = sessions;
        self.rib.remove_all(peer, octets);
    }

    // Withdrawn prefixes that are not announced as well leave the table of a peer.
    fn withdraw(
        &mut self,
        alloc: Global,
        sessions: &[Session],
        peer: u32,
        withdrawn: &[u8],
        nlri: &[u8],
    ) -> Result<(), AllocError>
        requires ready { IsReady self.old }
        requires least { 1 ≤ peer }
        requires most { peer ≤ length self.old.config.peers }
        requires whole { are_prefixes withdrawn.now ≡ true }
        requires announced { are_prefixes nlri.now ≡ true }
        ensures { MatchResult result
            (λ v. (u : Update) → u.withdrawn ≡ withdrawn.now → u.nlri ≡ nlri.now
            → Does (λ setup t. withdraw setup sessions.now t peer u) self.old self.new)
            (λ e. IsReady self.new) }
    {
        let _ = sessions;
        let mut announced = PrefixSet::make(alloc);
        if !withdrawn.is_empty() {
            announced.add_all(nlri)?;
        }
        self.rib.remove_others(peer, withdrawn, &announced);
        Ok(())
    }

    // One announced prefix: the route, if inbound accepts its copy, enters the table of the peer.
    fn announce_one(
        &mut self,
        sessions: &[Session],
        now: u32,
        side: &Side,
        peer: u32,
        prefix: Prefix,
    ) -> Result<(), AllocError>
        requires ready { IsReady self.old }
        requires all { length sessions.now ≡ length self.old.config.peers }
        requires least { 1 ≤ peer }
        requires most { peer ≤ length self.old.config.peers }
        requires side { side.now ≡ side_in self.old.config sessions.now peer }
        requires sound { IsSound self.old.received.route }
        ensures does { OnOk result (Does
            (λ setup t. announce_one setup sessions.now now self.old.received.route peer t prefix) self.old self.new) }
        ensures kept { OnOk result (self.new.received ≡ self.old.received) }
        ensures ready { OnErr result (IsReady self.new) }
    {
        self.route.load(&self.received);
        let outcome = self
            .engine
            .inbound(u64::from(now), side, prefix, &mut self.route);
        if accepts(
            &outcome,
            inbound_native(&self.route, &local_of(&self.config)),
        ) {
            self.rib.put(peer, prefix, &self.route)
        } else {
            self.rib.remove(peer, prefix);
            Ok(())
        }
    }

    // Each announced prefix, in the order of the message.
    fn announce_each(
        &mut self,
        sessions: &[Session],
        now: u32,
        side: &Side,
        peer: u32,
        nlri: &[u8],
    ) -> Result<(), AllocError>
        requires ready { IsReady self.old }
        requires all { length sessions.now ≡ length self.old.config.peers }
        requires least { 1 ≤ peer }
        requires most { peer ≤ length self.old.config.peers }
        requires side { side.now ≡ side_in self.old.config sessions.now peer }
        requires sound { IsSound self.old.received.route }
        requires whole { are_prefixes nlri.now ≡ true }
        ensures { Goes result
            (λ setup t. fold (announce_one setup sessions.now now self.old.received.route peer) t (prefixes nlri.now))
            self.old self.new }
    {
        let mut rest = EachPrefix::new(nlri);
        'prefixes: while let Some(prefix) = rest.next() {
            self.announce_one(sessions, now, side, peer, prefix)?;
        }
        Ok(())
    }

    // The route of an UPDATE passes receive, or its announced prefixes leave the table of the peer.
    fn receive(
        &mut self,
        sessions: &[Session],
        now: u32,
        side: &Side,
        peer: u32,
        body: &[u8],
        nlri: &[u8],
    ) -> Result<(), AllocError>
        requires ready { IsReady self.old }
        requires all { length sessions.now ≡ length self.old.config.peers }
        requires least { 1 ≤ peer }
        requires most { peer ≤ length self.old.config.peers }
        requires side { side.now ≡ side_in self.old.config sessions.now peer }
        requires short { length body.now ≤ MAX_BODY }
        requires sound { IsSound self.old.received.route }
        requires whole { are_prefixes nlri.now ≡ true }
        ensures { Goes result (λ setup t.
            receive_route setup sessions.now now t peer body.now (prefixes nlri.now) self.old.received.route)
            self.old self.new }
    {
        let outcome = self
            .engine
            .receive(u64::from(now), side, &mut self.received, body);
        if accepts(&outcome, true) {
            return self.announce_each(sessions, now, side, peer, nlri);
        }
        self.drop_all(sessions, peer, nlri);
        Ok(())
    }

    // The announced prefixes of an UPDATE, of which there are some.
    fn announce(
        &mut self,
        sessions: &[Session],
        now: u32,
        peer: u32,
        body: &[u8],
        section: &[u8],
        nlri: &[u8],
    ) -> Result<(), AllocError>
        requires ready { IsReady self.old }
        requires all { length sessions.now ≡ length self.old.config.peers }
        requires least { 1 ≤ peer }
        requires most { peer ≤ length self.old.config.peers }
        requires short { length body.now ≤ MAX_BODY }
        requires section { length section.now ≤ MAX_BODY }
        requires good { judge_section (width_of (is_wide sessions.now peer)) section.now true ≡ None }
        requires whole { are_prefixes nlri.now ≡ true }
        ensures { MatchResult result
            (λ v. (u : Update) → u.section ≡ section.now → Does
            (λ setup t. announce setup sessions.now now t peer body.now u (prefixes nlri.now)) self.old self.new)
            (λ e. IsReady self.new) }
    {
        let side = side_of(&self.config, sessions, peer);
        let wide = sessions[peer as usize - 1].wide();
        if read_route(&mut self.received, section, &side, wide) {
            return self.receive(sessions, now, &side, peer, body, nlri);
        }
        self.drop_all(sessions, peer, nlri);
        Ok(())
    }

    // The routes of an UPDATE.
    fn take_routes(
        &mut self,
        alloc: Global,
        sessions: &[Session],
        now: u32,
        peer: u32,
        body: &[u8],
        parts: &UpdateView<'_>,
    ) -> Result<(), AllocError>
        requires ready { IsReady self.old }
        requires all { length sessions.now ≡ length self.old.config.peers }
        requires least { 1 ≤ peer }
        requires most { peer ≤ length self.old.config.peers }
        requires short { length body.now ≤ MAX_BODY }
        requires section { length parts.now.section ≤ MAX_BODY }
        requires good { judge_section (width_of (is_wide sessions.now peer)) parts.now.section
            (not (length parts.now.nlri == 0)) ≡ None }
        requires whole { are_prefixes parts.now.withdrawn ≡ true }
        requires announced { are_prefixes parts.now.nlri ≡ true }
        ensures { Goes result
            (λ setup t. routes_of setup sessions.now now t peer body.now parts.now (prefixes parts.now.nlri))
            self.old self.new }
    {
        let mut announced = EachPrefix::new(parts.nlri());
        let Some(_) = announced.next() else {
            return self.withdraw(alloc, sessions, peer, parts.withdrawn(), parts.nlri());
        };
        self.announce(sessions, now, peer, body, parts.section(), parts.nlri())?;
        self.withdraw(alloc, sessions, peer, parts.withdrawn(), parts.nlri())
    }

    /// Takes the body of an UPDATE without fault, which came from a peer at the time `now`, in seconds.
    pub(crate) fn update(
        &mut self,
        alloc: Global,
        sessions: &[Session],
        now: u32,
        peer: u32,
        body: &[u8],
    ) -> Result<(), AllocError>
        requires ready { IsReady self.old }
        requires all { length sessions.now ≡ length self.old.config.peers }
        requires least { 1 ≤ peer }
        requires most { peer ≤ length self.old.config.peers }
        requires short { length body.now ≤ MAX_BODY }
        requires good { judge (width_of (is_wide sessions.now peer)) body.now ≡ None }
        ensures { Goes result (λ setup t. update setup sessions.now now t peer body.now) self.old self.new }
    {
        let Some(parts) = UpdateView::new(body) else {
            return Ok(());
        };
        let named = named_in(alloc, parts.withdrawn(), parts.nlri())?;
        self.take_routes(alloc, sessions, now, peer, body, &parts)?;
        self.settle_set(alloc, sessions, named)
    }
}
