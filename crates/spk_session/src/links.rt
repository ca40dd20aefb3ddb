// What is kept of the peers, besides the octets that came from them, and what is sent to one of them.
ghost use Rattle.std.specs.Prelude.{◌≡◌, ◌-◌, ◌≤◌, ◌<◌, ◌++◌, [], length, drop, true, false, IfOk, OnOk};
ghost use Rattle.std.specs.Vec.{with_item};
ghost use Rattle.xb_wire.specs.declared.numbers.TheConstants.{MAX_MESSAGE, MAX_NOTICE_DATA};
ghost use Rattle.bgp_write.specs.Written.{Replaces, wide_open_message, keepalive_message, notice_message};
ghost use Rattle.spk_model.specs.Turning.{put};
ghost use Rattle.bgp_write.specs.Pending.{form};
ghost use Rattle.spk_model.specs.Readers.{IsPeer};
ghost use Rattle.spk_model.specs.Routing.{tables_of};
ghost use Rattle.spk_session.specs.Meaning.{flag_of, HasPeer, IsEven};
ghost use Rattle.spk_session.specs.Routed.{waiting};
ghost use Rattle.spk_session.specs.Telling.{IsFormed};
ghost use Rattle.spk_session.specs.Acting.{closed, sends, sent_to};

use crate::routes::Routes;
use bgp_fsm::Session;
use bgp_write::{write_keepalive, write_notice, write_open4};
use std::alloc::{AllocError, Global};
use std::marker::Model;
use xb_domain::{Output, Outputs};
use xb_values::Buf;
use xb_wire::numbers::MAX_MESSAGE;
use xbgp_config::Config;

/// What is left of a message that was sent in part.
#[derive(Drop)]
pub(crate) struct Rest {
    message: Buf,
    // The octets before it have left.
    at: usize,
}

impl Model for Rest {
    ghost use Rattle.std.specs.Prelude.{◌≤◌, ℕ, List, drop, length};
    ghost use Rattle.xb_wire.specs.declared.numbers.TheConstants.{MAX_MESSAGE};

    ghost Value = { List ℕ };

    ghost view = { λ r. drop r.at (r.message).octets };

    ghost invariant = { λ r. (MAX_MESSAGE ≤ (r.message).capacity) × (r.at ≤ length (r.message).octets) };
}

impl Rest {
    pub(crate) fn make(alloc: Global) -> Result<Rest, AllocError>
        ensures { IfOk result (λ r. r ≡ []) }
    {
        Ok(Rest {
            message: Buf::make(alloc, MAX_MESSAGE)?,
            at: 0,
        })
    }

    pub(crate) fn as_slice(&self) -> &[u8]
        ensures { result.now ≡ self.now }
    {
        &self.message.as_slice()[self.at..]
    }

    pub(crate) fn clear(&mut self)
        ensures { self.new ≡ [] }
    {
        self.message.clear();
        self.at = 0;
    }

    /// The first octets have left.
    pub(crate) fn leave(&mut self, count: usize)
        requires { count ≤ length self.old }
        ensures { self.new ≡ drop count self.old }
    {
        let left = self.as_slice().len() - count;
        self.at = self.message.len() - left;
    }

    /// Becomes the next message that a peer is to be told; it is false if nothing waits, and then nothing changed.
    pub(crate) fn form<R: Routes>(&mut self, routes: &mut R, peer: u32) -> bool
        requires peer { IsPeer (R.built_from routes.old) peer }
        requires empty { self.old ≡ [] }
        ensures setup { R.built_from routes.new ≡ R.built_from routes.old }
        ensures formed { let told = tables_of (R.routing routes.old) peer in
            IsFormed (form R.RULE told.adv told.told) peer
            (R.routing routes.old) (R.routing routes.new) self.old self.new result }
        ensures less { result ≡ true
            → length (waiting (R.routing routes.new) peer) < length (waiting (R.routing routes.old) peer) }
    {
        self.message.clear();
        self.at = 0;
        routes.next_message(peer, &mut self.message)
    }
}

/// The sessions of the peers, what is left of messages to them, whose octets are to be dropped, the clock in seconds,
/// the outputs of the event, and room for a message that is written.
#[derive(Drop)]
pub(crate) struct Links {
    pub(crate) clock: u32,
    pub(crate) sessions: Vec<Session>,
    pub(crate) rests: Vec<Rest>,
    pub(crate) dropped: Vec<bool>,
    pub(crate) outputs: Outputs,
    pub(crate) message: Buf,
}

/// Octets leave for a peer, if there are any.
pub(crate) fn put(outputs: &mut Outputs, peer: u32, octets: &[u8]) -> Result<(), AllocError>
    ensures { OnOk result (outputs.new ≡ outputs.old ++ put peer octets.now) }
{
    if octets.is_empty() {
        return Ok(());
    }
    outputs.add(Output::Sent(peer, octets))
}

// Writes the OPEN of a speaker.
fn write_own_open(out: &mut Buf, config: &Config)
    requires { MAX_MESSAGE ≤ out.old.capacity }
    ensures { Replaces out.old out.new
        (wide_open_message (config.now.local).asn config.now.hold (config.now.local).id) }
{
    write_open4(out, config.local.asn, config.hold, config.local.id);
}

impl Links {
    // Sends the message that was written, after the rest.
    fn send_written(&mut self, peer: u32) -> Result<(), AllocError>
        requires even { IsEven self.old }
        requires peer { HasPeer self.old peer }
        ensures { OnOk result (self.new ≡ sent_to peer (self.old.message).octets self.old) }
    {
        let rest = &mut self.rests[peer as usize - 1];
        put(&mut self.outputs, peer, rest.as_slice())?;
        rest.clear();
        put(&mut self.outputs, peer, self.message.as_slice())
    }

    /// Sends an OPEN to a peer.
    pub(crate) fn send_open(&mut self, peer: u32, config: &Config) -> Result<(), AllocError>
        requires even { IsEven self.old }
        requires peer { HasPeer self.old peer }
        ensures { let own = wide_open_message (config.now.local).asn config.now.hold (config.now.local).id in
            OnOk result (self.new ≡ sends peer own self.old) }
    {
        write_own_open(&mut self.message, config);
        self.send_written(peer)
    }

    /// Sends a KEEPALIVE to a peer.
    pub(crate) fn send_keepalive(&mut self, peer: u32) -> Result<(), AllocError>
        requires even { IsEven self.old }
        requires peer { HasPeer self.old peer }
        ensures { OnOk result (self.new ≡ sends peer keepalive_message self.old) }
    {
        write_keepalive(&mut self.message);
        self.send_written(peer)
    }

    /// Sends a NOTIFICATION to a peer.
    pub(crate) fn send_notice(
        &mut self,
        peer: u32,
        code: u8,
        subcode: u8,
        extra: &[u8],
    ) -> Result<(), AllocError>
        requires even { IsEven self.old }
        requires peer { HasPeer self.old peer }
        requires extra { length extra.now ≤ MAX_NOTICE_DATA }
        ensures { OnOk result (self.new ≡ sends peer (notice_message code subcode extra.now) self.old) }
    {
        write_notice(&mut self.message, code, subcode, extra);
        self.send_written(peer)
    }

    /// Closes the transport of a peer: the rest goes, and what waits is to be dropped.
    pub(crate) fn close(&mut self, peer: u32)
        requires even { IsEven self.old }
        requires peer { HasPeer self.old peer }
        ensures { self.new ≡ closed peer self.old }
    {
        let i = peer as usize - 1;
        self.rests[i].clear();
        self.dropped[i] = true;
    }

    /// Whether the octets of a peer are to be dropped, which from then on they are not.
    pub(crate) fn forget(&mut self, peer: u32) -> bool
        requires even { IsEven self.old }
        requires peer { HasPeer self.old peer }
        ensures flag { result ≡ flag_of self.old peer }
        ensures after { self.new ≡ record self.old { dropped = with_item self.old.dropped (peer - 1) false } }
    {
        let i = peer as usize - 1;
        let was = self.dropped[i];
        self.dropped[i] = false;
        was
    }
}
