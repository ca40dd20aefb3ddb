//! An update: the peer, the prefix, and the message that announces or withdraws it.
ghost use Rattle.std.specs.Prelude.{◌≡◌, ◌<◌, ◌≤◌, length};
ghost use Rattle.xb_domain.specs.Events.{octets};
ghost use Rattle.bgp_write.specs.Packers.{packed_so_far, buffer_of, reference_of};
ghost use Rattle.bgp_write.specs.Packings.{packed_message, with_prefix};
ghost use Rattle.bgp_write.specs.Written.{Replaces};
ghost use Rattle.work_gen.specs.Work.{network, drawn_network, announcement, withdrawal, drawn_message, update};

use crate::generator::Generator;
use crate::route::{LONGEST, draw_section};
use bgp_write::Packer;
use xb_values::{Buf, Prefix};
use xb_wire::numbers::MAX_MESSAGE;
use xbgp_config::WORK_PEERS;

// The prefix 172.(16 + a).b.0/24.
fn network(a: u32, b: u32) -> Prefix
    requires a { a < 16 }
    requires b { b < 256 }
    ensures { result ≡ network a b }
{
    let addr = 172 * 0x0100_0000 + (16 + a) * 0x0001_0000 + b * 0x100;
    Prefix::new(addr, 24).unwrap()
}

#[tactic(auto, unfolding(crate::specs::Work::drawn_network))]
fn draw_network(generator: &mut Generator) -> Prefix
    ensures prefix { result ≡ (drawn_network generator.old.x).value }
    ensures next { generator.new.x ≡ (drawn_network generator.old.x).x }
{
    let a = generator.draw(16);
    let b = generator.draw(256);
    network(a, b)
}

// Packs one more prefix, for which there is room.
fn push_fitting(packer: &mut Packer<'_>, prefix: Prefix)
    requires { length (packed_message (with_prefix (packed_so_far packer.old) prefix)) ≤ MAX_MESSAGE }
    ensures same_reference { reference_of packer.new ≡ reference_of packer.old }
    ensures capacity { (buffer_of packer.new).capacity ≡ (buffer_of packer.old).capacity }
    ensures packed { packed_so_far packer.new ≡ with_prefix (packed_so_far packer.old) prefix }
{
    let _ = packer.push(prefix);
}

fn write_withdrawal(out: &mut Buf, prefix: Prefix)
    requires { MAX_MESSAGE ≤ out.old.capacity }
    ensures { Replaces out.old out.new (withdrawal prefix) }
{
    let mut packer = Packer::withdrawals(out);
    push_fitting(&mut packer, prefix);
    packer.finish();
}

fn write_announcement(out: &mut Buf, section: &[u8], prefix: Prefix)
    requires room { MAX_MESSAGE ≤ out.old.capacity }
    requires section { length section.now ≤ LONGEST }
    ensures { Replaces out.old out.new (announcement section.now prefix) }
{
    let mut packer = Packer::announce(out, section);
    push_fitting(&mut packer, prefix);
    packer.finish();
}

// Draws whether the prefix is withdrawn, or with what it is announced. The message replaces the content of `out`.
#[tactic(auto, unfolding(crate::specs::Work::drawn_message))]
fn draw_message(generator: &mut Generator, peer: u32, prefix: Prefix, out: &mut Buf)
    requires room { MAX_MESSAGE ≤ out.old.capacity }
    requires peer { peer ≤ WORK_PEERS }
    ensures message { Replaces out.old out.new (drawn_message peer prefix generator.old.x).value }
    ensures next { generator.new.x ≡ (drawn_message peer prefix generator.old.x).x }
{
    let kind = generator.draw(4);
    if kind == 0 {
        write_withdrawal(out, prefix);
        return;
    }
    let section = draw_section(generator, peer);
    write_announcement(out, section.as_slice(), prefix);
}

/// Draws an update. The number of its peer is returned; its message replaces the content of `out`.
#[tactic(auto, unfolding(crate::specs::Work::update))]
pub(crate) fn draw_update(generator: &mut Generator, out: &mut Buf) -> u32
    requires { MAX_MESSAGE ≤ out.old.capacity }
    ensures event { octets result out.new.octets ≡ (update generator.old.x).value }
    ensures next { generator.new.x ≡ (update generator.old.x).x }
    ensures capacity { out.new.capacity ≡ out.old.capacity }
    ensures peer { (1 ≤ result) × (result ≤ WORK_PEERS) }
{
    let peer = 1 + generator.draw(WORK_PEERS);
    let prefix = draw_network(generator);
    draw_message(generator, peer, prefix, out);
    peer
}
