// The memory of one run of a program.
ghost use Rattle.std.specs.Prelude.{◌≡◌, ◌≤◌, length, is_some, IsSome, Some, option_map};
ghost use Rattle.std.specs.Bool.{OnTrue, OnFalse};
ghost use Rattle.std.specs.Borrow.{sem};
ghost use Rattle.xb_words.specs.Octets.{AreOctets};
ghost use Rattle.bpf_mem.specs.Memory.{fresh, octets_at, writable_at, IsMemory, IsAccessSize};

use crate::numbers::number_of;
use crate::offsets::{has_offset, offset_in, writable_offset};
use crate::regions::{MAX_WINDOW, WINDOW_BASE};
use crate::room::Room;
use std::marker::Model;

/// What one run of a program reads and writes: a room that it borrows, and a window.
#[derive(Drop)]
pub struct Memory<'a> {
    room: &'a mut Room,
    window: &'a [u8],
}

impl<'a> Model for Memory<'a> {
    ghost use Rattle.std.specs.Prelude.{◌≡◌, ◌+◌, ◌≤◌, length};
    ghost use Rattle.bpf_mem.specs.declared.regions.TheConstants.{STACK_SIZE, HEAP_SIZE, MAX_WINDOW};
    ghost use Rattle.bpf_mem.specs.Memory.{Memory};
    ghost use Rattle.bpf_mem.specs.Offsets.{memory_of};

    ghost Value = { Memory };

    ghost view = { λ m. memory_of m.room.now m.window.now };

    ghost invariant = { λ m. (length m.room.now ≡ STACK_SIZE + HEAP_SIZE) × (length m.window.now ≤ MAX_WINDOW) };
}

// The number of octets.
fn count(octets: &[u8]) -> u64
    ensures value { result ≡ length octets.now }
    ensures range { AreOctets octets.now }
{
    octets.len() as u64
}

impl<'a> Memory<'a> {
    ghost use Rattle.bpf_mem.specs.Memory.{load, store};
    ghost use Rattle.bpf_mem.specs.Lending.{LendsRange, LendsRangeIf};

    /// Memory over a room and a window of at most `MAX_WINDOW` octets. The stack and the heap begin as zeros.
    pub fn over(room: &'a mut Room, window: &'a [u8]) -> Memory<'a>
        requires { length window.now ≤ MAX_WINDOW }
        ensures { result ≡ fresh window.now }
    {
        room.clear();
        Memory { room, window }
    }

    /// The number of octets of the window.
    pub fn window_len(&self) -> u64
        ensures value { result ≡ length self.now.window }
        ensures shape { IsMemory self.now }
    {
        // Stack and heap are counted for the clause `shape` alone.
        let _all = count(self.room.octets());
        count(self.window)
    }

    /// The `len` octets from address `addr` on, or None if they aren't all in one region. A range of no octets is there
    /// at every address.
    #[inline(always)]
    pub fn range(&self, addr: u64, len: u64) -> Option<&[u8]>
        ensures { option_map (λ s. s.now) result ≡ octets_at self.now addr len }
    {
        let n = len as usize;
        if let Some(at) = writable_offset(addr, len) {
            return Some(&self.room.octets()[at..at + n]);
        }
        let at = offset_in(WINDOW_BASE, self.window.len(), addr, len)?;
        Some(&self.window[at..at + n])
    }

    /// Whether the octets of a range are all in the stack or all in the heap, so that they may be written.
    #[inline(always)]
    pub fn is_writable(&self, addr: u64, len: u64) -> bool
        ensures { result ≡ is_some (writable_at self.now addr len) }
    {
        has_offset(addr, len)
    }

    /// The octets of a range that may be written, which `is_writable` says.
    #[inline(always)]
    pub fn octets_mut(&mut self, addr: u64, len: u64) -> &mut [u8]
        requires { IsSome (writable_at self.old addr len) }
        ensures* writes_back { sem 𝓛 (LendsRange self.entry addr len result) }
        ensures value { writable_at self.old addr len ≡ Some result.now }
        ensures len { length result.now ≡ len }
    {
        let at = writable_offset(addr, len).unwrap_or(0);
        self.room.part_mut(at, len as usize)
    }

    /// The octets of a range, to be written, or None if they aren't all in the stack or all in the heap.
    ///
    /// When the borrow ends, memory is what it was with the octets that were left there; after None it is unchanged.
    pub fn range_mut(&mut self, addr: u64, len: u64) -> Option<&mut [u8]>
        ensures* writes_back { sem 𝓛 (LendsRangeIf self.entry addr len result) }
        ensures value { option_map (λ s. s.now) result ≡ writable_at self.old addr len }
    {
        if has_offset(addr, len) {
            return Some(self.octets_mut(addr, len));
        }
        None
    }

    /// The number in the `size` octets at `addr`, or None if they aren't all in one region. `size` is 1, 2, 4 or 8.
    #[inline(always)]
    pub fn load(&self, addr: u64, size: usize) -> Option<u64>
        requires { IsAccessSize size }
        ensures { result ≡ load self.now addr size }
    {
        self.range(addr, size as u64).map(number_of)
    }

    /// Writes the low `size` octets of `value` at `addr`. `size` is 1, 2, 4 or 8. Returns false, and leaves memory
    /// unchanged, if these octets aren't all in the stack or all in the heap.
    #[inline(always)]
    pub fn store(&mut self, addr: u64, size: usize, value: u64) -> bool
        requires { IsAccessSize size }
        ensures done { result ≡ is_some (store self.old addr size value) }
        ensures stored { OnTrue result (store self.old addr size value ≡ Some self.new) }
        ensures refused { OnFalse result (self.new ≡ self.old) }
        ensures window { self.new.window ≡ self.old.window }
    {
        if !self.is_writable(addr, size as u64) {
            return false;
        }
        let at = writable_offset(addr, size as u64).unwrap_or(0);
        self.room.write(at, &value.to_le_bytes()[..size]);
        true
    }
}
