ghost use Rattle.std.specs.Prelude.{◌≡◌, ℕ, ◌+◌, ◌-◌, ◌<◌, ◌≤◌, ◌++◌, [], length, take, slice_set, IfOk};
ghost use Rattle.xb_values.specs.Buffers.{Appends};

use std::alloc::{AllocError, Global};
use std::marker::Model;
use xb_words::{copy_at, zeros};

/// Octets up to a capacity that is fixed when it is made, so that no later call takes memory.
#[derive(Drop)]
pub struct Buf {
    // All of the memory, of which the first `len` octets count.
    memory: Vec<u8>,
    len: usize,
}

impl Model for Buf {
    ghost use Rattle.std.specs.Prelude.{◌≤◌, length, take};
    ghost use Rattle.xb_values.specs.Buffers.{Buffer};

    ghost Value = { Buffer };

    ghost view = { λ b. record { octets = take b.len b.memory.items; capacity = length b.memory.items } };

    ghost invariant = { λ b. b.len ≤ length b.memory.items };
}

impl Buf {
    /// An empty buffer of capacity `cap`, all of whose memory is taken here. The error is want of memory.
    pub fn make(alloc: Global, cap: usize) -> Result<Buf, AllocError>
        ensures { IfOk result (λ b. b ≡ record { octets = []; capacity = cap }) }
    {
        Ok(Buf {
            memory: zeros(alloc, cap)?,
            len: 0,
        })
    }

    /// Appends all of `bytes`, or none if they do not fit. Whether they fit is returned.
    #[inline(always)]
    #[tactic(auto, using(crate::proofs::BufferLemmas::take_copied, crate::proofs::BufferLemmas::length_copied))]
    pub fn push(&mut self, bytes: &[u8]) -> bool
        ensures { Appends result self.old self.new bytes.now }
    {
        if bytes.len() > self.room() {
            return false;
        }
        copy_at(&mut self.memory, self.len, bytes);
        self.len += bytes.len();
        true
    }

    /// Appends all of `bytes`, for which there is room.
    #[inline(always)]
    pub fn append(&mut self, bytes: &[u8])
        requires { length self.old.octets + length bytes.now ≤ self.old.capacity }
        ensures { self.new ≡ record self.old { octets = self.old.octets ++ bytes.now } }
    {
        let _ = self.push(bytes);
    }

    /// Replaces the content by `bytes`, for which there is room.
    pub fn replace(&mut self, bytes: &[u8])
        requires { length bytes.now ≤ self.old.capacity }
        ensures { self.new ≡ record self.old { octets = bytes.now } }
    {
        self.clear();
        self.append(bytes);
    }

    /// Removes all octets. The capacity stays.
    pub fn clear(&mut self)
        ensures { self.new ≡ record self.old { octets = [] } }
    {
        self.len = 0;
    }

    /// The octets, in the order in which they were appended.
    #[inline(always)]
    pub fn as_slice(&self) -> &[u8]
        ensures value { result.now ≡ self.now.octets }
        ensures bound { length result.now ≤ self.now.capacity }
    {
        &self.memory[..self.len]
    }

    /// How many octets there are.
    #[inline(always)]
    pub fn len(&self) -> usize
        ensures value { result ≡ length self.now.octets }
        ensures bound { result ≤ self.now.capacity }
    {
        self.len
    }

    /// The capacity less the length.
    #[inline(always)]
    pub fn room(&self) -> usize
        ensures value { result ≡ self.now.capacity - length self.now.octets }
        ensures bound { result + length self.now.octets ≡ self.now.capacity }
    {
        self.memory.len() - self.len
    }

    /// Replaces the octet at index `at`, from 0.
    pub fn set_at(&mut self, at: usize, byte: u8)
        requires { at < length self.old.octets }
        ensures { self.new ≡ record self.old { octets = slice_set self.old.octets at byte } }
    {
        self.memory[at] = byte;
    }

    /// Keeps the first `len` octets.
    pub fn truncate(&mut self, len: usize)
        requires { len ≤ length self.old.octets }
        ensures { self.new ≡ record self.old { octets = take len self.old.octets } }
    {
        self.len = len;
    }
}
