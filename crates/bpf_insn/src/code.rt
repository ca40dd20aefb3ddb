// Accepted code.
ghost use Rattle.std.specs.Prelude.{◌≡◌, ◌<◌, ◌%◌, ◌^◌, None, Some, IfOk, IsTrue, IsErrOf};
ghost use Rattle.bpf_insn.specs.Helpers.{allows};
ghost use Rattle.bpf_insn.specs.Slots.{slots, slot_of, raw_imm, insn_at};
ghost use Rattle.bpf_insn.specs.Loading.{begins, load_fault};
ghost use Rattle.bpf_insn.specs.Sound.{IsAccepted, IsSound, CallsOnly};

use crate::checks::load_fault;
use crate::decode::decode_all;
use crate::fault::{LoadError, LoadFault};
use crate::helpers::HelperSet;
use crate::insn::Insn;
use crate::limits::SLOT_SIZE;
use std::alloc::Global;
use std::marker::Model;

/// Bytecode that `load` accepted: the octets that were loaded, and their instructions. Slots are numbered from 0.
#[derive(Drop)]
pub struct Code {
    octets: Vec<u8>,
    // The instruction of each slot, decoded once: a run takes millions of them.
    insns: Vec<Insn>,
}

impl Model for Code {
    ghost use Rattle.std.specs.Prelude.{ℕ, List};
    ghost use Rattle.bpf_insn.specs.Slots.{slots};
    ghost use Rattle.bpf_insn.specs.Sound.{IsAccepted};
    ghost use Rattle.bpf_insn.specs.Decoded.{AreInsns};

    ghost Value = { List ℕ };

    ghost view = { λ c. c.octets.items };

    ghost invariant = { λ c. IsAccepted c.octets.items
        × AreInsns c.octets.items (slots c.octets.items) c.insns.items };
}

/// Loads bytecode that may call the helpers of `allowed`. The errors are its first fault, and want of memory.
pub fn load(alloc: Global, bytes: &[u8], allowed: &HelperSet) -> Result<Code, LoadError>
    ensures octets { IfOk result (λ code. code ≡ bytes.now) }
    ensures good { IfOk result (λ code. load_fault (allows allowed.now) bytes.now ≡ None) }
    ensures calls { IfOk result (λ code. CallsOnly (allows allowed.now) code) }
    ensures bad { (fault : LoadFault) → IsErrOf result (LoadError.Bad fault)
        → load_fault (allows allowed.now) bytes.now ≡ Some fault }
{
    if let Some(fault) = load_fault(alloc, bytes, allowed)? {
        return Err(LoadError::Bad(fault));
    }
    let octets = Vec::from_slice(alloc, bytes)?;
    let insns = decode_all(alloc, bytes)?;
    Ok(Code { octets, insns })
}

impl Code {
    /// The number of slots, at most `MAX_SLOTS`.
    pub fn slots(&self) -> u32
        ensures value { result ≡ slots self.now }
        ensures accepted { IsAccepted self.now }
    {
        (self.octets.len() / SLOT_SIZE) as u32
    }

    /// The octets of slot `i`, as they were loaded.
    pub fn slot(&self, i: u32) -> [u8; SLOT_SIZE]
        requires { i < slots self.now }
        ensures { result ≡ slot_of self.now i }
    {
        let at = SLOT_SIZE * i as usize;
        let o = &self.octets[at..at + SLOT_SIZE];
        [o[0], o[1], o[2], o[3], o[4], o[5], o[6], o[7]]
    }

    /// The instruction at slot `i`, which may not be the second slot of a 64-bit load.
    #[inline(always)]
    pub fn at(&self, i: u32) -> Insn
        requires { IsTrue (begins self.now i) }
        ensures value { result ≡ insn_at self.now i }
        ensures low_half { result.imm % 2 ^ 32 ≡ raw_imm self.now i }
        ensures sound { IsSound self.now i }
    {
        *self.get(i)
    }

    /// The instruction at slot `i`, lent: who needs some of its fields reads no others.
    #[inline(always)]
    pub fn get(&self, i: u32) -> &Insn
        requires { IsTrue (begins self.now i) }
        ensures value { result.now ≡ insn_at self.now i }
        ensures low_half { result.now.imm % 2 ^ 32 ≡ raw_imm self.now i }
        ensures sound { IsSound self.now i }
    {
        &self.insns[i as usize]
    }
}
