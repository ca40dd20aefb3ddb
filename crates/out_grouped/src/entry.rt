// The sections of one prefix.
ghost use Rattle.std.specs.Prelude.{◌≡◌, IsTrue, is_some, Some, None, false, IfOk};
ghost use Rattle.std.specs.Option.{option_map};
ghost use Rattle.bgp_write.specs.Pending.{same_section};
ghost use Rattle.out_grouped.specs.Slots.{due_of, is_fresh, is_gone, waiting};

use crate::waiting::Due;
use std::alloc::{AllocError, Global};
use std::marker::Model;
use std::mem;

// What was told of a prefix beside its section: that section, nothing, another section, or that section, which is no
// longer advertised.
#[derive(Drop)]
enum State {
    Known,
    Fresh,
    Changed(Vec<u8>),
    Gone,
}

/// The advertised and the told section of a prefix, at least one of them, and kept once if they are the same.
#[derive(Drop)]
pub(crate) struct Entry {
    section: Vec<u8>,
    state: State,
}

impl Model for Entry {
    ghost use Rattle.out_grouped.specs.Slots.{Slot, slot_of, IsApart};

    ghost Value = { Slot };

    ghost view = { λ e. slot_of e.section.items e.state };

    ghost invariant = { λ e. IsApart e.section.items e.state };
}

/// A copy of a section. The error is want of memory.
pub(crate) fn copy_of(alloc: Global, section: &[u8]) -> Result<Vec<u8>, AllocError>
    ensures { IfOk result (λ v. v.items ≡ section.now) }
{
    section.to_vec(alloc)
}

impl Entry {
    /// The entry of a prefix of which nothing was told. The error is want of memory.
    pub(crate) fn fresh(alloc: Global, section: &[u8]) -> Result<Entry, AllocError>
        ensures { IfOk result (λ e. e ≡ record { adv = Some section.now; told = None }) }
    {
        Ok(Entry {
            section: copy_of(alloc, section)?,
            state: State::Fresh,
        })
    }

    pub(crate) fn adv(&self) -> Option<&[u8]>
        ensures { option_map (λ s. s.now) result ≡ self.now.adv }
    {
        match self.state {
            State::Gone => None,
            _ => Some(self.section.as_slice()),
        }
    }

    pub(crate) fn is_gone(&self) -> bool
        ensures { result ≡ is_gone self.now }
    {
        matches!(self.state, State::Gone)
    }

    pub(crate) fn is_fresh(&self) -> bool
        ensures { result ≡ is_fresh self.now }
    {
        matches!(self.state, State::Fresh | State::Changed(_))
    }

    pub(crate) fn is_advertised(&self) -> bool
        ensures { result ≡ is_some self.now.adv }
    {
        !self.is_gone()
    }

    /// Whether anything was told.
    pub(crate) fn is_told(&self) -> bool
        ensures { result ≡ is_some self.now.told }
    {
        !matches!(self.state, State::Fresh)
    }

    /// Which message is due.
    pub(crate) fn due(&self) -> Due
        ensures { result ≡ due_of (Some self.now) }
    {
        Due {
            fresh: self.is_fresh(),
            gone: self.is_gone(),
        }
    }

    /// Whether a section was told that is not advertised.
    pub(crate) fn is_told_as(&self, section: &[u8]) -> bool
        requires { same_section (Some section.now) self.now.adv ≡ false }
        ensures { result ≡ same_section (Some section.now) self.now.told }
    {
        match &self.state {
            State::Known | State::Fresh => false,
            State::Changed(told) => section == told.as_slice(),
            State::Gone => section == self.section.as_slice(),
        }
    }

    pub(crate) fn is_advertised_as(&self, section: &[u8]) -> bool
        ensures { result ≡ same_section (Some section.now) self.now.adv }
    {
        match self.adv() {
            Some(adv) => section == adv,
            None => false,
        }
    }

    /// Advertises what was told. The section with which the prefix waited is returned.
    pub(crate) fn restore(&mut self) -> Option<Vec<u8>>
        requires { IsTrue (is_some self.old.told) }
        ensures after { self.new ≡ record self.old { adv = self.old.told } }
        ensures waited { option_map (λ s. s.items) result ≡ waiting self.old }
    {
        let State::Changed(told) = mem::replace(&mut self.state, State::Known) else {
            return None;
        };
        Some(mem::replace(&mut self.section, told))
    }

    /// Advertises a section that was not told. The section with which the prefix waited is returned.
    pub(crate) fn change(&mut self, section: Vec<u8>) -> Option<Vec<u8>>
        requires { same_section (Some section.items) self.old.told ≡ false }
        ensures after { self.new ≡ record self.old { adv = Some section.items } }
        ensures waited { option_map (λ s. s.items) result ≡ waiting self.old }
    {
        let old = mem::replace(&mut self.section, section);
        if matches!(self.state, State::Fresh | State::Changed(_)) {
            return Some(old);
        }
        self.state = State::Changed(old);
        None
    }

    /// Advertises nothing. The section with which the prefix waited is returned.
    pub(crate) fn unset(&mut self) -> Option<Vec<u8>>
        requires { IsTrue (is_some self.old.told) }
        ensures after { self.new ≡ record self.old { adv = None } }
        ensures waited { option_map (λ s. s.items) result ≡ waiting self.old }
    {
        let State::Changed(told) = mem::replace(&mut self.state, State::Gone) else {
            return None;
        };
        Some(mem::replace(&mut self.section, told))
    }

    /// Takes what is advertised for told.
    pub(crate) fn tell(&mut self)
        requires { IsTrue (is_some self.old.adv) }
        ensures { self.new ≡ record self.old { told = self.old.adv } }
    {
        self.state = State::Known;
    }

    /// The section of a prefix of which nothing was told.
    pub(crate) fn into_section(self) -> Vec<u8>
        requires { self.told ≡ None }
        ensures { Some result.items ≡ waiting self }
    {
        self.section
    }
}
