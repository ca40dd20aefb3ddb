//! The list of outputs to which a speaker appends. It owns the octets of each, so that an output outlives the event.
ghost use Rattle.std.specs.Prelude.{◌≡◌, ◌<◌, ◌++◌, ◌∷◌, [], length, Some, IfOk, OnOk, OnErr};
ghost use Rattle.std.specs.List.{slice_get};
ghost use Rattle.xb_domain.specs.Views.{output_view, kept_view};

use crate::kept::Kept;
use crate::output::Output;
use std::alloc::{AllocError, Global};
use std::marker::Model;

/// Outputs in order, each with its octets.
#[derive(Drop)]
pub struct Outputs {
    alloc: Global,
    items: Vec<Kept>,
}

impl Model for Outputs {
    ghost use Rattle.std.specs.Prelude.{List, map};
    ghost use Rattle.xb_domain.specs.Outputs.{Output};
    ghost use Rattle.xb_domain.specs.Views.{kept_view};

    ghost Value = { List Output };

    ghost view = { λ o. map kept_view o.items.items };
}

// Keeps an output with its octets.
fn keep(alloc: Global, item: Output<'_>) -> Result<Kept, AllocError>
    ensures { IfOk result (λ kept. kept_view kept ≡ output_view item.entry) }
{
    match item {
        Output::Up(peer) => Ok(Kept::Up(peer)),
        Output::Down(peer) => Ok(Kept::Down(peer)),
        Output::Sent(peer, octets) => Ok(Kept::Sent(peer, Vec::from_slice(alloc, octets)?)),
    }
}

// Lends a kept output.
fn lend(kept: &Kept) -> Output<'_>
    ensures { output_view result ≡ kept_view kept.now }
{
    match kept {
        Kept::Up(peer) => Output::Up(*peer),
        Kept::Down(peer) => Output::Down(*peer),
        Kept::Sent(peer, octets) => Output::Sent(*peer, octets.as_slice()),
    }
}

impl Outputs {
    /// An empty list. The error is want of memory.
    pub fn make(alloc: Global) -> Result<Outputs, AllocError>
        ensures { IfOk result (λ o. o ≡ []) }
    {
        Ok(Outputs {
            alloc,
            items: Vec::new(alloc),
        })
    }

    /// Appends an output with a copy of its octets. The error is want of memory; then the list is unchanged.
    pub fn add(&mut self, item: Output<'_>) -> Result<(), AllocError>
        ensures ok { OnOk result (self.new ≡ self.old ++ output_view item.entry ∷ []) }
        ensures err { OnErr result (self.new ≡ self.old) }
    {
        let kept = keep(self.alloc, item)?;
        self.items.push(kept)?;
        Ok(())
    }

    /// Moves all outputs of `other` to the end of this list. The error is want of memory; then both are unchanged.
    pub fn append(&mut self, other: &mut Outputs) -> Result<(), AllocError>
        ensures moved { OnOk result (self.new ≡ self.old ++ other.old) }
        ensures emptied { OnOk result (other.new ≡ []) }
        ensures same { OnErr result (self.new ≡ self.old) }
        ensures kept { OnErr result (other.new ≡ other.old) }
    {
        self.items.append(&mut other.items)
    }

    /// How many outputs there are.
    pub fn len(&self) -> usize
        ensures { result ≡ length self.now }
    {
        self.items.len()
    }

    /// The output at index `i`, from 0.
    pub fn get(&self, i: usize) -> Output<'_>
        requires { i < length self.now }
        ensures { slice_get self.now i ≡ Some (output_view result) }
    {
        lend(&self.items[i])
    }

    /// Removes all outputs.
    pub fn clear(&mut self)
        ensures { self.new ≡ [] }
    {
        self.items.clear();
    }
}
