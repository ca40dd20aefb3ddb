// What the UPDATEs of a stream change, in the order in which they came.
ghost use Rattle.std.specs.Prelude.{◌≡◌, ◌+◌, [], IfOk, Some, None, if◌then◌else◌};
ghost use Rattle.bgp_update.specs.Walks.{prefixes_from};
ghost use Rattle.heard_table.specs.Changes.{listed, IsInTurn};
ghost use Rattle.heard_table.specs.Steps.{change_each};

use crate::change::Change;
use crate::section::Section;
use bgp_update::Prefixes;
use std::alloc::{AllocError, Global};
use std::marker::Model;

/// The parts of UPDATEs that have prefixes, each with what becomes of its prefixes: the section that they are announced
/// with, or None if they are withdrawn; and all their prefixes. Contracts see the table that the changes leave.
#[derive(Drop)]
pub(crate) struct Changes<'a> {
    pub(crate) parts: Vec<Option<Section<'a>>>,
    pub(crate) list: Vec<Change>,
}

impl<'a> Model for Changes<'a> {
    ghost use Rattle.std.specs.Prelude.{length, []};
    ghost use Rattle.xb_values.specs.Prefixes.{Sections};
    ghost use Rattle.heard_table.specs.Changes.{played, IsInTurn};

    ghost Value = { Sections };

    ghost view = { λ c. played c.parts.items c.list.items [] };

    ghost invariant = { λ c. IsInTurn (length c.parts.items) c.list.items };
}

// Adds the prefixes that octets write, each with that part. False if the octets are not prefixes to the end.
fn list_prefixes(list: &mut Vec<Change>, octets: &[u8], part: usize) -> Result<bool, AllocError>
    requires { IsInTurn (part + 1) list.old.items }
    ensures listed { IfOk result (λ whole. listed part (prefixes_from octets.now) list.old.items
        ≡ (if whole then Some list.new.items else None)) }
    ensures in_turn { IsInTurn (part + 1) list.new.items }
{
    let mut prefixes = Prefixes::new(octets);
    'prefixes: while let Some(next) = prefixes.next() {
        let Ok(prefix) = next else {
            return Ok(false);
        };
        list.push(Change { prefix, part })?;
    }
    Ok(true)
}

impl<'a> Changes<'a> {
    /// No changes.
    pub(crate) fn new(alloc: Global) -> Changes<'a>
        ensures { result ≡ [] }
    {
        Changes {
            parts: Vec::new(alloc),
            list: Vec::new(alloc),
        }
    }

    /// Adds the prefixes that octets write, each with what becomes of it. False if the octets are not prefixes to the
    /// end.
    pub(crate) fn add(
        &mut self,
        octets: &[u8],
        becomes: Option<Section<'a>>,
    ) -> Result<bool, AllocError>
        ensures { IfOk result (λ whole. change_each (prefixes_from octets.now) becomes.entry self.old
            ≡ (if whole then Some self.new else None)) }
    {
        if octets.is_empty() {
            return Ok(true);
        }
        let part = self.parts.len();
        self.parts.push(becomes)?;
        list_prefixes(&mut self.list, octets, part)
    }
}
