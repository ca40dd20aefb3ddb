// The table, and how it is made from a stream.
ghost use Rattle.std.specs.Prelude.{◌≡◌, [], ◌∷◌, IfOk, IfSome, IfNone, Some, None, if◌then◌else◌};
ghost use Rattle.std.specs.Option.{option_map};
ghost use Rattle.xb_words.specs.Table.{entry_after, IsRising};
ghost use Rattle.xb_values.specs.Prefixes.{prefix_cmp};
ghost use Rattle.bgp_update.specs.Heard.{heard as heard_of};
ghost use Rattle.heard_table.specs.Changes.{begins_with};
ghost use Rattle.heard_table.specs.Gives.{GivesTable};
ghost use Rattle.heard_table.specs.Steps.{update_step};

use crate::change::Change;
use crate::changes::Changes;
use crate::section::Section;
use bgp_update::{Messages, UpdateView};
use std::alloc::{AllocError, Global};
use std::marker::Model;
use thiserror::Error;
use xb_values::Prefix;
use xb_wire::numbers::UPDATE;

/// Why there is no table of a stream.
#[derive(Clone, Copy, Debug, PartialEq, Eq, Error)]
pub enum HeardError {
    #[error("out of memory")]
    OutOfMemory,
    /// A message or a rest is refused; `at` is the offset at which it begins.
    #[error("the stream is refused at octet {at}")]
    Bad { at: usize },
}

/// Prefixes, each with the section of path attributes that announced it last. It takes memory for each prefix of the
/// stream, so no more than in proportion to the stream, whose octets it borrows.
#[derive(Drop)]
pub struct Table<'a> {
    parts: Vec<Option<Section<'a>>>,
    changes: Vec<Change>,
}

impl<'a> Model for Table<'a> {
    ghost use Rattle.std.specs.List.Sorted.{IsSorted};
    ghost use Rattle.xb_values.specs.Prefixes.{Sections};
    ghost use Rattle.heard_table.specs.Changes.{settled, change_cmp};

    ghost Value = { Sections };

    ghost view = { λ t. settled t.parts.items t.changes.items };

    ghost invariant = { λ t. IsSorted change_cmp t.changes.items };
}

/// The entries of a table by rising prefix. Contracts see those that are still to come.
#[derive(Drop)]
pub struct Entries<'t, 'a> {
    parts: &'t [Option<Section<'a>>],
    rest: &'t [Change],
}

impl<'t, 'a> Model for Entries<'t, 'a> {
    ghost use Rattle.xb_values.specs.Prefixes.{Sections};
    ghost use Rattle.heard_table.specs.Changes.{settled};

    ghost Value = { Sections };

    ghost view = { λ e. settled e.parts.now e.rest.now };
}

impl<'a> Table<'a> {
    // The table that changes leave.
    fn settle(changes: Changes<'a>) -> Table<'a>
        ensures { result ≡ changes.entry }
    {
        let Changes { parts, mut list } = changes;
        list.sort_unstable();
        Table {
            parts,
            changes: list,
        }
    }

    /// All entries, in order.
    pub fn entries(&self) -> Entries<'_, 'a>
        ensures all { result ≡ self.now }
        ensures rising { IsRising prefix_cmp self.now }
    {
        Entries {
            parts: self.parts.as_slice(),
            rest: self.changes.as_slice(),
        }
    }

    /// The first prefix after the one given, or the first of all if none is given, with its section. None after the
    /// last. To walk over all entries, [`Table::entries`] is faster.
    pub fn after(&self, after: Option<Prefix>) -> Option<(Prefix, &[u8])>
        ensures entry { option_map (λ e. (e.0, e.1.now)) result ≡ entry_after prefix_cmp self.now after }
        ensures rising { IsRising prefix_cmp self.now }
    {
        let first = match after {
            None => 0,
            Some(prefix) => self.changes.partition_point(|c| c.prefix <= prefix),
        };
        let mut entries = Entries {
            parts: self.parts.as_slice(),
            rest: self.changes.as_slice().split_at(first).1,
        };
        entries.next()
    }
}

// Whether the first of these changes is one of that prefix.
fn begins_with(prefix: Prefix, changes: &[Change]) -> bool
    ensures { result ≡ begins_with prefix changes.now }
{
    match changes {
        [first, ..] => first.prefix == prefix,
        [] => false,
    }
}

impl<'t, 'a> Entries<'t, 'a> {
    /// The next prefix with its section.
    pub fn next(&mut self) -> Option<(Prefix, &'a [u8])>
        ensures entry { IfSome result (λ e. self.old ≡ (e.0, e.1.now) ∷ self.new) }
        ensures end { IfNone result ((self.old ≡ []) × (self.new ≡ [])) }
    {
        'changes: while let [change, rest @ ..] = self.rest {
            self.rest = rest;
            if begins_with(change.prefix, rest) {
                continue;
            }
            if let Some(Some(section)) = self.parts.get(change.part) {
                return Some((change.prefix, section.as_slice()));
            }
        }
        None
    }
}

// Applies an UPDATE. False if it cannot be read.
#[tactic(auto, unfolding(crate::specs::Steps::update_step))]
fn update<'a>(changes: &mut Changes<'a>, body: &'a [u8]) -> Result<bool, AllocError>
    ensures { IfOk result
        (λ whole. update_step body.now changes.old ≡ (if whole then Some changes.new else None)) }
{
    let Some(update) = UpdateView::new(body) else {
        return Ok(false);
    };
    if !changes.add(update.withdrawn(), None)? {
        return Ok(false);
    }
    changes.add(update.nlri(), Some(Section::new(update.section())))
}

/// The table of a stream of whole messages. Messages other than UPDATE change nothing, and path attributes are not
/// judged. The memory that it takes grows in proportion to the stream.
#[tactic(auto, using(crate::proofs::HeardLemmas::heard_by_steps))]
pub fn heard<'a>(alloc: Global, bytes: &'a [u8]) -> Result<Table<'a>, HeardError>
    ensures { GivesTable result (heard_of bytes.now) }
{
    let mut changes = Changes::new(alloc);
    let mut messages = Messages::new(bytes);
    'messages: while let Some(next) = messages.next() {
        let message = match next {
            Ok(message) => message,
            Err(at) => return Err(HeardError::Bad { at }),
        };
        if message.kind == UPDATE {
            match update(&mut changes, message.body) {
                Ok(true) => {}
                Ok(false) => return Err(HeardError::Bad { at: message.at }),
                Err(AllocError) => return Err(HeardError::OutOfMemory),
            }
        }
    }
    Ok(Table::settle(changes))
}
