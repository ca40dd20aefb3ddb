// One attribute of a list, with octets of its own.
ghost use Rattle.std.specs.Prelude.{◌≡◌, ◌++◌, length, OnOk};
ghost use Rattle.bgp_attr.specs.Routes.{attribute_at};
ghost use Rattle.xbgp_view.specs.Sections.{entry_of};

use crate::value::Value;
use std::alloc::{AllocError, Global};
use std::marker::Model;
use xbgp_view::RouteView;

/// An attribute: the flags that a route keeps, the code, and the octets of the value.
#[derive(Drop)]
pub(crate) struct Node {
    flags: u8,
    code: u8,
    value: Value,
}

impl Model for Node {
    ghost use Rattle.std.specs.Prelude.{ℕ};
    ghost use Rattle.bgp_attr.specs.Routes.{Attribute};

    ghost Value = { ℕ × Attribute };

    ghost view = { λ n. (n.code, record { flags = n.flags; value = n.value }) };
}

impl Node {
    pub(crate) fn flags(&self) -> u8
        ensures { result ≡ self.now.1.flags }
    {
        self.flags
    }

    pub(crate) fn code(&self) -> u8
        ensures { result ≡ self.now.0 }
    {
        self.code
    }

    pub(crate) fn value(&self) -> &[u8]
        ensures { result.now ≡ self.now.1.value }
    {
        self.value.as_slice()
    }
}

/// Appends a copy of the attribute of a code, if the view has it. The error is want of memory.
pub(crate) fn push_copy<R: RouteView>(
    alloc: Global,
    nodes: &mut Vec<Node>,
    view: &R,
    code: u8,
) -> Result<(), AllocError>
    ensures { OnOk result (nodes.new.items
        ≡ nodes.old.items ++ entry_of code (attribute_at (R.route view.now) code)) }
{
    let Some(held) = view.attribute(code) else {
        return Ok(());
    };
    let flags = held.flags();
    let value = Value::copy_of(alloc, held.value())?;
    nodes.push(Node { flags, code, value })?;
    Ok(())
}
