// A list of attributes by rising code.
ghost use Rattle.std.specs.Prelude.{◌≡◌, ◌==◌, find, IfOk};
ghost use Rattle.std.specs.Option.{option_map};
ghost use Rattle.bgp_attr.specs.Routes.{attribute_at, IsRoute};

use crate::node::{Node, push_copy};
use std::alloc::{AllocError, Global};
use std::marker::Model;
use xbgp_view::{Held, RouteView, copy_value};

/// A neutral route as a list of attributes by rising code. A search for a code goes through the list, which has as many
/// nodes as the route has attributes.
#[derive(Drop)]
pub struct AttrList {
    nodes: Vec<Node>,
}

impl Model for AttrList {
    ghost use Rattle.bgp_attr.specs.Routes.{Route, IsRoute};

    ghost Value = { Route };

    ghost view = { λ l. l.nodes.items };

    ghost invariant = { λ l. IsRoute l.nodes.items };
}

// The first node of a code.
fn first_with(nodes: &[Node], code: u8) -> Option<&Node>
    ensures { option_map (λ n. n.now) result ≡ find (λ e. e.0 == code) nodes.now }
{
    nodes.iter().find(|node| node.code() == code)
}

// The node of a code, if there is one.
#[tactic(auto, using(crate::proofs::NodeLemmas::node_found))]
fn node_at(nodes: &[Node], code: u8) -> Option<&Node>
    ensures { option_map (λ n. n.now.1) result ≡ attribute_at nodes.now code }
{
    first_with(nodes, code)
}

impl AttrList {
    /// A copy of the route that a view shows. The error is want of memory.
    pub fn copy_of<R: RouteView>(alloc: Global, view: &R) -> Result<AttrList, AllocError>
        ensures { IfOk result (λ l. l ≡ R.route view.now) }
    {
        let mut nodes = Vec::new(alloc);
        let mut from = 0u16;
        'codes: while let Some(code) = view.code_from(from) {
            push_copy(alloc, &mut nodes, view, code)?;
            from = u16::from(code) + 1;
        }
        Ok(AttrList { nodes })
    }
}

impl RouteView for AttrList {
    ghost route = { λ l. l };

    fn flags_len(&self, code: u8) -> Option<(u8, usize)> {
        let node = node_at(&self.nodes, code)?;
        Some((node.flags(), node.value().len()))
    }

    fn attribute(&self, code: u8) -> Option<Held<'_>> {
        let node = node_at(&self.nodes, code)?;
        Some(Held::new(node.flags(), node.value()))
    }

    fn copy(&self, code: u8, out: &mut [u8]) -> Option<usize> {
        copy_value(node_at(&self.nodes, code)?.value(), out)
    }

    fn code_from(&self, from: u16) -> Option<u8> {
        let node = self
            .nodes
            .iter()
            .find(|node| u16::from(node.code()) >= from)?;
        Some(node.code())
    }

    fn canonical_section(&self) -> Option<&[u8]> {
        None
    }
}
