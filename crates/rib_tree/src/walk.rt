// Look-ups and walks: each goes down one path of nodes, or two.
ghost use Rattle.std.specs.Prelude.{◌≡◌, ◌+◌, ◌-◌, ◌^◌, ◌<◌, ◌≤◌, Some};
ghost use Rattle.std.specs.Option.{option_map};
ghost use Rattle.xb_words.specs.Table.{entry_after, first_of, value_at};
ghost use Rattle.xb_values.specs.Prefixes.{prefix_cmp};
ghost use Rattle.rib_tree.specs.Trees.{entries_of, nodes_to, IsTree};

use crate::node::{Node, Subtree};
use crate::page::{first_after_in, first_in, value_in};
use xb_values::{Prefix, Steps};

/// The value at a prefix.
#[tactic(auto, using(crate::proofs::TreesLemmas::look_up))]
pub(crate) fn find<'t, V, L>(
    tree: &'t Subtree<V>,
    key: Prefix,
    steps: &mut Steps<L>,
) -> Option<&'t V>
    requires tree { IsTree 0 32 tree.now.node }
    requires steps { steps.old + nodes_to key tree.now.node < 2 ^ 64 }
    ensures value { option_map (λ v. v.now) result ≡ value_at prefix_cmp (entries_of tree.now.node) key }
    ensures steps { steps.new ≡ steps.old + nodes_to key tree.now.node }
{
    match tree.read(steps) {
        Node::Leaf(page) => value_in(page, key),
        Node::Fork(halves) => {
            let halves = &**halves;
            if key.addr() < halves.block.middle() {
                find(&halves.low, key, steps)
            } else {
                find(&halves.high, key, steps)
            }
        }
    }
}

/// The first prefix.
#[tactic(auto, using(crate::proofs::TreesLemmas::first_of_halves))]
pub(crate) fn first<V>(tree: &Subtree<V>) -> Option<Prefix>
    ensures { result ≡ option_map (λ e. e.0) (first_of (entries_of tree.now.node)) }
{
    match tree.read(&mut Steps::start()) {
        Node::Leaf(page) => first_in(page),
        Node::Fork(halves) => {
            let halves = &**halves;
            match first(&halves.low) {
                None => first(&halves.high),
                found => found,
            }
        }
    }
}

/// The first prefix after another.
#[tactic(auto, using(crate::proofs::TreesLemmas::walk))]
pub(crate) fn first_after<V>(tree: &Subtree<V>, key: Prefix) -> Option<Prefix>
    requires { IsTree 0 32 tree.now.node }
    ensures { result ≡ option_map (λ e. e.0) (entry_after prefix_cmp (entries_of tree.now.node) (Some key)) }
{
    match tree.read(&mut Steps::start()) {
        Node::Leaf(page) => first_after_in(page, key),
        Node::Fork(halves) => {
            let halves = &**halves;
            if key.addr() < halves.block.middle() {
                match first_after(&halves.low, key) {
                    None => first(&halves.high),
                    found => found,
                }
            } else {
                first_after(&halves.high, key)
            }
        }
    }
}
