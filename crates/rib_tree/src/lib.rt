//! A prefix tree: a finite map from prefixes to values, whose look-ups are bounded in steps.
//!
//! A [`Tree`] divides the addresses into blocks, each of which has the addresses with the same first bits. A node is a
//! leaf or a fork: a leaf has its entries in a page, one list by rising prefix, and a fork has a block and two nodes,
//! for the lower and the upper half of it. So the entries of a tree from left to right are by rising address, then by
//! rising length. The block of a fork is a part of the half that it is in, so a path has at most one fork for each bit
//! of an address, and the leaf; bits at which nothing divides have none. A look-up goes by the middles of the blocks
//! and doesn't test whether its prefix is in them: the page at the end has it or not.
//!
//! A page of 64 entries becomes a fork before another one goes in, of the smallest block that has its addresses and the
//! new one, unless that has one address alone: then the page has its at most 33 prefixes. Nor can a prefix go below a
//! fork whose block it isn't in: a fork of the smallest block that has both goes in its place, with the old one as one
//! half. If a removal leaves a half without entries, the other half goes in place of their fork. Leaves are pages since
//! a step down to another node takes longer than to go over some entries that are one after another in memory; larger
//! pages are slower again.
//!
//! The nodes are in a private type, `Subtree`, with one reading call, which takes a counter of steps and counts one:
//! what a look-up counts are the nodes that it visits. A walk, which promises no bound, counts on counters of its own.
//! Writes and removals are in a module below that of the type, and change the nodes of one path in place.
//!
//! Contracts see a tree as its entries by rising prefix, in the words of finite maps of xb_words. `specs/Trees` says
//! how entries are spread over nodes, `specs/Blocks` what parts a block has, and `specs/Pages` how a page is cut.
#![tactic(auto)]

mod block;
mod node;
mod page;
mod tree;
mod walk;

pub use tree::Tree;
