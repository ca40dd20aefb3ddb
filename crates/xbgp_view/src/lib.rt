//! Routes as programs see and edit them.
//!
//! A [`RouteView`] shows a neutral route, however it is kept: which codes it has, and for each of them flags and a
//! value, which it lends as a [`Held`]. Two views are here. A [`SectionView`] is a section of path attributes in place,
//! as it was received; it walks over the section once and notes each attribute by its code. An [`Overlay`] is a route
//! that can be edited. It has room for a canonical section of [`MAX_CANONICAL`](bgp_attr::MAX_CANONICAL) octets, for a
//! copy to return to, and for the next section, which an edit writes; so it takes no memory once it is made.
//!
//! Whatever the view, [`write_section`] writes its canonical section: the attributes by rising code, each in the form
//! of [`append_attribute`]. An overlay is filled by [`load`](Overlay::load) from a view or by [`read`](Overlay::read)
//! from a section. A section that is canonical already, as most are, is copied as a whole; another whose codes rise is
//! read attribute by attribute, without an index.
//!
//! What a neutral route and its canonical section are is in `specs/Routes` of bgp_attr; `specs/Views` says what a view
//! shows. Which edits a program may make, and whether the edited route is valid, is not here.
#![tactic(auto)]

mod find;
mod held;
pub mod laws;
mod overlay;
mod reading;
mod section;
mod spell;
mod view;

pub use find::copy_value;
pub use held::Held;
pub use overlay::Overlay;
pub use section::SectionView;
pub use spell::append_attribute;
pub use view::{RouteView, write_section};
