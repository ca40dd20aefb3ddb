//! Laws of routes and their canonical sections. Each is the contract of a function that does nothing.
ghost use Rattle.std.specs.Prelude.{◌≡◌, ℕ, ◌+◌, ◌≤◌, List, length};
ghost use Rattle.xb_words.specs.Octets.{AreOctets};
ghost use Rattle.bgp_attr.specs.Routes.{Route, attribute_at, canon, canonical, kept_flags, route_of, with_attribute};
ghost use Rattle.bgp_attr.specs.Routes.{IsRoute};
ghost use Rattle.xbgp_view.specs.Sections.{entry_octets};

use bgp_attr::MAX_CANONICAL;

/// A route is what its canonical section is read as.
pub fn canonical_sections_are_read_back()
    ensures { (route : Route) → IsRoute route → route_of (canon route) ≡ route }
{}

/// A section of at most `MAX_CANONICAL` octets is read as a route that a view may show.
pub fn short_sections_are_routes()
    ensures { (section : List ℕ) → AreOctets section → length section ≤ MAX_CANONICAL → IsRoute (route_of section) }
{}

/// The canonical section of a section that was read is no longer.
pub fn canonical_sections_are_no_longer()
    ensures { (section : List ℕ) → AreOctets section → length (canon (route_of section)) ≤ length section }
{}

/// An edit takes the octets of the old attribute, if any, from the canonical section, and adds those of the new one.
pub fn edits_change_the_length()
    ensures { (route : Route) (code flags : ℕ) (value : List ℕ) → IsRoute route →
        length (canon (with_attribute route code flags value))
        + length (entry_octets code (attribute_at route code))
        ≡ length (canon route) + length (canonical (code, record { flags = kept_flags flags; value = value })) }
{}
