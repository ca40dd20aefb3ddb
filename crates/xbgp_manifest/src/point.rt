//! The points at which programs run, by their words, and the helpers that each point has.
ghost use Rattle.std.specs.Prelude.{◌≡◌, ℕ, codes};
ghost use Rattle.toml.specs.View.{table_view};
ghost use Rattle.bpf_insn.specs.Helpers.{allows};
ghost use Rattle.xb_domain.specs.Points.{helper_allowed};
ghost use Rattle.xb_fields.specs.Fields.{required, text};
ghost use Rattle.xbgp_manifest.specs.Manifests.{point_text};

use bpf_insn::HelperSet;
use toml::Table;
use xb_domain::{BadKind, Point, helper_allowed};
use xb_fields::{FieldFault, Location, required_text};

// The greatest number of a helper that any point has.
const LAST_HELPER: u32 = 14;

// The point of a word.
fn point_in(word: &str) -> Option<Point>
    ensures { result ≡ point_text word.now }
{
    match word {
        "receive" => Some(Point::Receive),
        "inbound" => Some(Point::Inbound),
        "decision" => Some(Point::Decision),
        "outbound" => Some(Point::Outbound),
        "encode" => Some(Point::Encode),
        _ => None,
    }
}

/// The point of a program. `Range` if its text is not the word of a point.
#[tactic(auto, using(xb_fields::proofs::TextLemmas::text_absent))]
pub(crate) fn required_point(at: Location, table: &Table) -> Result<Point, FieldFault>
    ensures { result ≡ required at (codes "point") (text at point_text) (table_view table.now) }
{
    let text = required_text(at, "point", table)?;
    point_in(text).ok_or(at.fault(BadKind::Range))
}

/// The helpers that programs at a point may call, as the loader takes them.
pub(crate) fn helpers_at(point: Point) -> HelperSet
    ensures { (n : ℕ) → allows result n ≡ helper_allowed point n }
{
    let mut helpers = HelperSet::none();
    for number in 1..LAST_HELPER + 1 {
        if helper_allowed(point, number) {
            helpers = helpers.with(number);
        }
    }
    helpers
}
