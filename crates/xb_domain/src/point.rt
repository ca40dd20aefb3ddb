//! The points of the speaker at which programs run, and the helpers that a program may call at each.
ghost use Rattle.std.specs.Prelude.{◌≡◌};
ghost use Rattle.xb_domain.specs.Points.{helper_allowed};

/// A point of the speaker at which programs run.
#[derive(Clone, Copy, Debug, PartialEq, Eq)]
pub enum Point {
    Receive,
    Inbound,
    Decision,
    Outbound,
    Encode,
}

/// Whether a program at `point` may call the helper of that number. Helpers have the numbers 1 to 14.
pub fn helper_allowed(point: Point, number: u32) -> bool
    ensures { result ≡ helper_allowed point number }
{
    match point {
        Point::Receive => matches!(number, 1..=6 | 9..=11 | 13 | 14),
        Point::Inbound => matches!(number, 1..=6 | 8..=11 | 13 | 14),
        Point::Decision => matches!(number, 1 | 2 | 5 | 7..=9 | 13),
        Point::Outbound => matches!(number, 1..=9 | 13),
        Point::Encode => matches!(number, 1 | 2 | 5..=7 | 9 | 12 | 13),
    }
}
