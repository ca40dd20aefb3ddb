//! The words for causes and points.
ghost use Rattle.std.specs.Prelude.{◌≡◌, ◌≤◌, length};
ghost use Rattle.table_print.specs.Words.{cause_word, point_word};

use bpf_machine::Cause;
use xb_domain::Point;

/// The word for why a program failed, of at most 6 octets.
pub fn cause_word(cause: Cause) -> &'static [u8]
    ensures word { result.now ≡ cause_word cause }
    ensures short { length result.now ≤ 6 }
{
    match cause {
        Cause::Memory => b"memory",
        Cause::Fuel => b"fuel",
        Cause::Misuse => b"misuse",
        Cause::BadReturn => b"return",
        Cause::BadOutput => b"output",
    }
}

/// The word for where a program ran.
pub fn point_word(point: Point) -> &'static [u8]
    ensures { result.now ≡ point_word point }
{
    match point {
        Point::Receive => b"receive",
        Point::Inbound => b"inbound",
        Point::Decision => b"decision",
        Point::Outbound => b"outbound",
        Point::Encode => b"encode",
    }
}
