//! How much a log may have.

/// The most octets of a log. A line that doesn't end within them is refused; the lines before it are read.
pub const LOG_LIMIT: u64 = 64 * 1024 * 1024;

/// The most octets of a line, without its end.
pub const LINE_LIMIT: usize = 8_400;

/// No line says more octets than this: each is two digits.
pub const OCTETS_LIMIT: usize = LINE_LIMIT / 2;
