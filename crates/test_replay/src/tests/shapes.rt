//! Logs of another shape that say the same: an octet a line, and long comments between the lines.
use super::rows::TOLD;
use super::{expect, log_of, repeated};
use std::alloc::{AllocError, Global};
use std::test::Fail;

// Appends a line `in` for each octet of one, which is split after its second word.
fn push_octets(lines: &mut String, line: &str) -> Result<(), AllocError> {
    let Some((front, digits)) = line.rsplit_once(' ') else {
        return Ok(());
    };
    let mut odd = false;
    for digit in digits.chars() {
        if !odd {
            lines.push_str(front)?;
            lines.push(' ')?;
        }
        lines.push(digit)?;
        if odd {
            lines.push('\n')?;
        }
        odd = !odd;
    }
    Ok(())
}

fn by_octets(alloc: Global, log: &str) -> Result<String, AllocError> {
    let mut lines = String::new(alloc);
    for line in log.lines() {
        if line.starts_with("in ") {
            push_octets(&mut lines, line)?;
        } else {
            lines.push_str(line)?;
            lines.push('\n')?;
        }
    }
    Ok(lines)
}

// 40 comments of 4,000 letters.
fn comments(alloc: Global) -> Result<String, AllocError> {
    let letters = repeated(alloc, "x", 4000)?;
    let mut lines = String::new(alloc);
    for _ in 0..40 {
        lines.push_str("# ")?;
        lines.push_str(&letters)?;
        lines.push('\n')?;
    }
    Ok(lines)
}

fn with_comments(alloc: Global, log: &str) -> Result<String, AllocError> {
    let before = comments(alloc)?;
    let mut lines = String::new(alloc);
    for line in log.lines() {
        lines.push_str(&before)?;
        lines.push_str(line)?;
        lines.push('\n')?;
    }
    Ok(lines)
}

#[test]
fn an_octet_a_line_gives_the_same_report(rt: HostRuntime) -> Result<(), Fail> {
    let log = log_of(rt.alloc(), &TOLD)?;
    let log = by_octets(rt.alloc(), &log)?;
    expect(&rt, &TOLD, &log, "")
}

#[test]
fn long_comments_change_nothing(rt: HostRuntime) -> Result<(), Fail> {
    let log = log_of(rt.alloc(), &TOLD)?;
    let log = with_comments(rt.alloc(), &log)?;
    expect(&rt, &TOLD, &log, "")
}
