//! What a judgement refuses can be sent: a notice's data is short enough for a NOTIFICATION, whatever the body was.
ghost use Rattle.std.specs.Prelude.{◌≤◌, length, IfSome};
ghost use Rattle.bgp_check.specs.Judgement.{judge};
ghost use Rattle.bgp_open.specs.Opens.{judge_open4};
ghost use Rattle.bgp_write.specs.Written.{Replaces, notice_message};

use bgp_check::check_update;
use bgp_open::{OpenWant, PARAMETERS, read_open4};
use bgp_write::write_notice;
use xb_values::Buf;
use xb_wire::numbers::{MAX_BODY, MAX_MESSAGE};

/// Replaces the content of `out` by the NOTIFICATION of an UPDATE's first fault, if it has one.
pub fn refuse_update(out: &mut Buf, body: &[u8])
    requires room { MAX_MESSAGE ≤ out.old.capacity }
    requires body { length body.now ≤ MAX_BODY }
    ensures { IfSome (judge 2 body.now) (λ n. Replaces out.old out.new (notice_message n.code n.subcode n.extra)) }
{
    match check_update(body) {
        Ok(_) => {}
        Err(notice) => write_notice(out, notice.code, notice.subcode, notice.extra),
    }
}

/// Replaces the content of `out` by the NOTIFICATION of an OPEN's first fault, if it has one.
pub fn refuse_open(out: &mut Buf, body: &[u8], want: &OpenWant)
    requires room { MAX_MESSAGE ≤ out.old.capacity }
    requires body { PARAMETERS ≤ length body.now }
    ensures { IfSome (judge_open4 body.now want.now.peer_as)
        (λ n. Replaces out.old out.new (notice_message n.code n.subcode n.extra)) }
{
    match read_open4(body, want) {
        Ok(_) => {}
        Err(notice) => write_notice(out, notice.code, notice.subcode, notice.extra),
    }
}

#[cfg(test)]
mod tests {
    use super::*;
    use std::test::Fail;

    // The NOTIFICATION that ORIGIN is missing.
    const ORIGIN_MISSING: [u8; 22] = [
        255, 255, 255, 255, 255, 255, 255, 255, 255, 255, 255, 255, 255, 255, 255, 255, 0, 22, 3,
        3, 3, 1,
    ];

    #[test]
    fn an_announcement_without_attributes_is_refused(rt: HostRuntime) -> Result<(), Fail> {
        let mut out = Buf::make(rt.alloc(), MAX_MESSAGE)?;
        refuse_update(&mut out, &[0, 0, 0, 0, 8, 10]);
        assert_eq!(rt; out.as_slice(), ORIGIN_MISSING.as_slice());
        Ok(())
    }
}
