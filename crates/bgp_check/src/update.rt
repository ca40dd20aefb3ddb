// The checks of the body of an UPDATE, in order.
ghost use Rattle.std.specs.Prelude.{◌≡◌, ◌≤◌, ◌-◌, length, Some, None, IfOk, IfErr};
ghost use Rattle.xb_wire.specs.Messages.{update_of};
ghost use Rattle.xb_wire.specs.Views.{notice_view};
ghost use Rattle.xb_values.specs.Prefixes.{are_prefixes as are_prefixes_of};
ghost use Rattle.bgp_update.specs.Joins.{Joins};
ghost use Rattle.bgp_attr.specs.Paths.{width_of};
ghost use Rattle.bgp_check.specs.Judgement.{judge};

use crate::notices;
use crate::section::judged_section;
use bgp_update::{Prefixes, UpdateView};
use xb_wire::Notice;

// Whether whole prefixes fill the octets.
#[tactic(auto, using(crate::proofs::JudgementLemmas::all_whole_prefixes))]
fn are_prefixes(octets: &[u8]) -> bool
    ensures { result ≡ are_prefixes_of octets.now }
{
    let mut prefixes = Prefixes::new(octets);
    'prefixes: while let Some(next) = prefixes.next() {
        if next.is_err() {
            return false;
        }
    }
    true
}

// The parts of an UPDATE's body, or its first fault, `wide` being whether its AS numbers have four octets.
#[tactic(auto, unfolding(crate::specs::Judgement::judge))]
fn judged<'a>(body: &'a [u8], wide: bool) -> Result<UpdateView<'a>, Notice<'a>>
    ensures fault { IfErr result (λ n. judge (width_of wide) body.now ≡ Some (notice_view n)) }
    ensures accepted { IfOk result (λ u. judge (width_of wide) body.now ≡ None) }
    ensures parts { IfOk result (λ u. update_of body.now ≡ Some u) }
    ensures joins { IfOk result (Joins body.now) }
    ensures data { IfErr result (λ n. length n.extra.now ≤ length body.now - 4) }
{
    let Some(update) = UpdateView::new(body) else {
        return Err(notices::malformed());
    };
    if !are_prefixes(update.withdrawn()) {
        return Err(notices::bad_prefix());
    }
    if let Some(notice) = judged_section(update.section(), !update.nlri().is_empty(), wide) {
        return Err(notice);
    }
    if !are_prefixes(update.nlri()) {
        return Err(notices::bad_prefix());
    }
    Ok(update)
}

/// The parts of an UPDATE's body, or its first fault, with AS numbers of two octets, the body being without the
/// message's header. The data of a fault is a part of the body, except for a missing attribute: there it is that
/// attribute's code. So it fits a NOTIFICATION if the body came in a message.
pub fn check_update<'a>(body: &'a [u8]) -> Result<UpdateView<'a>, Notice<'a>>
    ensures fault { IfErr result (λ n. judge 2 body.now ≡ Some (notice_view n)) }
    ensures accepted { IfOk result (λ u. judge 2 body.now ≡ None) }
    ensures parts { IfOk result (λ u. update_of body.now ≡ Some u) }
    ensures joins { IfOk result (Joins body.now) }
    ensures data { IfErr result (λ n. length n.extra.now ≤ length body.now - 4) }
{
    judged(body, false)
}

/// The same with AS numbers of four octets (RFC 6793, section 4.1).
pub fn check_update4<'a>(body: &'a [u8]) -> Result<UpdateView<'a>, Notice<'a>>
    ensures fault { IfErr result (λ n. judge 4 body.now ≡ Some (notice_view n)) }
    ensures accepted { IfOk result (λ u. judge 4 body.now ≡ None) }
    ensures parts { IfOk result (λ u. update_of body.now ≡ Some u) }
    ensures joins { IfOk result (Joins body.now) }
    ensures data { IfErr result (λ n. length n.extra.now ≤ length body.now - 4) }
{
    judged(body, true)
}
