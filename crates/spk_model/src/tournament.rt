//! The choice among the candidates of a prefix: each meets the champion of those before it, and a program may say which
//! of the two is better. If none says so of any two, the native decision of all is the choice.
ghost use Rattle.std.specs.Prelude.{◌≡◌, ◌≢◌, ◌≤◌, ◌<◌, [], length, map};
ghost use Rattle.std.specs.Bool.{OnTrue};
ghost use Rattle.std.specs.List.{AllPairs, slice_index_or};
ghost use Rattle.spk_native.specs.Decision.{survivor as survivor_in};
ghost use Rattle.spk_native.specs.declared.decision.TheConstants.{MAX_CANDIDATES};
ghost use Rattle.xb_domain.specs.declared.point.Point.TheVariants.{Decision};
ghost use Rattle.xbgp_points.specs.Chains.{programs_at};
ghost use Rattle.spk_model.specs.Choosing.{AreRivals, Candidate};
ghost use Rattle.spk_model.specs.Tournaments.{choose as choice, is_new_preferred, is_second_better, is_verdict};
ghost use Rattle.spk_model.specs.Tournaments.{IsMeeting};

use crate::field::Field;
use spk_native::{MAX_CANDIDATES, Rank, survivor};
use xb_values::Prefix;
use xbgp_points::{Engine, Outcome};

// Most prefixes have no more candidates. A function fills its arrays whenever it is called, so larger ones have
// functions of their own.
const FEW: usize = 8;

// Whether the native decision prefers the second of two candidates.
fn is_second_better<F: Field>(field: &F, old: usize, new: usize) -> bool
    requires apart { AreRivals (F.candidates field.now) }
    requires order { old < new }
    requires within { new < length (F.candidates field.now) }
    ensures { (d : Candidate) → result ≡ is_second_better
        (slice_index_or (F.candidates field.now) old d) (slice_index_or (F.candidates field.now) new d) }
{
    survivor(&[field.rank(old), field.rank(new)]) == 1
}

// Whether a program said which of two candidates is better.
fn is_verdict(outcome: Outcome) -> bool
    ensures { result ≡ is_verdict outcome }
{
    matches!(outcome, Outcome::Verdict(_))
}

// Whether the new one of two candidates is preferred, after the programs ran on them.
fn is_new_preferred<F: Field>(outcome: Outcome, field: &F, old: usize, new: usize) -> bool
    requires apart { AreRivals (F.candidates field.now) }
    requires order { old < new }
    requires within { new < length (F.candidates field.now) }
    ensures { (d : Candidate) → result ≡ is_new_preferred outcome
        (slice_index_or (F.candidates field.now) old d) (slice_index_or (F.candidates field.now) new d) }
{
    match outcome {
        Outcome::Verdict(verdict) => verdict == 2,
        Outcome::Native | Outcome::Failed { .. } => is_second_better(field, old, new),
    }
}

// The programs run on two candidates.
fn meet<F: Field>(engine: &mut Engine, prefix: Prefix, field: &F, old: usize, new: usize) -> Outcome
    requires order { old < new }
    requires within { new < length (F.candidates field.now) }
    ensures ran { (d : Candidate) → IsMeeting engine.old engine.new prefix
        (slice_index_or (F.candidates field.now) old d) (slice_index_or (F.candidates field.now) new d) result }
    ensures same { (engine.new.manifest ≡ engine.old.manifest) × (engine.new.local ≡ engine.old.local) }
{
    engine.prefer(
        prefix,
        field.view(old),
        field.side(old),
        field.view(new),
        field.side(new),
    )
}

// The index of the best candidate by the native decision, with room for the ranks of all.
fn best_within<F: Field>(field: &F, ranks: &mut [Rank]) -> usize
    requires some { 1 ≤ length (F.candidates field.now) }
    requires few { length (F.candidates field.now) ≤ MAX_CANDIDATES }
    requires room { length (F.candidates field.now) ≤ length ranks.old }
    requires apart { AreRivals (F.candidates field.now) }
    ensures index { result ≡ survivor_in (map (λ c. c.rank) (F.candidates field.now)) }
    ensures within { result < length (F.candidates field.now) }
{
    for i in 0..field.count() {
        ranks[i] = field.rank(i);
    }
    survivor(&ranks[..field.count()])
}

// The index of the best of few candidates by the native decision.
fn best_of_few<F: Field>(field: &F) -> usize
    requires some { 1 ≤ length (F.candidates field.now) }
    requires few { length (F.candidates field.now) ≤ FEW }
    requires apart { AreRivals (F.candidates field.now) }
    ensures index { result ≡ survivor_in (map (λ c. c.rank) (F.candidates field.now)) }
    ensures within { result < length (F.candidates field.now) }
{
    let mut ranks = [field.rank(0); FEW];
    best_within(field, &mut ranks)
}

// The index of the best of many candidates by the native decision.
fn best_of_many<F: Field>(field: &F) -> usize
    requires some { 1 ≤ length (F.candidates field.now) }
    requires few { length (F.candidates field.now) ≤ MAX_CANDIDATES }
    requires apart { AreRivals (F.candidates field.now) }
    ensures index { result ≡ survivor_in (map (λ c. c.rank) (F.candidates field.now)) }
    ensures within { result < length (F.candidates field.now) }
{
    let mut ranks = [field.rank(0); MAX_CANDIDATES];
    best_within(field, &mut ranks)
}

// The index of the best candidate by the native decision of all.
fn best_of_all<F: Field>(field: &F) -> usize
    requires some { 1 ≤ length (F.candidates field.now) }
    requires few { length (F.candidates field.now) ≤ MAX_CANDIDATES }
    requires apart { AreRivals (F.candidates field.now) }
    ensures index { result ≡ survivor_in (map (λ c. c.rank) (F.candidates field.now)) }
    ensures within { result < length (F.candidates field.now) }
{
    if field.count() == 1 {
        return 0;
    }
    if field.count() <= FEW {
        return best_of_few(field);
    }
    best_of_many(field)
}

// Whether no program runs at decision.
fn is_native(engine: &Engine) -> bool
    ensures { OnTrue result (programs_at engine.now.manifest Decision ≡ []) }
{
    !engine.runs_at_decision()
}

/// The index of the best of the candidates for `prefix`. The programs at decision run on pairs of them in turn.
pub fn choose<F: Field>(engine: &mut Engine, prefix: Prefix, field: &F) -> usize
    requires some { 1 ≤ length (F.candidates field.now) }
    requires few { length (F.candidates field.now) ≤ MAX_CANDIDATES }
    requires apart { AreRivals (F.candidates field.now) }
    ensures index { result ≡
        (choice engine.old.manifest engine.old.local engine.old.engine prefix (F.candidates field.now)).index }
    ensures within { result < length (F.candidates field.now) }
    ensures engine { engine.new.engine ≡
        (choice engine.old.manifest engine.old.local engine.old.engine prefix (F.candidates field.now)).engine }
    ensures same { (engine.new.manifest ≡ engine.old.manifest) × (engine.new.local ≡ engine.old.local) }
{
    if is_native(engine) {
        return best_of_all(field);
    }
    let mut champion = 0;
    let mut by_program = false;
    for i in 1..field.count() {
        let outcome = meet(engine, prefix, field, champion, i);
        by_program = by_program || is_verdict(outcome);
        if is_new_preferred(outcome, field, champion, i) {
            champion = i;
        }
    }
    if by_program {
        champion
    } else {
        best_of_all(field)
    }
}
