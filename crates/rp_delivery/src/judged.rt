//! What a reply says of a delivery.
ghost use Rattle.std.specs.Prelude.{◌≡◌};
ghost use Rattle.std.specs.List.{list_all};
ghost use Rattle.rp_delivery.specs.Judged as spec;

use rp_meaning::Verdict;
use rp_plain::messages::Reply;
use rp_plain::reports::ToldCheck;

/// What a validation says of a delivery.
#[derive(Clone, Copy, PartialEq, Eq)]
pub enum Judgement {
    /// Each check is TRUE or UNKNOWN.
    Kept,
    /// Some check is FALSE, LIMIT or NOT_RUN.
    NotKept,
}

/// What a reply says: the rules are kept by a validation alone.
pub fn judgement_of(reply: &Reply) -> Judgement
    ensures { result ≡ spec.judgement_of reply.now }
{
    match reply {
        Reply::Validated(report) => judged(report.checks.as_slice()),
        _ => Judgement::NotKept,
    }
}

fn judged(checks: &[ToldCheck]) -> Judgement
    ensures { result ≡ spec.judged checks.now }
{
    if are_kept(checks) {
        Judgement::Kept
    } else {
        Judgement::NotKept
    }
}

fn are_kept(checks: &[ToldCheck]) -> bool
    ensures { result ≡ list_all (λ check. spec.is_kept check.verdict) checks.now }
{
    checks.iter().all(|check| is_kept(check))
}

fn is_kept(check: &ToldCheck) -> bool
    ensures { result ≡ spec.is_kept check.now.verdict }
{
    matches!(check.verdict, Verdict::True | Verdict::Unknown)
}
