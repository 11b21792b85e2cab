//! How a relation stands as far as its points are judged.
ghost use Rattle.std.specs.Prelude.{◌≡◌};
ghost use Rattle.verdict.specs.Findings.{standing_after, standing_verdict};

use ground_step::{Failure, Verdict};

/// How a relation stands as far as its points are judged, all of which are grounded. It says what is asked of the next point beside
/// whether it is grounded.
#[derive(Drop)]
pub(crate) enum Standing {
    /// Each cut successor has a partner. All is asked.
    Matched,
    /// One has none, and the right fails nowhere. Only whether the right fails is asked.
    Missed(Failure),
    /// The right fails. Nothing more is asked.
    Failed(Failure),
}

/// What is found of a point.
#[derive(Drop)]
pub(crate) enum Finding {
    /// It isn't grounded, and this is the verdict.
    Ungrounded(Verdict),
    /// It is grounded.
    Grounded(Partners),
}

/// What is found of the cut successors of a grounded point.
#[derive(Drop)]
pub(crate) enum Partners {
    /// The right fails.
    Fail(Failure),
    /// The right doesn't fail, and some cut successor has no partner.
    Miss(Failure),
    /// Nothing is wrong of what was asked.
    Sound,
}

/// How the relation stands with one more grounded point.
pub(crate) fn after(standing: Standing, found: Partners) -> Standing
    ensures { result ≡ standing_after standing found }
{
    match standing {
        Standing::Matched => match found {
            Partners::Fail(failure) => Standing::Failed(failure),
            Partners::Miss(failure) => Standing::Missed(failure),
            Partners::Sound => Standing::Matched,
        },
        Standing::Missed(kept) => match found {
            Partners::Fail(failure) => Standing::Failed(failure),
            Partners::Miss(_) => Standing::Missed(kept),
            Partners::Sound => Standing::Missed(kept),
        },
        Standing::Failed(kept) => Standing::Failed(kept),
    }
}

/// The verdict, where all points are judged.
pub(crate) fn verdict(standing: Standing) -> Verdict
    ensures { result ≡ standing_verdict standing }
{
    match standing {
        Standing::Matched => Verdict::Equivalent,
        Standing::Missed(failure) => Verdict::Refines(failure),
        Standing::Failed(failure) => Verdict::Unmatched(failure),
    }
}
