//! What is found.
ghost use Rattle.std.specs.Prelude.{◌≡◌, [], ◌++◌, IfOk};

use no_memory::NoMemory;
use path_condition::Leaves;
use sort_term::Side;
use sqlite_items::Items;
use std::alloc::Global;

/// What a search finds.
#[derive(Drop)]
pub struct Reach<S: Side, N> {
    /// Runs that end in the cut, and no state strictly between the first and the last is in it.
    pub met: Leaves<S, N>,
    /// Runs as long as was asked for, of which no later state is in the cut.
    pub long: Leaves<S, N>,
    /// Runs of at least one step that end without a next one, of which no later state is in the cut.
    pub halted: Leaves<S, N>,
    /// Runs that were dropped.
    pub dropped: Leaves<S, N>,
}

/// Nothing.
pub(crate) fn nothing<S: Side, N>(alloc: Global) -> Reach<S, N>
    ensures met { result.met ≡ [] }
    ensures long { result.long ≡ [] }
    ensures halted { result.halted ≡ [] }
    ensures dropped { result.dropped ≡ [] }
{
    Reach {
        met: Items::new(alloc),
        long: Items::new(alloc),
        halted: Items::new(alloc),
        dropped: Items::new(alloc),
    }
}

/// What was found twice, in one.
pub(crate) fn joined<S: Side, N: Drop>(
    first: Reach<S, N>,
    second: Reach<S, N>,
) -> Result<Reach<S, N>, NoMemory>
    ensures met { IfOk result (λ r. r.met ≡ first.met ++ second.met) }
    ensures long { IfOk result (λ r. r.long ≡ first.long ++ second.long) }
    ensures halted { IfOk result (λ r. r.halted ≡ first.halted ++ second.halted) }
    ensures dropped { IfOk result (λ r. r.dropped ≡ first.dropped ++ second.dropped) }
{
    let mut reach = first;
    reach.met.append(second.met)?;
    reach.long.append(second.long)?;
    reach.halted.append(second.halted)?;
    reach.dropped.append(second.dropped)?;
    Ok(reach)
}

/// What was found, and what was found from its long runs, which it is followed by.
pub(crate) fn followed<S: Side, N: Drop>(
    first: Reach<S, N>,
    second: Reach<S, N>,
) -> Result<Reach<S, N>, NoMemory>
    ensures met { IfOk result (λ r. r.met ≡ first.met ++ second.met) }
    ensures long { IfOk result (λ r. r.long ≡ second.long) }
    ensures halted { IfOk result (λ r. r.halted ≡ first.halted ++ second.halted) }
    ensures dropped { IfOk result (λ r. r.dropped ≡ first.dropped ++ second.dropped) }
{
    let mut reach = first;
    reach.met.append(second.met)?;
    reach.long = second.long;
    reach.halted.append(second.halted)?;
    reach.dropped.append(second.dropped)?;
    Ok(reach)
}
