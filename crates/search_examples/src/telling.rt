//! What a search found, as texts.
ghost use Rattle.std.specs.Prelude.{All};
ghost use Rattle.data_value.specs.Nodes.{IsValuation};
ghost use Rattle.symbolic_examples.specs.Ends.{EndsAtNodes};

use cut_search::Reach;
use data_value::Valuation;
use example_cases::{Failed, is_word};
use node_examples::valuation;
use sexp_text::Form;
use shown_terms::Shown;
use sort_term::Left;
use std::alloc::{AllocError, Global};
use symbolic_examples::{Sweep, Valued, byte, or_nothing, put_leaves};

/// What was found, as it is asked.
pub(crate) fn told<D: Valued>(
    alloc: Global,
    d: &D,
    reach: &Reach<Left, D::Node>,
    ask: &[Form],
) -> Result<String, Failed>
    requires met { All (EndsAtNodes (D.look d.now)) reach.now.met }
    requires long { All (EndsAtNodes (D.look d.now)) reach.now.long }
    requires halted { All (EndsAtNodes (D.look d.now)) reach.now.halted }
{
    match ask {
        [kind] if is_word(kind, b"sweep") => sweep(alloc, d, reach),
        [kind] if is_word(kind, b"leaves") => Ok(counts(alloc, reach)?),
        [kind, values @ ..] if is_word(kind, b"at") => {
            let valuation = valuation(alloc, d.sorts(), values)?;
            text_at(alloc, d, reach, &valuation, true)
        }
        _ => Err(Failed::NoCall),
    }
}

// The numbers of the leaves.
fn counts<N>(alloc: Global, reach: &Reach<Left, N>) -> Result<String, AllocError> {
    let mut out = Shown::new(alloc);
    out.place("met ", reach.met.len())?;
    out.place(", long ", reach.long.len())?;
    out.place(", halted ", reach.halted.len())?;
    out.place(", dropped ", reach.dropped.len())?;
    Ok(out.into_text())
}

// The answers at all values of one variable of 8 bits, each behind the first value that has it.
fn sweep<D: Valued>(alloc: Global, d: &D, reach: &Reach<Left, D::Node>) -> Result<String, Failed>
    requires met { All (EndsAtNodes (D.look d.now)) reach.now.met }
    requires long { All (EndsAtNodes (D.look d.now)) reach.now.long }
    requires halted { All (EndsAtNodes (D.look d.now)) reach.now.halted }
{
    let mut sweep = Sweep::new(alloc);
    for bits in 0..256u64 {
        let valuation = byte(alloc, d.sorts(), bits)?;
        sweep.add(bits, text_at(alloc, d, reach, &valuation, false)?)?;
    }
    Ok(sweep.into_text())
}

// The leaves that hold.
fn text_at<D: Valued>(
    alloc: Global,
    d: &D,
    reach: &Reach<Left, D::Node>,
    valuation: &Valuation,
    with_states: bool,
) -> Result<String, Failed>
    requires met { All (EndsAtNodes (D.look d.now)) reach.now.met }
    requires long { All (EndsAtNodes (D.look d.now)) reach.now.long }
    requires halted { All (EndsAtNodes (D.look d.now)) reach.now.halted }
    requires fits { IsValuation (D.variables d.now) valuation.now }
{
    let mut out = Shown::new(alloc);
    let (met, long, halted) = (
        reach.met.as_slice(),
        reach.long.as_slice(),
        reach.halted.as_slice(),
    );
    put_leaves(&mut out, alloc, d, "met ", met, valuation, with_states)?;
    put_leaves(&mut out, alloc, d, "long ", long, valuation, with_states)?;
    put_leaves(
        &mut out,
        alloc,
        d,
        "halted ",
        halted,
        valuation,
        with_states,
    )?;
    Ok(or_nothing(alloc, out.into_text())?)
}
