//! Where a configuration isn't in the cut.
ghost use Rattle.std.specs.Prelude.{◌≡◌, IfOk};
ghost use Rattle.data_value.specs.Nodes.{Extends};
ghost use Rattle.sort_term.specs.Problems.{AreCuts, IsCut};
ghost use Rattle.sort_term.specs.NodeTerms.{seen_term};
ghost use Rattle.unify.specs.Branches.{IsConfiguration};
ghost use Rattle.cut_cover.specs.Outside.{IsOutside, IsCovering};

use crate::conditions::all_hold;
use data_value::Domain;
use data_value::conditions::{all, both, flag, negation};
use no_memory::NoMemory;
use sort_term::{Config, Cut, Cuts, Semantics, Side};
use std::alloc::Global;
use unify::{Meet, unify};

/// Where a configuration isn't in the cut: a condition that is false of exactly the valuations under which some item of the cut covers
/// the state that the configuration means, and so true of exactly the others. The only error is want of memory.
pub fn outside<S: Side, D: Domain>(
    alloc: Global,
    d: &mut D,
    semantics: &Semantics<S>,
    cuts: &Cuts<S>,
    config: &Config<S, D::Node>,
) -> Result<D::Node, NoMemory>
    requires cuts { AreCuts semantics.now cuts.now }
    requires config { IsConfiguration semantics.now (seen_term (D.look d.old) config.now.term) }
    ensures extends { Extends (D.look d.old) (D.look d.new) }
    ensures same_variables { D.variables d.new ≡ D.variables d.old }
    ensures outside { IfOk result (λ n. IsOutside (D.variables d.old) semantics.now.cons cuts.now (seen_term (D.look d.old) config.now.term) (D.look d.new n)) }
{
    let mut outside = flag(d, true)?;
    for item in cuts.as_slice() {
        let covering = covering(alloc, d, semantics, item, config)?;
        let elsewhere = negation(alloc, d, &covering)?;
        outside = both(alloc, d, &outside, &elsewhere)?;
    }
    Ok(outside)
}

/// Where an item of a cut covers the state that a configuration means: a condition that is true of exactly the valuations under which
/// some values of the item's variables make its pattern that state and its conditions true. The only error is want of memory.
pub fn covering<S: Side, D: Domain>(
    alloc: Global,
    d: &mut D,
    semantics: &Semantics<S>,
    item: &Cut<S>,
    config: &Config<S, D::Node>,
) -> Result<D::Node, NoMemory>
    requires item { IsCut semantics.now item.now }
    requires config { IsConfiguration semantics.now (seen_term (D.look d.old) config.now.term) }
    ensures extends { Extends (D.look d.old) (D.look d.new) }
    ensures same_variables { D.variables d.new ≡ D.variables d.old }
    ensures covering { IfOk result (λ n. IsCovering (D.variables d.old) semantics.now.cons item.now (seen_term (D.look d.old) config.now.term) (D.look d.new n)) }
{
    match unify(
        alloc,
        d,
        semantics,
        &item.vars,
        &item.pattern,
        config.term(),
    )? {
        Meet::Apart => Ok(flag(d, false)?),
        Meet::Meets { binds, equations } => {
            let equal = all(alloc, d, equations.as_slice())?;
            let holding = all_hold(alloc, d, semantics, item.whens.as_slice(), &binds)?;
            Ok(both(alloc, d, &equal, &holding)?)
        }
    }
}
