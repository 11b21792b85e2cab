// What makes a pattern equal to a term over the nodes of any domain.
ghost use Rattle.std.specs.Prelude.{◌≡◌, [], ◌∷◌, IfOk, IsSome};
ghost use Rattle.data_value.specs.Nodes.{Extends};
ghost use Rattle.sort_term.specs.Sorted.{pattern_sort};
ghost use Rattle.sort_term.specs.Rules.{RepeatsOnlyScalars};
ghost use Rattle.sort_term.specs.NodeTerms.{seen_term, seen_sort};
ghost use Rattle.unify.specs.Meets.{IsMeet};
ghost use Rattle.unify.specs.Scopes.{scope_of};

use crate::binds::{Binds, Nodes, unbound};
use crate::matching::{Matching, join};
use data_value::Domain;
use no_memory::NoMemory;
use sort_term::{Pattern, Semantics, Side, Term, Vars};
use sqlite_items::Items;
use std::alloc::Global;

/// What makes a pattern equal to a term.
#[derive(Drop)]
pub enum Meet<N> {
    /// Nothing: at some place of the pattern a constructor stands against another constructor, or a literal against a
    /// known other scalar.
    Apart,
    /// That the pattern's variables have the values of these terms and that all equations, nodes of sort bool, are true.
    Meets {
        /// For each variable its term, where it stands in the pattern.
        binds: Binds<N>,
        /// What has to be true.
        equations: Nodes<N>,
    },
}

/// What makes the pattern `head` equal to a term of its sort. A variable that stands more than once in `head` is a truth
/// value or a bit vector.
///
/// `Apart` comes exactly where at some place of `head` a constructor stands against another constructor, or a literal
/// against a known other scalar; then no valuation makes them equal. Otherwise, under every valuation of the domain's
/// variables, a valuation of `vars` makes them equal exactly where it gives the variables of `head` the values of `binds`
/// and all equations are true.
pub fn unify<S: Side, D: Domain>(
    alloc: Global,
    d: &mut D,
    semantics: &Semantics<S>,
    vars: &Vars,
    head: &Pattern,
    term: &Term<D::Node>,
) -> Result<Meet<D::Node>, NoMemory>
    requires head { IsSome (pattern_sort semantics.now.cons vars.now head.now) }
    requires term { seen_sort semantics.now.cons (seen_term (D.look d.old) term.now) ≡ pattern_sort semantics.now.cons vars.now head.now }
    requires repeats { RepeatsOnlyScalars vars.now (head.now ∷ []) }
    ensures extends { Extends (D.look d.old) (D.look d.new) }
    ensures same_variables { D.variables d.new ≡ D.variables d.old }
    ensures meet { IfOk result
        (λ m. IsMeet (scope_of semantics.now.cons vars.now (D.variables d.old)) (D.look d.new) head.now
        (seen_term (D.look d.old) term.now) m) }
{
    let mut matching = Matching {
        binds: unbound(alloc, vars.len())?,
        equations: Items::new(alloc),
    };
    if join(alloc, d, semantics, vars, head, term, &mut matching)? {
        let Matching { binds, equations } = matching;
        Ok(Meet::Meets { binds, equations })
    } else {
        Ok(Meet::Apart)
    }
}
