// Cases in which points relate two states.
ghost use Rattle.std.specs.Prelude.{◌≡◌, ◌<◌, All, IfOk, length, true};
ghost use Rattle.data_value.specs.Nodes.{Extends};
ghost use Rattle.data_value.specs.Truth.{IsCondition, truth};
ghost use Rattle.sort_term.specs.Relation.{Related};
ghost use Rattle.sort_term.specs.NodeTerms.{seen_term, tree_of};
ghost use Rattle.unify.specs.Branches.{IsConfiguration};
ghost use Rattle.probe_keys.specs.Cases.{seen_pairs, AreMaps, AreSame, seen_cases, IsCase};
ghost use Rattle.pair_match.specs.MoreCases.{AreMoreCases, RelatedBy};

use crate::matching::{Match, matches};
use data_value::conditions::both;
use data_value::{Domain, Symbolic};
use no_memory::NoMemory;
use probe_keys::{Case, Cases, MapPairs};
use sort_term::{Config, Left, Problem, Right};
use std::alloc::Global;

/// The cases and, for all points in turn, one more: that a condition is true and the point relates what two configurations mean. A point
/// that relates them nowhere adds none.
pub(crate) fn cases_between<D: Symbolic>(
    alloc: Global,
    d: &mut D,
    problem: &Problem,
    left: &Config<Left, D::Node>,
    right: &Config<Right, D::Node>,
    condition: &D::Node,
    cases: Cases<D::Node>,
) -> Result<Cases<D::Node>, NoMemory>
    requires left { IsConfiguration problem.now.left (seen_term (D.look d.old) left.now.term) }
    requires right { IsConfiguration problem.now.right (seen_term (D.look d.old) right.now.term) }
    requires condition { IsCondition (D.look d.old condition.now) }
    requires cases { All IsCase (seen_cases (D.look d.old) cases) }
    ensures extends { Extends (D.look d.old) (D.look d.new) }
    ensures same_variables { D.variables d.new ≡ D.variables d.old }
    ensures more { IfOk result
        (λ cs. AreMoreCases (D.variables d.old)
        (λ v. (truth (D.look d.old condition.now) v ≡ true)
        × Related problem.now (tree_of v (seen_term (D.look d.old) left.now.term)) (tree_of v (seen_term (D.look d.old) right.now.term)))
        (seen_cases (D.look d.old) cases) (seen_cases (D.look d.new) cs)) }
{
    let mut found = cases;
    for point in 0..problem.points.points.len() {
        found = case_at(alloc, d, problem, point, left, right, condition, found)?;
    }
    Ok(found)
}

// The same for one point.
fn case_at<D: Symbolic>(
    alloc: Global,
    d: &mut D,
    problem: &Problem,
    point: usize,
    left: &Config<Left, D::Node>,
    right: &Config<Right, D::Node>,
    condition: &D::Node,
    cases: Cases<D::Node>,
) -> Result<Cases<D::Node>, NoMemory>
    requires there { point < length problem.now.points.points }
    requires left { IsConfiguration problem.now.left (seen_term (D.look d.old) left.now.term) }
    requires right { IsConfiguration problem.now.right (seen_term (D.look d.old) right.now.term) }
    requires condition { IsCondition (D.look d.old condition.now) }
    requires cases { All IsCase (seen_cases (D.look d.old) cases) }
    ensures extends { Extends (D.look d.old) (D.look d.new) }
    ensures same_variables { D.variables d.new ≡ D.variables d.old }
    ensures more { IfOk result
        (λ cs. AreMoreCases (D.variables d.old)
        (λ v. (truth (D.look d.old condition.now) v ≡ true)
        × RelatedBy problem.now point (tree_of v (seen_term (D.look d.old) left.now.term)) (tree_of v (seen_term (D.look d.old) right.now.term)))
        (seen_cases (D.look d.old) cases) (seen_cases (D.look d.new) cs)) }
{
    match matches(alloc, d, problem, point, left, right)? {
        Match::Apart => Ok(cases),
        Match::When { test, maps, .. } => {
            Ok(with_case(alloc, d, condition, &test, maps, cases)?)
        }
    }
}

/// The cases and one more: that a condition and a test are true and the maps of each pair are equal.
pub(crate) fn with_case<D: Domain>(
    alloc: Global,
    d: &mut D,
    condition: &D::Node,
    test: &D::Node,
    maps: MapPairs<D::Node>,
    cases: Cases<D::Node>,
) -> Result<Cases<D::Node>, NoMemory>
    requires condition { IsCondition (D.look d.old condition.now) }
    requires test { IsCondition (D.look d.old test.now) }
    requires maps { All AreMaps (seen_pairs (D.look d.old) maps) }
    requires cases { All IsCase (seen_cases (D.look d.old) cases) }
    ensures extends { Extends (D.look d.old) (D.look d.new) }
    ensures same_variables { D.variables d.new ≡ D.variables d.old }
    ensures more { IfOk result
        (λ cs. AreMoreCases (D.variables d.old)
        (λ v. (truth (D.look d.old condition.now) v ≡ true) × (truth (D.look d.old test.now) v ≡ true)
        × All (AreSame v) (seen_pairs (D.look d.old) maps))
        (seen_cases (D.look d.old) cases) (seen_cases (D.look d.new) cs)) }
{
    let mut found = cases;
    let test = both(alloc, d, condition, test)?;
    found.push(Case { test, maps })?;
    Ok(found)
}
