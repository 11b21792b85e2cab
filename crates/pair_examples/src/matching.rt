//! Calls of `matches`, over any domain with variables.
ghost use Rattle.data_value.specs.Nodes.{IsValuation};
ghost use Rattle.std.specs.Prelude.{◌≡◌, All, IfOk};
ghost use Rattle.std.specs.Prelude.{IsTrue};
ghost use Rattle.data_value.specs.Nodes.{AllValid};
ghost use Rattle.pair_examples.specs.Matched.{IsOfNodes, IsPairOfNodes};

use data_value::Valuation;
use example_cases::{Failed, Texts, is_word, list, small};
use expr_pool::Pool;
use expr_tree::Trees;
use machine_examples::problem_without_rows;
use node_examples::{declare, made, valuation};
use pair_match::{Match, matches};
use probe_keys::MapPair;
use sexp_text::Form;
use shown_terms::Shown;
use sort_term::{Config, Problem};
use std::alloc::Global;
use symbolic_examples::{Valued, configuration};

/// Where a point relates two configurations, where the variables have some values.
pub(crate) fn answer(
    alloc: Global,
    texts: &Texts,
    domain: &Form,
    left: &Form,
    right: &Form,
    points: &Form,
    asked: &[Form],
) -> Result<String, Failed> {
    let problem = problem_without_rows(alloc, texts, left, right, points)?;
    let text = if is_word(domain, b"pool") {
        told(alloc, &mut Pool::new(alloc)?, &problem, asked)
    } else if is_word(domain, b"trees") {
        told(alloc, &mut Trees::new(alloc), &problem, asked)
    } else {
        Err(Failed::NoCall)
    };
    drop(problem);
    text
}

fn told<D: Valued>(
    alloc: Global,
    d: &mut D,
    problem: &Problem,
    asked: &[Form],
) -> Result<String, Failed> {
    let [sorts, nodes, point, left, right, values @ ..] = asked else {
        return Err(Failed::NoCall);
    };
    declare(d, list(sorts)?)?;
    let nodes = made(alloc, d, list(nodes)?)?;
    let found = matched(
        alloc,
        d,
        problem,
        nodes.as_slice(),
        small(point)?,
        list(left)?,
        list(right)?,
    )?;
    let valuation = valuation(alloc, d.sorts(), values)?;
    text_at(alloc, d, &found, &valuation)
}

fn matched<D: Valued>(
    alloc: Global,
    d: &mut D,
    problem: &Problem,
    nodes: &[D::Node],
    point: usize,
    left: &[Form],
    right: &[Form],
) -> Result<Match<D::Node>, Failed>
    requires { AllValid (D.look d.old) nodes.now }
    ensures { IfOk result (IsOfNodes (D.look d.new)) }
{
    if problem.points.points.len() <= point {
        return Err(Failed::NoCall);
    }
    let left = Config::new(configuration(alloc, d, &problem.left, nodes, left)?);
    let right = Config::new(configuration(alloc, d, &problem.right, nodes, right)?);
    Ok(matches(alloc, d, problem, point, &left, &right)?)
}

fn text_at<D: Valued>(
    alloc: Global,
    d: &D,
    found: &Match<D::Node>,
    valuation: &Valuation,
) -> Result<String, Failed>
    requires nodes { IsOfNodes (D.look d.now) found.now }
    requires fits { IsValuation (D.variables d.now) valuation.now }
{
    match found {
        Match::Apart => Ok(String::from_str(alloc, "apart")?),
        Match::When { binds, test, maps } => {
            let mut out = Shown::new(alloc);
            out.put("binds")?;
            put_nodes(&mut out, alloc, d, binds.as_slice(), valuation)?;
            out.truth(", test ", d.is_true(alloc, test, valuation)?)?;
            put_pairs(&mut out, alloc, d, maps.as_slice(), valuation)?;
            Ok(out.into_text())
        }
    }
}

fn put_nodes<D: Valued>(
    out: &mut Shown,
    alloc: Global,
    d: &D,
    nodes: &[D::Node],
    valuation: &Valuation,
) -> Result<(), Failed>
    requires nodes { AllValid (D.look d.now) nodes.now }
    requires fits { IsValuation (D.variables d.now) valuation.now }
{
    for node in nodes {
        out.put(" ")?;
        d.put_meaning(out, alloc, node, valuation)?;
    }
    Ok(())
}

fn put_pairs<D: Valued>(
    out: &mut Shown,
    alloc: Global,
    d: &D,
    pairs: &[MapPair<D::Node>],
    valuation: &Valuation,
) -> Result<(), Failed>
    requires pairs { All (IsPairOfNodes (D.look d.now)) pairs.now }
    requires fits { IsValuation (D.variables d.now) valuation.now }
{
    for pair in pairs {
        out.put(", ")?;
        d.put_meaning(out, alloc, &pair.left, valuation)?;
        out.put(" against ")?;
        d.put_meaning(out, alloc, &pair.right, valuation)?;
    }
    Ok(())
}
