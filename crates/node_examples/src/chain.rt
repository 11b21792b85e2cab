//! A long chain of nodes in a pool.
ghost use Rattle.std.specs.Prelude.{IfOk, IsTrue};
ghost use Rattle.expr_pool.specs.Keys.{pool_look};

use crate::valuations::fits;
use data_value::{DataSort, Op, Scalar, Symbolic, Valuation, Value};
use example_cases::Failed;
use expr_pool::Pool;
use formula_text::{applied, constant, variable};
use node_list::listed;
use shown_terms::{Shown, value};
use sqlite_items::Items;
use std::alloc::Global;

/// How many nodes a chain has in a pool, how many lines its last one has, and what that means where the variable is 1. The chain begins with a variable of 32 bits and
/// the word 1, and each further node is the sum of the two before it.
pub(crate) fn answer(alloc: Global, count: usize) -> Result<String, Failed> {
    let mut pool = Pool::new(alloc)?;
    pool.fresh(DataSort::Bits(32))?;
    let last = chain(alloc, &mut pool, count)?;
    let mut out = Shown::new(alloc);
    out.place("", pool.len())?;
    out.place(" nodes, ", line_count(alloc, &pool, last)?)?;
    out.put(" lines, ")?;
    put_meaning(alloc, &mut out, &pool, last)?;
    Ok(out.into_text())
}

fn chain(alloc: Global, pool: &mut Pool, count: usize) -> Result<usize, Failed>
    ensures { IfOk result (λ n. IsTrue (pool_look pool.new.nodes.keys n).valid) }
{
    let mut before = variable(pool, 0)?;
    let mut last = constant(pool, &Value::One(one()))?;
    for _turn in 0..count {
        let sum = applied(alloc, pool, Op::Add, &[last, before])?;
        before = last;
        last = sum;
    }
    Ok(last)
}

fn one() -> Scalar {
    Scalar::Bits { width: 32, bits: 1 }
}

fn line_count(alloc: Global, pool: &Pool, node: usize) -> Result<usize, Failed>
    requires { IsTrue (pool_look pool.now.nodes.keys node).valid }
{
    let lines = listed(alloc, pool, &node)?;
    Ok(lines.len())
}

fn put_meaning(alloc: Global, out: &mut Shown, pool: &Pool, node: usize) -> Result<(), Failed> {
    let mut valuation: Valuation = Items::new(alloc);
    valuation.push(Value::One(one()))?;
    if !fits(pool.sorts(), valuation.as_slice()) {
        return Err(Failed::NoCall);
    }
    let values = pool.values(&valuation)?;
    match values.get(node) {
        Some(meaning) => Ok(value(out, meaning)?),
        None => Err(Failed::NoCall),
    }
}
