//! What is asked of a pool.
ghost use Rattle.data_value.specs.Nodes.{AllValid};
ghost use Rattle.expr_pool.specs.Keys.{pool_look};

use crate::agreement::Meaning;
use crate::valuations::valuation;
use crate::{asked, making, simpler};
use data_value::{Symbolic, Valuation, Value, copy_value};
use example_cases::{Failed, is_word};
use expr_pool::Pool;
use sexp_text::Form;
use shown_terms::{Shown, value};
use std::alloc::{AllocError, Global};

/// What a pool with these variables and nodes answers.
pub(crate) fn answer(
    alloc: Global,
    sorts: &[Form],
    forms: &[Form],
    ask: &[Form],
) -> Result<String, Failed> {
    let mut pool = Pool::new(alloc)?;
    making::declare(&mut pool, sorts)?;
    let nodes = making::made(alloc, &mut pool, forms)?;
    match asked::answer(alloc, &pool, nodes.as_slice(), ask)? {
        Some(answer) => Ok(answer),
        None => {
            if simpler::is_asked(ask) {
                simpler::answer(alloc, &mut pool, nodes.as_slice(), ask)
            } else {
                of_all(alloc, &pool, ask)
            }
        }
    }
}

impl Meaning for Pool {
    fn meaning(&self, alloc: Global, node: &usize, valuation: &Valuation) -> Result<Value, Failed> {
        let values = self.values(valuation)?;
        match values.get(*node) {
            Some(value) => Ok(copy_value(alloc, value)?),
            None => Err(Failed::NoCall),
        }
    }
}

// What is asked of all nodes.
fn of_all(alloc: Global, pool: &Pool, ask: &[Form]) -> Result<String, Failed> {
    match ask {
        [kind] if is_word(kind, b"len") => {
            let mut out = Shown::new(alloc);
            out.place("", pool.len())?;
            Ok(out.into_text())
        }
        [kind, forms @ ..] if is_word(kind, b"values") => {
            let values = pool.values(&valuation(alloc, pool.sorts(), forms)?)?;
            Ok(in_a_row(alloc, values.as_slice())?)
        }
        _ => Err(Failed::NoCall),
    }
}

fn in_a_row(alloc: Global, values: &[Value]) -> Result<String, AllocError> {
    let mut out = Shown::new(alloc);
    for item in values {
        out.part(" ")?;
        value(&mut out, item)?;
    }
    Ok(out.into_text())
}
