//! Calls on values, which are spelled as in `operands`. `(value V)` answers whether a value is in range, `(copy V)` its copy, and
//! `(same V V)` whether two are the same; `(sort OP SORT ..)` the sort of an operator's value at arguments of these sorts, `(apply OP V
//! ..)` its value, and `(scalar OP V ..)` its value at truth values and words. `(map-entries V)` answers a map's sort, whether it is
//! empty, and its entries, and `(map-word V KEY)` the word at a key. Over the domain whose nodes are values `(ground OP V V)` answers
//! the sort of an operator's node and what it is known as, and `(ground-constant V)` a value's node, and of it the same. The answer is
//! `none` where an operator takes no such arguments, or an argument is out of range.
ghost use Rattle.std.specs.Prelude.{◌≡◌, ◌↔◌, ◌∷◌, [], All, IfOk, IsSome, IsTrue, map};
ghost use Rattle.data_value.specs.Ground.{ground_seen};
ghost use Rattle.data_value.specs.Sorts.{op_sort};
ghost use Rattle.data_value.specs.Values.{IsScalar, IsValue, scalar_sort, value_sort};

use data_value::{
    DataSort, Domain, Ground, MapValue, Op, Scalar, Value, apply_scalar, apply_value, copy_value,
    is_value, same_value, sort_of, value_sort,
};
use example_cases::{Failed, number};
use no_memory::NoMemory;
use sexp_text::Form;
use shown_terms::{Shown, operands};
use sort_term::Sort;
use std::alloc::{AllocError, Global};

/// What the call with this name answers; None where there is no such call.
pub(crate) fn answer(
    alloc: Global,
    name: &[u8],
    arguments: &[Form],
) -> Result<Option<String>, Failed> {
    if let Some(answer) = value_answer(alloc, name, arguments)? {
        return Ok(Some(answer));
    }
    if let Some(answer) = operator_answer(alloc, name, arguments)? {
        return Ok(Some(answer));
    }
    if let Some(answer) = map_answer(alloc, name, arguments)? {
        return Ok(Some(answer));
    }
    ground_answer(alloc, name, arguments)
}

fn value_answer(alloc: Global, name: &[u8], arguments: &[Form]) -> Result<Option<String>, Failed> {
    let answer = match arguments {
        [value] if name == b"value".as_slice() => in_range(alloc, value),
        [value] if name == b"copy".as_slice() => copied(alloc, value),
        [first, second] if name == b"same".as_slice() => same(alloc, first, second),
        _ => return Ok(None),
    };
    Ok(Some(answer?))
}

fn operator_answer(
    alloc: Global,
    name: &[u8],
    arguments: &[Form],
) -> Result<Option<String>, Failed> {
    let [op, operands @ ..] = arguments else {
        return Ok(None);
    };
    let answer = if name == b"sort".as_slice() {
        sort_found(alloc, op, operands)
    } else if name == b"apply".as_slice() {
        applied(alloc, op, operands)
    } else if name == b"scalar".as_slice() {
        scalar_applied(alloc, op, operands)
    } else {
        return Ok(None);
    };
    Ok(Some(answer?))
}

fn map_answer(alloc: Global, name: &[u8], arguments: &[Form]) -> Result<Option<String>, Failed> {
    let answer = match arguments {
        [map] if name == b"map-entries".as_slice() => entries(alloc, map),
        [map, key] if name == b"map-word".as_slice() => word_at(alloc, map, key),
        _ => return Ok(None),
    };
    Ok(Some(answer?))
}

fn ground_answer(alloc: Global, name: &[u8], arguments: &[Form]) -> Result<Option<String>, Failed> {
    let answer = match arguments {
        [op, first, second] if name == b"ground".as_slice() => ground(alloc, op, first, second),
        [value] if name == b"ground-constant".as_slice() => constant(alloc, value),
        _ => return Ok(None),
    };
    Ok(Some(answer?))
}

fn told(alloc: Global, truth: bool) -> Result<String, Failed> {
    Ok(String::from_str(alloc, if truth { "true" } else { "false" })?)
}

fn none(alloc: Global) -> Result<String, Failed> {
    Ok(String::from_str(alloc, "none")?)
}

fn in_range(alloc: Global, value: &Form) -> Result<String, Failed> {
    told(alloc, is_value(&operands::value(alloc, value)?))
}

fn copied(alloc: Global, value: &Form) -> Result<String, Failed> {
    let value = operands::value(alloc, value)?;
    let copied = copy_value(alloc, &value);
    drop(value);
    let copy = copied?;
    let text = value_text(alloc, &copy);
    drop(copy);
    Ok(text?)
}

fn same(alloc: Global, first: &Form, second: &Form) -> Result<String, Failed> {
    let (first, second) = pair(alloc, first, second)?;
    let is_same = same_value(&first, &second);
    drop((first, second));
    told(alloc, is_same)
}

fn pair(alloc: Global, first: &Form, second: &Form) -> Result<(Value, Value), Failed> {
    let first = operands::value(alloc, first)?;
    match operands::value(alloc, second) {
        Ok(second) => Ok((first, second)),
        Err(failed) => {
            drop(first);
            Err(failed)
        }
    }
}

fn sort_found(alloc: Global, op: &Form, forms: &[Form]) -> Result<String, Failed> {
    let op = operands::operator(op)?;
    let sorts = sorts_of(alloc, forms)?;
    let found = sort_of(op, sorts.as_slice());
    drop(sorts);
    match found {
        Some(sort) => Ok(sort_text(alloc, sort)?),
        None => none(alloc),
    }
}

fn sorts_of(alloc: Global, forms: &[Form]) -> Result<Vec<DataSort>, Failed> {
    let mut sorts = Vec::new(alloc);
    for form in forms {
        sorts.push(operands::sort(form)?)?;
    }
    Ok(sorts)
}

fn applied(alloc: Global, op: &Form, forms: &[Form]) -> Result<String, Failed> {
    let op = operands::operator(op)?;
    let found = match forms {
        [a] => to_one(alloc, op, a),
        [a, b] => to_two(alloc, op, a, b),
        [a, b, c] => to_three(alloc, op, a, b, c),
        _ => return none(alloc),
    };
    match found? {
        Some(value) => {
            let text = value_text(alloc, &value);
            drop(value);
            Ok(text?)
        }
        None => none(alloc),
    }
}

fn triple(alloc: Global, a: &Form, b: &Form, c: &Form) -> Result<(Value, Value, Value), Failed> {
    let (first, second) = pair(alloc, a, b)?;
    match operands::value(alloc, c) {
        Ok(third) => Ok((first, second, third)),
        Err(failed) => {
            drop((first, second));
            Err(failed)
        }
    }
}

// The value of an operator at arguments that are in range and of sorts that it takes.
fn to_one(alloc: Global, op: Op, a: &Form) -> Result<Option<Value>, Failed> {
    let first = operands::value(alloc, a)?;
    let sorts = [value_sort(&first)];
    if sort_of(op, &sorts).is_none() || !is_value(&first) {
        drop(first);
        return Ok(None);
    }
    Ok(Some(apply_value(alloc, op, &[first])?))
}

fn to_two(alloc: Global, op: Op, a: &Form, b: &Form) -> Result<Option<Value>, Failed> {
    let (first, second) = pair(alloc, a, b)?;
    if !takes_two(op, &first, &second) {
        drop((first, second));
        return Ok(None);
    }
    Ok(Some(apply_value(alloc, op, &[first, second])?))
}

// Whether two values are in range and of sorts that an operator takes.
fn takes_two(op: Op, first: &Value, second: &Value) -> bool
    ensures first { IsTrue result → IsValue first.now }
    ensures second { IsTrue result → IsValue second.now }
    ensures sorted { IsTrue result → IsSome (op_sort op (value_sort first.now ∷ value_sort second.now ∷ [])) }
{
    let sorts = [value_sort(first), value_sort(second)];
    sort_of(op, &sorts).is_some() && is_value(first) && is_value(second)
}

fn to_three(alloc: Global, op: Op, a: &Form, b: &Form, c: &Form) -> Result<Option<Value>, Failed> {
    let (first, second, third) = triple(alloc, a, b, c)?;
    let sorts = [value_sort(&first), value_sort(&second), value_sort(&third)];
    let takes = sort_of(op, &sorts).is_some();
    if !takes || !is_value(&first) || !is_value(&second) || !is_value(&third) {
        drop((first, second, third));
        return Ok(None);
    }
    Ok(Some(apply_value(alloc, op, &[first, second, third])?))
}

fn scalar_applied(alloc: Global, op: &Form, forms: &[Form]) -> Result<String, Failed> {
    let op = operands::operator(op)?;
    let scalars = scalars_of(alloc, forms)?;
    let found = to_scalars(alloc, op, scalars.as_slice());
    drop(scalars);
    match found? {
        Some(scalar) => Ok(scalar_text(alloc, scalar)?),
        None => none(alloc),
    }
}

fn scalars_of(alloc: Global, forms: &[Form]) -> Result<Vec<Scalar>, Failed> {
    let mut scalars = Vec::new(alloc);
    for form in forms {
        scalars.push(operands::scalar(form)?)?;
    }
    Ok(scalars)
}

fn to_scalars(alloc: Global, op: Op, scalars: &[Scalar]) -> Result<Option<Scalar>, AllocError> {
    if !takes_scalars(alloc, op, scalars)? {
        return Ok(None);
    }
    Ok(Some(apply_scalar(op, scalars)))
}

// Whether the truth values and words are in range, and of sorts that the operator takes.
fn takes_scalars(alloc: Global, op: Op, scalars: &[Scalar]) -> Result<bool, AllocError>
    ensures sorted { IfOk result (λ b. IsTrue b → IsSome (op_sort op (map scalar_sort scalars.now))) }
    ensures scalars { IfOk result (λ b. IsTrue b → All IsScalar scalars.now) }
{
    let sorts: Vec<DataSort> = scalars.iter().copied().map(sort_of_scalar).collect(alloc)?;
    let are_values = scalars.iter().copied().all(is_scalar);
    Ok(sort_of(op, sorts.as_slice()).is_some() && are_values)
}

fn sort_of_scalar(scalar: Scalar) -> DataSort
    ensures { result ≡ scalar_sort scalar }
{
    value_sort(&Value::One(scalar))
}

fn is_scalar(scalar: Scalar) -> bool
    ensures { IsTrue result ↔ IsScalar scalar }
{
    is_value(&Value::One(scalar))
}

fn entries(alloc: Global, map: &Form) -> Result<String, Failed> {
    let map = operands::map(alloc, map)?;
    let text = entries_text(alloc, &map);
    drop(map);
    Ok(text?)
}

fn entries_text(alloc: Global, map: &MapValue) -> Result<String, AllocError> {
    let mut out = Shown::new(alloc);
    shown_terms::sort(&mut out, Sort::Plain(map.sort()))?;
    out.truth("; empty ", map.is_empty())?;
    out.place("; entries ", map.len())?;
    shown_terms::entries(&mut out, map)?;
    Ok(out.into_text())
}

fn word_at(alloc: Global, map: &Form, key: &Form) -> Result<String, Failed> {
    let word = operands::map(alloc, map)?.get(number(key)?);
    Ok(format!(in alloc; "{word}")?)
}

fn ground(alloc: Global, op: &Form, first: &Form, second: &Form) -> Result<String, Failed> {
    let op = operands::operator(op)?;
    let (first, second) = pair(alloc, first, second)?;
    let text = applied_text(alloc, op, &first, &second);
    drop((first, second));
    text
}

fn applied_text(alloc: Global, op: Op, first: &Value, second: &Value) -> Result<String, Failed> {
    if !takes_two(op, first, second) {
        return none(alloc);
    }
    let mut d = Ground::new(alloc);
    let (sort, known) = known_of(alloc, &mut d, op, first, second)?;
    let mut out = Shown::new(alloc);
    known_as(&mut out, sort, known)?;
    Ok(out.into_text())
}

// The sort of an operator's node at two constants, and what it is known as.
fn known_of<D: Domain>(
    alloc: Global,
    d: &mut D,
    op: Op,
    first: &Value,
    second: &Value,
) -> Result<(DataSort, Option<Scalar>), NoMemory>
    requires first { IsValue first.now }
    requires second { IsValue second.now }
    requires sorted { IsSome (op_sort op (value_sort first.now ∷ value_sort second.now ∷ [])) }
{
    let left = d.constant(first)?;
    let right = d.constant(second)?;
    let mut args = Vec::new(alloc);
    args.push(left)?;
    args.push(right)?;
    let node = d.apply(op, args.as_slice())?;
    let copy = d.copy(&node)?;
    Ok((d.sort(&copy), d.known(&node)))
}

fn constant(alloc: Global, value: &Form) -> Result<String, Failed> {
    let value = operands::value(alloc, value)?;
    let text = constant_text(alloc, &value);
    drop(value);
    text
}

fn constant_text(alloc: Global, value: &Value) -> Result<String, Failed> {
    if !is_value(value) {
        return none(alloc);
    }
    let mut d = Ground::new(alloc);
    let node = d.constant(value)?;
    let text = node_text(alloc, &d, &node);
    drop(node);
    Ok(text?)
}

fn node_text(alloc: Global, d: &Ground, node: &Value) -> Result<String, AllocError>
    requires { IsTrue (ground_seen node.now).valid }
{
    let mut out = Shown::new(alloc);
    shown_terms::value(&mut out, node)?;
    out.put("; ")?;
    known_as(&mut out, d.sort(node), d.known(node))?;
    Ok(out.into_text())
}

fn known_as(out: &mut Shown, sort: DataSort, known: Option<Scalar>) -> Result<(), AllocError> {
    shown_terms::sort(out, Sort::Plain(sort))?;
    out.put(" ")?;
    match known {
        Some(known) => shown_terms::scalar(out, known),
        None => out.put("unknown"),
    }
}

fn sort_text(alloc: Global, sort: DataSort) -> Result<String, AllocError> {
    let mut out = Shown::new(alloc);
    shown_terms::sort(&mut out, Sort::Plain(sort))?;
    Ok(out.into_text())
}

fn scalar_text(alloc: Global, scalar: Scalar) -> Result<String, AllocError> {
    let mut out = Shown::new(alloc);
    shown_terms::scalar(&mut out, scalar)?;
    Ok(out.into_text())
}

fn value_text(alloc: Global, value: &Value) -> Result<String, AllocError> {
    let mut out = Shown::new(alloc);
    shown_terms::value(&mut out, value)?;
    Ok(out.into_text())
}
