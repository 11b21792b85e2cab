//! Calls of `data_value::conditions`, over the domain whose nodes are values: truth values, and for `equal` words of 8 bits too.
ghost use Rattle.std.specs.Prelude.{◌≡◌, ◌<◌, All, IfOk, IsTrue, map};
ghost use Rattle.data_value.specs.declared.DataSort.TheVariants.{Bits};
ghost use Rattle.data_value.specs.Ground.{ground_seen};
ghost use Rattle.data_value.specs.Truth.{IsCondition};

use data_value::conditions::{all, both, either, equal, flag, known_truth, negation};
use data_value::{Ground, Scalar, Value};
use example_cases::Failed;
use no_memory::NoMemory;
use sexp_text::{Form, FormKind};
use shown_terms::operands;
use std::alloc::Global;

const NAMES: [&[u8]; 6] = [b"flag", b"negation", b"both", b"either", b"equal", b"all"];

/// What the call with this name answers; None where there is no such call.
pub(crate) fn answer(
    alloc: Global,
    name: &[u8],
    arguments: &[Form],
) -> Result<Option<String>, Failed> {
    if !NAMES.iter().any(|known| *known == name) {
        return Ok(None);
    }
    let word = found(alloc, name, arguments)?;
    Ok(Some(String::from_str(alloc, word)?))
}

fn found(alloc: Global, name: &[u8], arguments: &[Form]) -> Result<&'static str, Failed> {
    if let [first, second] = arguments {
        if let (FormKind::Number(a), FormKind::Number(b)) = (&first.kind, &second.kind) {
            return same_words(alloc, name, *a, *b);
        }
    }
    let mut truths = Vec::new(alloc);
    for argument in arguments {
        truths.push(operands::truth(argument)?)?;
    }
    of_truths(alloc, name, truths.as_slice())
}

// What `equal` answers of two words of 8 bits.
fn same_words(alloc: Global, name: &[u8], a: u64, b: u64) -> Result<&'static str, Failed> {
    if name != b"equal".as_slice() || 255 < a || 255 < b {
        return Err(Failed::NoCall);
    }
    let mut d = Ground::new(alloc);
    let (a, b) = (word(a), word(b));
    let found = equal(alloc, &mut d, &a, &b);
    drop((a, b));
    Ok(told(known_truth(&d, &found?)))
}

fn word(bits: u64) -> Value
    requires { bits < 256 }
    ensures valid { IsTrue (ground_seen result).valid }
    ensures sort { (ground_seen result).sort ≡ Bits 8 }
{
    Value::One(Scalar::Bits { width: 8, bits })
}

// What a call answers of truth values.
fn of_truths(alloc: Global, name: &[u8], truths: &[bool]) -> Result<&'static str, Failed> {
    let mut d = Ground::new(alloc);
    let found = condition(alloc, &mut d, name, truths)?;
    Ok(told(known_truth(&d, &found)))
}

fn condition(alloc: Global, d: &mut Ground, name: &[u8], truths: &[bool]) -> Result<Value, Failed>
    ensures { IfOk result (λ n. IsCondition (ground_seen n)) }
{
    if name == b"all".as_slice() {
        return Ok(of_all(alloc, d, truths)?);
    }
    match truths {
        [a] => of_one(alloc, d, name, *a),
        [a, b] => {
            let (a, b) = (node(*a), node(*b));
            let found = of_two(alloc, d, name, &a, &b);
            drop((a, b));
            found
        }
        _ => Err(Failed::NoCall),
    }
}

fn of_one(alloc: Global, d: &mut Ground, name: &[u8], truth: bool) -> Result<Value, Failed>
    ensures { IfOk result (λ n. IsCondition (ground_seen n)) }
{
    if name == b"flag".as_slice() {
        return Ok(flag(d, truth)?);
    }
    if name == b"negation".as_slice() {
        return Ok(negation(alloc, d, &node(truth))?);
    }
    Err(Failed::NoCall)
}

fn of_two(alloc: Global, d: &mut Ground, name: &[u8], a: &Value, b: &Value) -> Result<Value, Failed>
    requires first { IsCondition (ground_seen a.now) }
    requires second { IsCondition (ground_seen b.now) }
    ensures { IfOk result (λ n. IsCondition (ground_seen n)) }
{
    if name == b"both".as_slice() {
        return Ok(both(alloc, d, a, b)?);
    }
    if name == b"either".as_slice() {
        return Ok(either(alloc, d, a, b)?);
    }
    if name == b"equal".as_slice() {
        return Ok(equal(alloc, d, a, b)?);
    }
    Err(Failed::NoCall)
}

fn of_all(alloc: Global, d: &mut Ground, truths: &[bool]) -> Result<Value, NoMemory>
    ensures { IfOk result (λ n. IsCondition (ground_seen n)) }
{
    let nodes = nodes(alloc, truths)?;
    let found = all(alloc, d, nodes.as_slice());
    drop(nodes);
    found
}

fn node(truth: bool) -> Value
    ensures { IsCondition (ground_seen result) }
{
    Value::One(Scalar::Flag(truth))
}

fn nodes(alloc: Global, truths: &[bool]) -> Result<Vec<Value>, NoMemory>
    ensures { IfOk result (λ ns. All IsCondition (map ground_seen ns.items)) }
{
    let mut nodes = Vec::new(alloc);
    for truth in truths {
        nodes.push(node(*truth))?;
    }
    Ok(nodes)
}

fn told(truth: Option<bool>) -> &'static str {
    match truth {
        Some(true) => "true",
        Some(false) => "false",
        None => "unknown",
    }
}
