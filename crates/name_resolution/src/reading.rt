// From written trees to patterns, expressions and ground terms.
ghost use Rattle.std.specs.Prelude.{◌≡◌, IfOk, map, option_copied, option_and_then};
ghost use Rattle.name_resolution.specs.Known.{vocabulary_of, con_of, mapping_of};
ghost use Rattle.name_resolution.specs.Names.{place_of};
ghost use Rattle.name_resolution.specs.Operators.{operator_of};
ghost use Rattle.name_resolution.specs.Reads.{Reading, scalar_literal, map_literal, argument, arguments, applied_con, applied_op, tree_says, tree_of, expressions_of, pattern_reading, expression_reading, ground_reading};

use crate::entries::map_of;
use crate::known::Known;
use crate::names::NameTable;
use crate::numbers::{bare, bits};
use crate::operators::operator_of;
use data_value::{Op, Scalar, Value};
use no_memory::NoMemory;
use rule_text::RawTree;
use sexp_text::Name;
use sort_term::{ConId, Pattern, RuleExpr, RuleExprs, Sort, Term};
use sqlite_items::{Items, at};
use std::alloc::Global;

/// What a written tree can be read as.
pub trait Readable: Drop + Sized {
    /// What a variable, a literal, a constructor and an operator are.
    ghost reading: { Reading Self };

    /// A variable, by its number; None where there may be none.
    fn variable(place: usize) -> Option<Self>
        ensures { result ≡ reading.variable place };

    /// A literal; None where there may be none.
    fn literal(value: Value) -> Option<Self>
        ensures { result ≡ reading.literal value };

    /// A constructor with its arguments.
    fn constructed(con: ConId, args: Items<Self>) -> Self
        ensures { result ≡ reading.con con args };

    /// An operator with its arguments; None where there may be none.
    fn applied(op: Op, args: Items<Self>) -> Option<Self>
        ensures { result ≡ reading.op op args };
}

impl Readable for Pattern {
    ghost reading = { pattern_reading };

    fn variable(place: usize) -> Option<Pattern>
        ensures { result ≡ pattern_reading.variable place }
    {
        Some(Pattern::Bind(place))
    }

    fn literal(value: Value) -> Option<Pattern>
        ensures { result ≡ pattern_reading.literal value }
    {
        match value {
            Value::One(scalar) => Some(Pattern::Exact(scalar)),
            Value::Map(_) => None,
        }
    }

    fn constructed(con: ConId, args: Items<Pattern>) -> Pattern
        ensures { result ≡ pattern_reading.con con args }
    {
        Pattern::Con(con, args)
    }

    fn applied(_op: Op, _args: Items<Pattern>) -> Option<Pattern>
        ensures { result ≡ pattern_reading.op _op _args }
    {
        None
    }
}

impl Readable for RuleExpr {
    ghost reading = { expression_reading };

    fn variable(place: usize) -> Option<RuleExpr>
        ensures { result ≡ expression_reading.variable place }
    {
        Some(RuleExpr::Var(place))
    }

    fn literal(value: Value) -> Option<RuleExpr>
        ensures { result ≡ expression_reading.literal value }
    {
        Some(RuleExpr::Lit(value))
    }

    fn constructed(con: ConId, args: Items<RuleExpr>) -> RuleExpr
        ensures { result ≡ expression_reading.con con args }
    {
        RuleExpr::Con(con, args)
    }

    fn applied(op: Op, args: Items<RuleExpr>) -> Option<RuleExpr>
        ensures { result ≡ expression_reading.op op args }
    {
        Some(RuleExpr::Op(op, args))
    }
}

impl Readable for Term<Value> {
    ghost reading = { ground_reading };

    fn variable(_place: usize) -> Option<Term<Value>>
        ensures { result ≡ ground_reading.variable _place }
    {
        None
    }

    fn literal(value: Value) -> Option<Term<Value>>
        ensures { result ≡ ground_reading.literal value }
    {
        Some(Term::Plain(value))
    }

    fn constructed(con: ConId, args: Items<Term<Value>>) -> Term<Value>
        ensures { result ≡ ground_reading.con con args }
    {
        Term::Con(con, args)
    }

    fn applied(_op: Op, _args: Items<Term<Value>>) -> Option<Term<Value>>
        ensures { result ≡ ground_reading.op _op _args }
    {
        None
    }
}

/// What a tree is read as, over these variables and what is known; None where it is nothing: where a name is unknown, a
/// literal doesn't fit its width, a bare number stands where nothing tells a width, or something stands where it may not.
#[cycle(reading)]
pub fn read_tree<X: Readable>(
    alloc: Global,
    known: &Known<'_>,
    variables: &NameTable,
    raw: &RawTree,
) -> Result<Option<X>, NoMemory>
    ensures { IfOk result (λ x. x ≡ tree_of X.reading (vocabulary_of known.now) variables.now raw.now) }
{
    match raw {
        RawTree::Word(name) => Ok(read_variable(variables, name)),
        RawTree::Number(_) => Ok(None),
        RawTree::Flag(flag) => Ok(X::literal(Value::One(Scalar::Flag(*flag)))),
        RawTree::Bits(width, number) => Ok(read_scalar(bits(*width, *number))),
        RawTree::Map { key, word, entries } => read_map(alloc, *key, *word, entries.as_slice()),
        RawTree::Con(name, args) => read_con(alloc, known, variables, name, args.as_slice()),
        RawTree::Op {
            name,
            numbers,
            args,
        } => read_op(
            alloc,
            known,
            variables,
            name,
            numbers.as_slice(),
            args.as_slice(),
        ),
    }
}

// A constructor with its arguments; None for an unknown name, and where an argument is nothing.
#[cycle(reading)]
fn read_con<X: Readable>(
    alloc: Global,
    known: &Known<'_>,
    variables: &NameTable,
    name: &Name,
    raws: &[RawTree],
) -> Result<Option<X>, NoMemory>
    ensures { IfOk result (λ x. x ≡ applied_con X.reading (con_of (vocabulary_of known.now) name.now)
        (map (tree_says X.reading (vocabulary_of known.now) variables.now) raws.now)) }
{
    let Some((id, con)) = known.con(name) else {
        return Ok(None);
    };
    match read_arguments(alloc, known, variables, raws, con.args.as_slice())? {
        Some(args) => Ok(Some(X::constructed(id, args))),
        None => Ok(None),
    }
}

// An operator with its arguments; None where the name and its numbers write none, and where an argument is nothing.
#[cycle(reading)]
fn read_op<X: Readable>(
    alloc: Global,
    known: &Known<'_>,
    variables: &NameTable,
    name: &Name,
    numbers: &[u64],
    raws: &[RawTree],
) -> Result<Option<X>, NoMemory>
    ensures { IfOk result (λ x. x ≡ applied_op X.reading (operator_of name.now numbers.now)
        (map (tree_says X.reading (vocabulary_of known.now) variables.now) raws.now)) }
{
    let Some(op) = operator_of(name, numbers) else {
        return Ok(None);
    };
    match read_arguments(alloc, known, variables, raws, &[])? {
        Some(args) => Ok(X::applied(op, args)),
        None => Ok(None),
    }
}

// The arguments of a constructor, which has arguments of these sorts, or of an operator, whose arguments tell no widths;
// None where one is nothing.
#[cycle(reading)]
fn read_arguments<X: Readable>(
    alloc: Global,
    known: &Known<'_>,
    variables: &NameTable,
    raws: &[RawTree],
    sorts: &[Sort],
) -> Result<Option<Items<X>>, NoMemory>
    ensures { IfOk result (λ args.
        args ≡ arguments X.reading sorts.now (map (tree_says X.reading (vocabulary_of known.now) variables.now) raws.now)) }
{
    let mut args = Items::new(alloc);
    for i in 0..raws.len() {
        let Some(arg) = read_argument(alloc, known, variables, &raws[i], at(sorts, i))? else {
            return Ok(None);
        };
        args.push(arg)?;
    }
    Ok(Some(args))
}

// An argument in a place of this sort; None where it is nothing.
#[cycle(reading)]
fn read_argument<X: Readable>(
    alloc: Global,
    known: &Known<'_>,
    variables: &NameTable,
    raw: &RawTree,
    place: Option<&Sort>,
) -> Result<Option<X>, NoMemory>
    ensures { IfOk result (λ x.
        x ≡ argument X.reading (option_copied place.entry) (tree_says X.reading (vocabulary_of known.now) variables.now raw.now)) }
{
    if let RawTree::Number(number) = raw {
        return Ok(read_scalar(bare(place, *number)));
    }
    read_tree(alloc, known, variables, raw)
}

// A variable by its name; None where it is none.
fn read_variable<X: Readable>(variables: &NameTable, name: &Name) -> Option<X>
    ensures { result ≡ option_and_then X.reading.variable (place_of name.now variables.now) }
{
    match variables.place(name) {
        Some(place) => X::variable(place),
        None => None,
    }
}

// A scalar as a literal, where there is one.
fn read_scalar<X: Readable>(scalar: Option<Scalar>) -> Option<X>
    ensures { result ≡ option_and_then (scalar_literal X.reading) scalar }
{
    match scalar {
        Some(scalar) => X::literal(Value::One(scalar)),
        None => None,
    }
}

// A map as a literal; None where the entries are those of no map.
fn read_map<X: Readable>(
    alloc: Global,
    key: u64,
    word: u64,
    entries: &[(u64, u64)],
) -> Result<Option<X>, NoMemory>
    ensures { IfOk result (λ x. x ≡ option_and_then (map_literal X.reading) (mapping_of key word entries.now)) }
{
    match map_of(alloc, key, word, entries)? {
        Some(map) => Ok(X::literal(Value::Map(map))),
        None => Ok(None),
    }
}

/// The expressions that trees are; None where one is none.
pub fn read_expressions(
    alloc: Global,
    known: &Known<'_>,
    variables: &NameTable,
    raws: &[RawTree],
) -> Result<Option<RuleExprs>, NoMemory>
    ensures { IfOk result (λ exprs. exprs ≡ expressions_of (vocabulary_of known.now) variables.now raws.now) }
{
    let mut exprs = Items::new(alloc);
    for raw in raws {
        let Some(expr) = read_tree(alloc, known, variables, raw)? else {
            return Ok(None);
        };
        exprs.push(expr)?;
    }
    Ok(Some(exprs))
}
