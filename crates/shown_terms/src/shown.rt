//! Sorts, values and trees in one line. Numbers stand for names: `s0` is a declared sort, `c0` a constructor, `t0` a table and
//! `x0` a variable. A word is written as its width and its number, as `8:255`.
use data_value::{DataSort, MapValue, Op, Scalar, Value};
use name_resolution::OPERATOR_NAMES;
use sexp_text::Name;
use sort_term::{Pattern, RuleExpr, Sort, Term, Var};
use std::alloc::{AllocError, Global};

/// A line that is being written.
#[derive(Drop)]
pub struct Shown {
    alloc: Global,
    text: String,
}

impl Shown {
    /// Nothing so far.
    pub fn new(alloc: Global) -> Shown {
        Shown {
            alloc,
            text: String::new(alloc),
        }
    }

    /// The line.
    pub fn into_text(self) -> String {
        self.text
    }

    /// Writes some text.
    pub fn put(&mut self, text: &str) -> Result<(), AllocError> {
        self.text.push_str(text)
    }

    /// Writes what stands before a further part: nothing before the first.
    pub fn part(&mut self, between: &str) -> Result<(), AllocError> {
        if self.text.is_empty() {
            return Ok(());
        }
        self.put(between)
    }

    /// Writes a number behind some text.
    pub fn number(&mut self, before: &str, number: u64) -> Result<(), AllocError> {
        let text = format!(in self.alloc; "{before}{number}")?;
        self.put(text.as_str())
    }

    /// Writes a place behind a sign.
    pub fn place(&mut self, sign: &str, place: usize) -> Result<(), AllocError> {
        let text = format!(in self.alloc; "{sign}{place}")?;
        self.put(text.as_str())
    }

    /// Writes a truth value behind some text.
    pub fn truth(&mut self, before: &str, truth: bool) -> Result<(), AllocError> {
        self.put(before)?;
        self.put(if truth { "true" } else { "false" })
    }

    /// Writes bytes, each as the character of its number.
    pub fn bytes(&mut self, bytes: &[u8]) -> Result<(), AllocError> {
        for byte in bytes {
            self.text.push(char::from(*byte))?;
        }
        Ok(())
    }

    /// Writes the bytes of a name.
    pub fn name(&mut self, name: &Name) -> Result<(), AllocError> {
        self.bytes(name.as_slice())
    }
}

/// Writes a sort.
pub fn sort(out: &mut Shown, sort: Sort) -> Result<(), AllocError> {
    match sort {
        Sort::Own(id) => out.place("s", id.0),
        Sort::Plain(DataSort::Bool) => out.put("bool"),
        Sort::Plain(DataSort::Bits(width)) => {
            out.number("(bits ", u64::from(width))?;
            out.put(")")
        }
        Sort::Plain(DataSort::Map(key, word)) => {
            out.number("(map ", u64::from(key))?;
            out.number(" ", u64::from(word))?;
            out.put(")")
        }
    }
}

/// Writes variables with their sorts.
pub fn vars(out: &mut Shown, vars: &[Var]) -> Result<(), AllocError> {
    out.put("(vars")?;
    for var in vars {
        out.put(" (")?;
        out.name(&var.name)?;
        out.put(" ")?;
        sort(out, var.sort)?;
        out.put(")")?;
    }
    out.put(")")
}

/// Writes a truth value or a word.
pub fn scalar(out: &mut Shown, scalar: Scalar) -> Result<(), AllocError> {
    match scalar {
        Scalar::Flag(flag) => out.truth("", flag),
        Scalar::Bits { width, bits } => {
            out.number("", u64::from(width))?;
            out.number(":", bits)
        }
    }
}

/// Writes a value.
pub fn value(out: &mut Shown, value: &Value) -> Result<(), AllocError> {
    match value {
        Value::One(one) => scalar(out, *one),
        Value::Map(map) => mapping(out, map),
    }
}

fn mapping(out: &mut Shown, map: &MapValue) -> Result<(), AllocError> {
    if let DataSort::Map(key, word) = map.sort() {
        out.number("(map ", u64::from(key))?;
        out.number(" ", u64::from(word))?;
    }
    entries(out, map)?;
    out.put(")")
}

/// Writes the entries of a map, each behind a space.
pub fn entries(out: &mut Shown, map: &MapValue) -> Result<(), AllocError> {
    for place in 0..map.len() {
        let (key, word) = map.entry(place);
        out.number(" (", key)?;
        out.number(" ", word)?;
        out.put(")")?;
    }
    Ok(())
}

/// Writes a pattern.
#[cycle(pattern)]
pub fn pattern(out: &mut Shown, tree: &Pattern) -> Result<(), AllocError> {
    match tree {
        Pattern::Bind(place) => out.place("x", *place),
        Pattern::Exact(exact) => scalar(out, *exact),
        Pattern::Con(id, parts) => {
            out.place("(c", id.0)?;
            for part in parts.as_slice() {
                out.put(" ")?;
                pattern(out, part)?;
            }
            out.put(")")
        }
    }
}

/// Writes an expression.
#[cycle(expression)]
pub fn expression(out: &mut Shown, tree: &RuleExpr) -> Result<(), AllocError> {
    match tree {
        RuleExpr::Var(place) => out.place("x", *place),
        RuleExpr::Lit(literal) => value(out, literal),
        RuleExpr::Op(op, parts) => {
            operator(out, *op)?;
            expressions(out, parts.as_slice())
        }
        RuleExpr::Con(id, parts) => {
            out.place("(c", id.0)?;
            expressions(out, parts.as_slice())
        }
    }
}

#[cycle(expression)]
fn expressions(out: &mut Shown, parts: &[RuleExpr]) -> Result<(), AllocError> {
    for part in parts {
        out.put(" ")?;
        expression(out, part)?;
    }
    out.put(")")
}

/// Writes conditions, each behind a space.
pub fn whens(out: &mut Shown, whens: &[RuleExpr]) -> Result<(), AllocError> {
    for condition in whens {
        out.put(" (when ")?;
        expression(out, condition)?;
        out.put(")")?;
    }
    Ok(())
}

/// Writes the parenthesis before an operator, its name and its numbers.
pub fn operator(out: &mut Shown, op: Op) -> Result<(), AllocError> {
    match op {
        Op::Extract { hi, lo } => {
            out.number("(extract ", u64::from(hi))?;
            out.number(" ", u64::from(lo))
        }
        Op::Zext(width) => out.number("(zext ", u64::from(width)),
        Op::Sext(width) => out.number("(sext ", u64::from(width)),
        _ => {
            out.put("(")?;
            out.put(operator_name(op))
        }
    }
}

fn operator_name(op: Op) -> &'static str {
    for (name, named) in &OPERATOR_NAMES {
        if *named == op {
            return *name;
        }
    }
    "unnamed"
}

/// Writes a tree of constructors and values.
#[cycle(term)]
pub fn term(out: &mut Shown, tree: &Term<Value>) -> Result<(), AllocError> {
    match tree {
        Term::Plain(leaf) => value(out, leaf),
        Term::Con(id, parts) => {
            out.place("(c", id.0)?;
            for part in parts.as_slice() {
                out.put(" ")?;
                term(out, part)?;
            }
            out.put(")")
        }
    }
}
