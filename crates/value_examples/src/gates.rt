//! Calls of gates, and of operators on words of literals. `(gate OP WIDTH X Y)` answers the word that an operator has at words of new
//! variables that are demanded to spell X and Y, of which it takes the first alone where it takes one; `(choose TRUTH WIDTH X Y)` the
//! word that is chosen of two such, and how many variables and clauses there are before they are demanded to spell the numbers.
//! `(part WIDTH NUMBER HIGH LOW)` answers a part of a constant word, and `(wider WIDTH NUMBER WIDER)` the word extended by zeros and by
//! its sign. `(added GATE LITERAL ..)` answers how many variables and clauses there are behind a gate that is added to the constant and
//! two variables, with literals as in `clauses`.
ghost use Rattle.std.specs.Prelude.{◌≡◌, ◌<◌, ◌≤◌, IfOk, length};
ghost use Rattle.bit_gates.specs.Meaning.{HasLit, HasLits};

use bit_gates::{
    Builder, Word, add, and, and_words, below, below_or_equal, concat, constant, constant_word,
    divide, equal, extend_sign, extend_zero, extract, fresh_word, multiply, mux, mux_words, negate,
    not_word, or, or_words, shift_left, shift_right, shift_signed, signed_below,
    signed_below_or_equal, subtract, xor, xor_words,
};
use clause_search::{Found, search};
use clause_text::{lit, size};
use data_value::{Op, fits_width};
use example_cases::{Failed, is_word, number, small};
use no_memory::NoMemory;
use refute_check::{Clauses, Lit};
use sexp_text::Form;
use shown_terms::operands;
use sqlite_items::Items;
use std::alloc::Global;

/// What the call with this name answers; None where there is no such call.
pub(crate) fn answer(
    alloc: Global,
    name: &[u8],
    arguments: &[Form],
) -> Result<Option<String>, Failed> {
    let answer = match arguments {
        [op, width, x, y] if name == b"gate".as_slice() => gate(alloc, op, width, x, y),
        [choice, width, x, y] if name == b"choose".as_slice() => {
            chosen(alloc, choice, width, x, y)
        }
        [gate, lits @ ..] if name == b"added".as_slice() => added(alloc, gate, lits),
        _ => return constant_answer(alloc, name, arguments),
    };
    Ok(Some(answer?))
}

// The calls on constant words.
fn constant_answer(
    alloc: Global,
    name: &[u8],
    arguments: &[Form],
) -> Result<Option<String>, Failed> {
    let answer = match arguments {
        [width, number, high, low] if name == b"part".as_slice() => {
            part(alloc, width, number, high, low)
        }
        [width, number, wider] if name == b"wider".as_slice() => {
            extended(alloc, width, number, wider)
        }
        _ => return Ok(None),
    };
    Ok(Some(answer?))
}

fn gate(alloc: Global, op: &Form, width: &Form, x: &Form, y: &Form) -> Result<String, Failed> {
    let (op, width) = (operands::operator(op)?, width_of(width)?);
    let numbers = (number_in(width, x)?, number_in(width, y)?);
    let mut builder = Builder::new(alloc)?;
    match gate_word(alloc, &mut builder, op, width, numbers) {
        Ok(word) => {
            let clauses = builder.into_clauses();
            let text = spelled(alloc, &clauses, word.as_slice());
            drop((clauses, word));
            text
        }
        Err(failed) => {
            drop(builder);
            Err(failed)
        }
    }
}

// The word that an operator has at words of new variables, which are demanded to spell the numbers.
fn gate_word(
    alloc: Global,
    builder: &mut Builder,
    op: Op,
    width: u8,
    numbers: (u64, u64),
) -> Result<Word, Failed>
    requires { 0 < width }
{
    let (first, second) = fresh_words(builder, usize::from(width))?;
    let word = demanded_word(
        alloc,
        builder,
        op,
        first.as_slice(),
        second.as_slice(),
        numbers,
    );
    drop((first, second));
    word
}

fn demanded_word(
    alloc: Global,
    builder: &mut Builder,
    op: Op,
    first: &[Lit],
    second: &[Lit],
    numbers: (u64, u64),
) -> Result<Word, Failed>
    requires first { HasLits builder.old first.now }
    requires second { HasLits builder.old second.now }
    requires same { length second.now ≡ length first.now }
    requires some { 0 < length first.now }
{
    let word = operate(alloc, builder, op, first, second)?;
    match demand_numbers(builder, first, second, numbers) {
        Ok(()) => Ok(word),
        Err(failed) => {
            drop(word);
            Err(failed)
        }
    }
}

// Two words of new variables.
fn fresh_words(builder: &mut Builder, width: usize) -> Result<(Word, Word), NoMemory>
    ensures first { IfOk result (λ words. HasLits builder.new words.0) }
    ensures second { IfOk result (λ words. HasLits builder.new words.1) }
    ensures first_width { IfOk result (λ words. length words.0 ≡ width) }
    ensures second_width { IfOk result (λ words. length words.1 ≡ width) }
{
    let first = fresh_word(builder, width)?;
    match fresh_word(builder, width) {
        Ok(second) => Ok((first, second)),
        Err(error) => {
            drop(first);
            Err(error)
        }
    }
}

// A width, from 1 to 64.
fn width_of(form: &Form) -> Result<u8, Failed>
    ensures some { IfOk result (λ w. 0 < w) }
    ensures most { IfOk result (λ w. w ≤ 64) }
{
    match operands::byte(form)? {
        width if 1 <= width && width <= 64 => Ok(width),
        _ => Err(Failed::NoCall),
    }
}

// A number that fits a width.
fn number_in(width: u8, form: &Form) -> Result<u64, Failed> {
    match number(form)? {
        number if fits_width(width, number) => Ok(number),
        _ => Err(Failed::NoCall),
    }
}

// The word that an operator has at two words of one width.
fn operate(alloc: Global, b: &mut Builder, op: Op, x: &[Lit], y: &[Lit]) -> Result<Word, Failed>
    requires x { HasLits b.old x.now }
    requires y { HasLits b.old y.now }
    requires same { length y.now ≡ length x.now }
    requires some { 0 < length x.now }
{
    let word = match op {
        Op::BvNot => not_word(b, x),
        Op::BvAnd => and_words(b, x, y),
        Op::BvOr => or_words(b, x, y),
        Op::BvXor => xor_words(b, x, y),
        Op::Shl => shift_left(b, x, y),
        Op::Lshr => shift_right(b, x, y),
        Op::Ashr => shift_signed(b, x, y),
        Op::Concat => concat(b, x, y),
        _ => return calculate(alloc, b, op, x, y),
    };
    Ok(word?)
}

// The word of an operator on numbers, or the truth value of a comparison, as a word.
fn calculate(alloc: Global, b: &mut Builder, op: Op, x: &[Lit], y: &[Lit]) -> Result<Word, Failed>
    requires x { HasLits b.old x.now }
    requires y { HasLits b.old y.now }
    requires same { length y.now ≡ length x.now }
    requires some { 0 < length x.now }
{
    let word = match op {
        Op::Neg => negate(b, x),
        Op::Add => add(b, x, y),
        Op::Sub => subtract(b, x, y),
        Op::Mul => multiply(b, x, y),
        Op::Udiv => quotient(b, x, y),
        Op::Urem => remainder(b, x, y),
        _ => return Ok(Items::from_slice(alloc, &[compare(b, op, x, y)?])?),
    };
    Ok(word?)
}

fn quotient(b: &mut Builder, x: &[Lit], y: &[Lit]) -> Result<Word, NoMemory>
    requires x { HasLits b.old x.now }
    requires y { HasLits b.old y.now }
    requires same { length y.now ≡ length x.now }
{
    Ok(divide(b, x, y)?.quotient)
}

fn remainder(b: &mut Builder, x: &[Lit], y: &[Lit]) -> Result<Word, NoMemory>
    requires x { HasLits b.old x.now }
    requires y { HasLits b.old y.now }
    requires same { length y.now ≡ length x.now }
{
    Ok(divide(b, x, y)?.remainder)
}

fn compare(b: &mut Builder, op: Op, x: &[Lit], y: &[Lit]) -> Result<Lit, Failed>
    requires x { HasLits b.old x.now }
    requires y { HasLits b.old y.now }
    requires same { length y.now ≡ length x.now }
    requires some { 0 < length x.now }
{
    let lit = match op {
        Op::Eq => equal(b, x, y),
        Op::Ult => below(b, x, y),
        Op::Ule => below_or_equal(b, x, y),
        Op::Slt => signed_below(b, x, y),
        Op::Sle => signed_below_or_equal(b, x, y),
        _ => return Err(Failed::NoCall),
    };
    Ok(lit?)
}

// Demands that two words spell two numbers.
fn demand_numbers(
    builder: &mut Builder,
    first: &[Lit],
    second: &[Lit],
    numbers: (u64, u64),
) -> Result<(), Failed> {
    demand_number(builder, first, numbers.0)?;
    demand_number(builder, second, numbers.1)
}

// Demands that a word spells a number.
fn demand_number(builder: &mut Builder, word: &[Lit], number: u64) -> Result<(), Failed> {
    let mut rest = number;
    for lit in word {
        if builder.clauses.vars <= lit.var {
            return Err(Failed::NoCall);
        }
        builder.demand(if rest % 2 == 1 { *lit } else { lit.flip() })?;
        rest /= 2;
    }
    Ok(())
}

// The word under a model of the clauses.
fn spelled(alloc: Global, clauses: &Clauses, word: &[Lit]) -> Result<String, Failed> {
    match search(alloc, clauses)? {
        Found::Model(model) => {
            let text = word_text(alloc, model.as_slice(), word);
            drop(model);
            text
        }
        Found::Refuted(derivation) => {
            drop(derivation);
            Ok(String::from_str(alloc, "no model")?)
        }
    }
}

// The width and the number of a word under truth values of variables.
fn word_text(alloc: Global, model: &[bool], word: &[Lit]) -> Result<String, Failed> {
    let width = word.len();
    if 64 < width {
        return Err(Failed::NoCall);
    }
    let number = number_of(model, word);
    Ok(format!(in alloc; "{width}:{number}")?)
}

fn number_of(model: &[bool], word: &[Lit]) -> u64 {
    let mut number: u64 = 0;
    for lit in word.iter().rev() {
        number = number.wrapping_mul(2) | u64::from(is_true(model, *lit));
    }
    number
}

// A variable past the end has no truth value.
fn is_true(model: &[bool], lit: Lit) -> bool {
    model.get(lit.var).copied() == Some(lit.positive)
}

fn chosen(
    alloc: Global,
    choice: &Form,
    width: &Form,
    x: &Form,
    y: &Form,
) -> Result<String, Failed> {
    let (choice, width) = (operands::truth(choice)?, width_of(width)?);
    let numbers = (number_in(width, x)?, number_in(width, y)?);
    let mut builder = Builder::new(alloc)?;
    let text = chosen_in(alloc, &mut builder, choice, width, numbers);
    drop(builder);
    text
}

fn chosen_in(
    alloc: Global,
    builder: &mut Builder,
    choice: bool,
    width: u8,
    numbers: (u64, u64),
) -> Result<String, Failed> {
    let (first, second) = fresh_words(builder, usize::from(width))?;
    let text = chosen_of(
        alloc,
        builder,
        choice,
        first.as_slice(),
        second.as_slice(),
        numbers,
    );
    drop((first, second));
    text
}

fn chosen_of(
    alloc: Global,
    builder: &mut Builder,
    choice: bool,
    first: &[Lit],
    second: &[Lit],
    numbers: (u64, u64),
) -> Result<String, Failed>
    requires first { HasLits builder.old first.now }
    requires second { HasLits builder.old second.now }
    requires same { length second.now ≡ length first.now }
{
    let word = mux_words(builder, constant(choice), first, second)?;
    let text = chosen_text(alloc, builder, word.as_slice(), first, second, numbers);
    drop(word);
    text
}

// The word where two words spell numbers, behind how large the clauses are before that is demanded.
fn chosen_text(
    alloc: Global,
    builder: &mut Builder,
    word: &[Lit],
    first: &[Lit],
    second: &[Lit],
    numbers: (u64, u64),
) -> Result<String, Failed> {
    let size = size(alloc, &builder.clauses)?;
    demand_numbers(builder, first, second, numbers)?;
    let word = spelled(alloc, &builder.clauses, word)?;
    Ok(format!(in alloc; "{word}; {size}")?)
}

fn part(
    alloc: Global,
    width: &Form,
    value: &Form,
    high: &Form,
    low: &Form,
) -> Result<String, Failed> {
    let (high, low) = (small(high)?, small(low)?);
    let width = width_of(width)?;
    let builder = Builder::new(alloc)?;
    let text = part_in(alloc, &builder, width, value, high, low);
    drop(builder);
    text
}

fn part_in(
    alloc: Global,
    builder: &Builder,
    width: u8,
    value: &Form,
    high: usize,
    low: usize,
) -> Result<String, Failed> {
    let word = constant_word(builder, usize::from(width), number(value)?)?;
    let bits = part_of(builder, word.as_slice(), high, low);
    drop(word);
    constant_text(alloc, bits?)
}

fn part_of(builder: &Builder, word: &[Lit], high: usize, low: usize) -> Result<Word, Failed>
    requires { HasLits builder.now word.now }
{
    if high < low || word.len() <= high {
        return Err(Failed::NoCall);
    }
    Ok(extract(builder, word, high, low)?)
}

// A word of the constant and its opposite.
fn constant_text(alloc: Global, word: Word) -> Result<String, Failed> {
    let text = word_text(alloc, &[true], word.as_slice());
    drop(word);
    text
}

// A constant word in more bits, by zeros and by its sign.
fn extended(alloc: Global, width: &Form, value: &Form, wider: &Form) -> Result<String, Failed> {
    let (width, wider) = (width_of(width)?, width_of(wider)?);
    if wider < width {
        return Err(Failed::NoCall);
    }
    let builder = Builder::new(alloc)?;
    let text = extended_in(alloc, &builder, width, value, wider);
    drop(builder);
    text
}

fn extended_in(
    alloc: Global,
    builder: &Builder,
    width: u8,
    value: &Form,
    wider: u8,
) -> Result<String, Failed>
    requires some { 0 < width }
    requires wider { width ≤ wider }
{
    let word = constant_word(builder, usize::from(width), number(value)?)?;
    let text = extended_text(alloc, builder, word.as_slice(), usize::from(wider));
    drop(word);
    text
}

fn extended_text(
    alloc: Global,
    builder: &Builder,
    word: &[Lit],
    wider: usize,
) -> Result<String, Failed>
    requires word { HasLits builder.now word.now }
    requires some { 0 < length word.now }
    requires wider { length word.now ≤ wider }
{
    let zero = constant_text(alloc, extend_zero(builder, word, wider)?)?;
    let sign = constant_text(alloc, extend_sign(builder, word, wider)?)?;
    Ok(format!(in alloc; "{zero} {sign}")?)
}

fn added(alloc: Global, gate: &Form, lits: &[Form]) -> Result<String, Failed> {
    let mut builder = Builder::new(alloc)?;
    let text = added_in(alloc, &mut builder, gate, lits);
    drop(builder);
    text
}

fn added_in(
    alloc: Global,
    builder: &mut Builder,
    gate: &Form,
    lits: &[Form],
) -> Result<String, Failed> {
    drop(fresh_word(builder, 2)?);
    add_named(builder, gate, lits)?;
    Ok(size(alloc, &builder.clauses)?)
}

fn add_named(builder: &mut Builder, gate: &Form, lits: &[Form]) -> Result<Lit, Failed> {
    let vars = builder.clauses.vars;
    match lits {
        [x, y] => add_gate(builder, gate, lit_below(vars, x)?, lit_below(vars, y)?),
        [s, x, y] if is_word(gate, b"mux") => {
            let (s, x) = (lit_below(vars, s)?, lit_below(vars, x)?);
            Ok(mux(builder, s, x, lit_below(vars, y)?)?)
        }
        _ => Err(Failed::NoCall),
    }
}

// A literal of a variable below a number.
fn lit_below(vars: usize, form: &Form) -> Result<Lit, Failed>
    ensures { IfOk result (λ l. l.var < vars) }
{
    match lit(form)? {
        lit if lit.var < vars => Ok(lit),
        _ => Err(Failed::NoCall),
    }
}

fn add_gate(builder: &mut Builder, gate: &Form, x: Lit, y: Lit) -> Result<Lit, Failed>
    requires x { HasLit builder.old x }
    requires y { HasLit builder.old y }
{
    if is_word(gate, b"and") {
        return Ok(and(builder, x, y)?);
    }
    if is_word(gate, b"or") {
        return Ok(or(builder, x, y)?);
    }
    if is_word(gate, b"xor") {
        return Ok(xor(builder, x, y)?);
    }
    Err(Failed::NoCall)
}
