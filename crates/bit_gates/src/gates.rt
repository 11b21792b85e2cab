//! Gates: literals with the truth value of others. `and`, `or` and `xor` add nothing where an input is a constant or both are of
//! one variable, and `mux` adds nothing where its choice is a constant or its inputs are the same. Where one input of `mux` is
//! a constant, or of the choice's variable, it is an `and` or an `or`.
ghost use Rattle.std.specs.Prelude.{◌≡◌, ◌&&◌, ◌||◌, if◌then◌else◌, IfOk, OnOk};
ghost use Rattle.refute_check.specs.Truth.{lit_true};
ghost use Rattle.bit_gates.specs.Bits.{exclusive_or, toggled};
ghost use Rattle.bit_gates.specs.Grows.{Grows};
ghost use Rattle.bit_gates.specs.Meaning.{HasLit, IsBit};

use crate::builder::{Builder, constant};
use no_memory::NoMemory;
use refute_check::Lit;

/// A literal that is true where both are. The only error is want of memory.
pub fn and(b: &mut Builder, x: Lit, y: Lit) -> Result<Lit, NoMemory>
    requires x { HasLit b.old x }
    requires y { HasLit b.old y }
    ensures extends { OnOk result (Grows b.old b.new) }
    ensures made { IfOk result (λ z. IsBit b.new z (λ a. lit_true a x && lit_true a y)) }
{
    if x.is_same(constant(true)) || x.is_same(y) {
        return Ok(y);
    }
    if y.is_same(constant(true)) {
        return Ok(x);
    }
    if x.is_same(constant(false)) || y.is_same(constant(false)) || x.is_same(y.flip()) {
        return Ok(constant(false));
    }
    and_gate(b, x, y)
}

/// A literal that is true where one of the two is. The only error is want of memory.
pub fn or(b: &mut Builder, x: Lit, y: Lit) -> Result<Lit, NoMemory>
    requires x { HasLit b.old x }
    requires y { HasLit b.old y }
    ensures extends { OnOk result (Grows b.old b.new) }
    ensures made { IfOk result (λ z. IsBit b.new z (λ a. lit_true a x || lit_true a y)) }
{
    let neither = and(b, x.flip(), y.flip())?;
    Ok(neither.flip())
}

/// A literal that is true where the two differ. The only error is want of memory.
pub fn xor(b: &mut Builder, x: Lit, y: Lit) -> Result<Lit, NoMemory>
    requires x { HasLit b.old x }
    requires y { HasLit b.old y }
    ensures extends { OnOk result (Grows b.old b.new) }
    ensures made { IfOk result (λ z. IsBit b.new z (λ a. exclusive_or (lit_true a x) (lit_true a y))) }
{
    if x.is_same(y) {
        return Ok(constant(false));
    }
    if x.is_same(y.flip()) {
        return Ok(constant(true));
    }
    if x.var == 0 {
        return Ok(flip_if(x.positive, y));
    }
    if y.var == 0 {
        return Ok(flip_if(y.positive, x));
    }
    xor_gate(b, x, y)
}

/// A literal with the truth value of x where s is true, and else with that of y. The only error is want of memory.
pub fn mux(b: &mut Builder, s: Lit, x: Lit, y: Lit) -> Result<Lit, NoMemory>
    requires s { HasLit b.old s }
    requires x { HasLit b.old x }
    requires y { HasLit b.old y }
    ensures extends { OnOk result (Grows b.old b.new) }
    ensures made { IfOk result (λ z. IsBit b.new z (λ a. if lit_true a s then lit_true a x else lit_true a y)) }
{
    if s.is_same(constant(true)) || x.is_same(y) {
        return Ok(x);
    }
    if s.is_same(constant(false)) {
        return Ok(y);
    }
    let not_s = s.flip();
    if x.is_same(constant(true)) || x.is_same(s) {
        return or(b, s, y);
    }
    if x.is_same(constant(false)) || x.is_same(not_s) {
        return and(b, not_s, y);
    }
    if y.is_same(constant(true)) || y.is_same(not_s) {
        return or(b, not_s, x);
    }
    if y.is_same(constant(false)) || y.is_same(s) {
        return and(b, s, x);
    }
    mux_gate(b, s, x, y)
}

/// The literal, or its opposite.
fn flip_if(opposite: bool, x: Lit) -> Lit
    ensures { result ≡ toggled opposite x }
{
    if opposite { x.flip() } else { x }
}

/// A new variable that is true where both literals are.
fn and_gate(b: &mut Builder, x: Lit, y: Lit) -> Result<Lit, NoMemory>
    requires x { HasLit b.old x }
    requires y { HasLit b.old y }
    ensures extends { OnOk result (Grows b.old b.new) }
    ensures made { IfOk result (λ z. IsBit b.new z (λ a. lit_true a x && lit_true a y)) }
{
    let z = b.fresh()?;
    let not_x = x.flip();
    let not_y = y.flip();
    let not_z = z.flip();
    b.demand_two(not_z, x)?;
    b.demand_two(not_z, y)?;
    b.demand_three(z, not_x, not_y)?;
    Ok(z)
}

/// A new variable that is true where the two literals differ.
fn xor_gate(b: &mut Builder, x: Lit, y: Lit) -> Result<Lit, NoMemory>
    requires x { HasLit b.old x }
    requires y { HasLit b.old y }
    ensures extends { OnOk result (Grows b.old b.new) }
    ensures made { IfOk result (λ z. IsBit b.new z (λ a. exclusive_or (lit_true a x) (lit_true a y))) }
{
    let z = b.fresh()?;
    let not_x = x.flip();
    let not_y = y.flip();
    let not_z = z.flip();
    b.demand_three(not_z, x, y)?;
    b.demand_three(not_z, not_x, not_y)?;
    b.demand_three(z, not_x, y)?;
    b.demand_three(z, x, not_y)?;
    Ok(z)
}

/// A new variable with the truth value of x where s is true, and else with that of y.
fn mux_gate(b: &mut Builder, s: Lit, x: Lit, y: Lit) -> Result<Lit, NoMemory>
    requires s { HasLit b.old s }
    requires x { HasLit b.old x }
    requires y { HasLit b.old y }
    ensures extends { OnOk result (Grows b.old b.new) }
    ensures made { IfOk result (λ z. IsBit b.new z (λ a. if lit_true a s then lit_true a x else lit_true a y)) }
{
    let z = b.fresh()?;
    let not_s = s.flip();
    let not_x = x.flip();
    let not_y = y.flip();
    let not_z = z.flip();
    b.demand_three(not_z, not_s, x)?;
    b.demand_three(z, not_s, not_x)?;
    b.demand_three(not_z, s, y)?;
    b.demand_three(z, s, not_y)?;
    Ok(z)
}
