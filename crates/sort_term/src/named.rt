//! Names that are declared once, and are no reserved words.
ghost use Rattle.std.specs.Prelude.{◌≡◌, IsTrue, ◌↔◌, All, Any};
ghost use Rattle.sort_term.specs.Names.{IsFree, AreDistinct};

use crate::points::{Cut, Point};
use crate::reserved::is_reserved;
use crate::rule::{Rule, Var};
use crate::semantics::{Con, Table};
use crate::term::Side;
use sexp_text::Name;

/// What has a name.
pub trait Named {
    ghost use Rattle.std.specs.Prelude.{ℕ, List};

    ghost name_of: { Self → List ℕ };

    fn name(&self) -> &[u8]
        ensures { result.now ≡ name_of self.now };
}

impl Named for Name {
    ghost name_of = { λ name. name };

    fn name(&self) -> &[u8] {
        self.as_slice()
    }
}

impl Named for Con {
    ghost name_of = { λ con. con.name };

    fn name(&self) -> &[u8] {
        self.name.as_slice()
    }
}

impl Named for Table {
    ghost name_of = { λ table. table.name };

    fn name(&self) -> &[u8] {
        self.name.as_slice()
    }
}

impl Named for Rule {
    ghost name_of = { λ rule. rule.name };

    fn name(&self) -> &[u8] {
        self.name.as_slice()
    }
}

impl Named for Var {
    ghost name_of = { λ variable. variable.name };

    fn name(&self) -> &[u8] {
        self.name.as_slice()
    }
}

impl<S: Side> Named for Cut<S> {
    ghost name_of = { λ item. item.name };

    fn name(&self) -> &[u8] {
        self.name.as_slice()
    }
}

impl Named for Point {
    ghost name_of = { λ point. point.name };

    fn name(&self) -> &[u8] {
        self.name.as_slice()
    }
}

/// Whether one of the items has a name. It takes no memory.
pub fn has_name<T: Named>(items: &[T], name: &[u8]) -> bool
    ensures { IsTrue result ↔ Any (λ x. T.name_of x ≡ name.now) items.now }
{
    items.iter().any(|item| item.name() == name)
}

/// Whether no two of the items have one name. It takes no memory.
pub fn are_distinct<T: Named>(items: &[T]) -> bool
    ensures { IsTrue result ↔ AreDistinct T.name_of items.now }
{
    for i in 0..items.len() {
        if has_name(&items[..i], items[i].name()) {
            return false;
        }
    }
    true
}

/// Whether no item has a reserved word as its name. It takes no memory.
pub fn are_free<T: Named>(items: &[T]) -> bool
    ensures { IsTrue result ↔ All (λ x. IsFree (T.name_of x)) items.now }
{
    items.iter().all(|item| !is_reserved(item.name()))
}
