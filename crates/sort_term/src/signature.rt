//! Whether sorts, variables, constructors and tables pass their checks.
ghost use Rattle.std.specs.Prelude.{◌≡◌, ℕ, ◌≤◌, IsTrue, ◌↔◌, List, length, All};
ghost use Rattle.sort_term.specs.Names.{IsFree, AreDistinct};
ghost use Rattle.sort_term.specs.Signature.{has_con, is_usable, is_known, is_plain, is_scalar_own, AreVars, IsCon, IsTable, AreSorts, AreDeclared, AreCons, AreTables};

use crate::ids::SortId;
use crate::named::{are_distinct, are_free};
use crate::reserved::is_reserved;
use crate::rule::Var;
use crate::semantics::{Con, Table};
use crate::term::Sort;
use data_value::{DataSort, is_sort};
use sexp_text::Name;

/// Whether one of the constructors makes trees of a declared sort. It takes no memory.
pub fn has_con(cons: &[Con], sort: SortId) -> bool
    ensures { result ≡ has_con cons.now sort }
{
    cons.iter().any(|con| con.sort.0 == sort.0)
}

/// Whether a sort may be used where these constructors are declared: a declared sort that one of them makes, or a sort
/// of data with widths from 1 to 64. It takes no memory.
pub fn is_usable(cons: &[Con], sort: Sort) -> bool
    ensures { result ≡ is_usable cons.now sort }
{
    match sort {
        Sort::Own(own) => has_con(cons, own),
        Sort::Plain(data) => is_sort(data),
    }
}

/// Whether a sort is one of the declared sorts, or a sort of data with widths from 1 to 64. It takes no memory.
pub fn is_known(sorts: &[Name], sort: Sort) -> bool
    ensures { result ≡ is_known sorts.now sort }
{
    match sort {
        Sort::Own(own) => own.0 < sorts.len(),
        Sort::Plain(data) => is_sort(data),
    }
}

/// Whether a sort is a sort of data with widths from 1 to 64. It takes no memory.
pub fn is_plain(sort: Sort) -> bool
    ensures { result ≡ is_plain sort }
{
    match sort {
        Sort::Own(_) => false,
        Sort::Plain(data) => is_sort(data),
    }
}

/// Whether a sort is that of truth values or of bit vectors. It takes no memory.
pub fn is_scalar(sort: Sort) -> bool
    ensures { result ≡ is_scalar_own sort }
{
    match sort {
        Sort::Own(_) => false,
        Sort::Plain(DataSort::Map(..)) => false,
        Sort::Plain(_) => true,
    }
}

fn are_named(vars: &[Var]) -> bool
    ensures { IsTrue result ↔ ((length vars.now ≤ 64) × AreDistinct (λ x. x.name) vars.now × All (λ x. IsFree x.name) vars.now) }
{
    vars.len() <= 64 && are_distinct(vars) && are_free(vars)
}

/// Whether variables pass their checks in a rule. It takes no memory.
pub fn are_usable_vars(cons: &[Con], vars: &[Var]) -> bool
    ensures { IsTrue result ↔ AreVars (is_usable cons.now) vars.now }
{
    are_named(vars) && vars.iter().all(|x| is_usable(cons, x.sort))
}

/// Whether variables pass their checks in an item of a cut. It takes no memory.
pub fn are_known_vars(sorts: &[Name], vars: &[Var]) -> bool
    ensures { IsTrue result ↔ AreVars (is_known sorts.now) vars.now }
{
    are_named(vars) && vars.iter().all(|x| is_known(sorts, x.sort))
}

/// Whether variables pass their checks in a point. It takes no memory.
pub fn are_plain_vars(vars: &[Var]) -> bool
    ensures { IsTrue result ↔ AreVars is_plain vars.now }
{
    are_named(vars) && vars.iter().all(|x| is_plain(x.sort))
}

/// Whether a constructor passes its checks where these sorts and constructors are declared before it. It takes no
/// memory.
pub fn is_con(sorts: &[Name], before: &[Con], con: &Con) -> bool
    ensures { IsTrue result ↔ IsCon sorts.now before.now con.now }
{
    !is_reserved(con.name.as_slice())
        && con.sort.0 < sorts.len()
        && con.args.len() <= 16
        && con
            .args
            .as_slice()
            .iter()
            .all(|sort| is_usable(before, *sort))
}

/// Whether a table passes its checks where these constructors are declared. It takes no memory.
pub fn is_table(cons: &[Con], table: &Table) -> bool
    ensures { IsTrue result ↔ IsTable cons.now table.now }
{
    !is_reserved(table.name.as_slice())
        && is_sort(DataSort::Bits(table.key))
        && is_usable(cons, table.sort)
}

fn are_declared(sorts: &[Name], cons: &[Con]) -> bool
    ensures { IsTrue result ↔ AreDeclared sorts.now cons.now }
{
    for k in 0..cons.len() {
        if !is_con(sorts, &cons[..k], &cons[k]) {
            return false;
        }
    }
    true
}

/// Whether the declared sorts pass their checks. It takes no memory.
pub fn are_sorts(sorts: &[Name]) -> bool
    ensures { IsTrue result ↔ AreSorts sorts.now }
{
    sorts.len() <= 64 && are_distinct(sorts) && are_free(sorts)
}

/// Whether the constructors pass their checks where these sorts are declared. It takes no memory.
pub fn are_cons(sorts: &[Name], cons: &[Con]) -> bool
    ensures { IsTrue result ↔ AreCons sorts.now cons.now }
{
    cons.len() <= 256 && are_distinct(cons) && are_declared(sorts, cons)
}

/// Whether the tables pass their checks where these constructors are declared. It takes no memory.
pub fn are_tables(cons: &[Con], tables: &[Table]) -> bool
    ensures { IsTrue result ↔ AreTables cons.now tables.now }
{
    tables.len() <= 16 && are_distinct(tables) && tables.iter().all(|table| is_table(cons, table))
}
