// Whether only what is known is named.
ghost use Rattle.std.specs.Prelude.{◌≡◌, map};
ghost use Rattle.std.specs.List.{list_all};
ghost use Rattle.name_resolution.specs.Known.{vocabulary_of};
ghost use Rattle.name_resolution.specs.Named.{is_named_tree, is_named_sort};

use crate::known::Known;
use crate::names::NameTable;
use rule_text::{RawSort, RawTree};

/// Whether a tree names only these variables and constructors that are known. It takes no memory.
#[cycle(named)]
pub fn is_named_tree(known: &Known<'_>, variables: &NameTable, raw: &RawTree) -> bool
    ensures { result ≡ is_named_tree (vocabulary_of known.now) variables.now raw.now }
{
    match raw {
        RawTree::Word(name) => variables.place(name).is_some(),
        RawTree::Con(name, args) => {
            known.con(name).is_some() && are_named(known, variables, args.as_slice())
        }
        RawTree::Op { args, .. } => are_named(known, variables, args.as_slice()),
        RawTree::Number(_) | RawTree::Flag(_) | RawTree::Bits(..) | RawTree::Map { .. } => true,
    }
}

// Whether each of some trees does.
#[cycle(named)]
fn are_named(known: &Known<'_>, variables: &NameTable, raws: &[RawTree]) -> bool
    ensures { result ≡ list_all (λ arg. arg) (map (is_named_tree (vocabulary_of known.now) variables.now) raws.now) }
{
    for raw in raws {
        if !is_named_tree(known, variables, raw) {
            return false;
        }
    }
    true
}

/// Whether a sort is one of data or a declared one. It takes no memory.
pub fn is_named_sort(known: &Known<'_>, raw: &RawSort) -> bool
    ensures { result ≡ is_named_sort (vocabulary_of known.now) raw.now }
{
    match raw {
        RawSort::Named(name) => known.declared(name).is_some(),
        RawSort::Bool | RawSort::Bits(_) | RawSort::Map(..) => true,
    }
}
