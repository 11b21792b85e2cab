// The checks of an item, in the order of the faults.
ghost use Rattle.std.specs.Prelude.{◌≡◌, IfOk, IfErr};
ghost use Rattle.rule_text.specs.Faults.{IsItemError};
ghost use Rattle.semantics_load.specs.Pieces.{names_in};
ghost use Rattle.semantics_load.specs.Checks.{IsInForm, SaysSorted, SaysLawfully};
ghost use Rattle.semantics_load.specs.Loads.{semantics_loading};

use crate::binding::is_piece_bound;
use crate::draft::SemanticsDraft;
use crate::limits::is_within_limits;
use crate::naming::names;
use crate::piece::Piece;
use crate::pieces::{is_semantics_item, piece};
use crate::sorting::is_piece_sorted;
use name_resolution::NameTable;
use rule_text::{Item, ItemError, ItemFault};
use std::alloc::Global;

/// What an item says that passes all checks. Else the answer is its first fault, or that there was no memory.
pub fn lawful_piece(alloc: Global, draft: &SemanticsDraft, item: &Item) -> Result<Piece, ItemError>
    ensures ok { IfOk result (SaysLawfully draft.now item.now) }
    ensures fault { IfErr result (IsItemError semantics_loading draft.now item.now) }
{
    let names = names_in_form(alloc, draft, item)?;
    let piece = sorted_piece(alloc, draft, &names, item)?;
    drop(names);
    if is_piece_bound(&piece) {
        Ok(piece)
    } else {
        drop(piece);
        Err(ItemError::Fault(ItemFault::Unbound))
    }
}

// The names of the variables of an item of a semantics that has its names and keeps the limits.
fn names_in_form(alloc: Global, draft: &SemanticsDraft, item: &Item) -> Result<NameTable, ItemError>
    ensures ok { IfOk result (λ names. IsInForm draft.now item.now × (names ≡ names_in item.now)) }
    ensures fault { IfErr result (IsItemError semantics_loading draft.now item.now) }
{
    if !is_semantics_item(item) {
        return Err(ItemError::Fault(ItemFault::Shape));
    }
    let Some(names) = names(alloc, draft, item)? else {
        return Err(ItemError::Fault(ItemFault::Name));
    };
    if is_within_limits(draft, item) {
        Ok(names)
    } else {
        drop(names);
        Err(ItemError::Fault(ItemFault::Limit))
    }
}

// What an item says that is well sorted.
fn sorted_piece(
    alloc: Global,
    draft: &SemanticsDraft,
    names: &NameTable,
    item: &Item,
) -> Result<Piece, ItemError>
    requires form { IsInForm draft.now item.now }
    requires names { names.now ≡ names_in item.now }
    ensures ok { IfOk result (SaysSorted draft.now item.now) }
    ensures fault { IfErr result (IsItemError semantics_loading draft.now item.now) }
{
    let Some(piece) = piece(alloc, draft, names, item)? else {
        return Err(ItemError::Fault(ItemFault::Sort));
    };
    if is_piece_sorted(draft, &piece) {
        Ok(piece)
    } else {
        drop(piece);
        Err(ItemError::Fault(ItemFault::Sort))
    }
}
