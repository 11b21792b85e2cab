// Whether what an item says is well sorted.
ghost use Rattle.std.specs.Prelude.{◌≡◌, ◌↔◌, IsTrue, All, Some};
ghost use Rattle.sort_term.specs.declared.ids.SortId.{SortId};
ghost use Rattle.sort_term.specs.Signature.{is_usable};
ghost use Rattle.sort_term.specs.Rules.{IsSorted};
ghost use Rattle.semantics_load.specs.Sorts.{IsRuleSorted, IsPieceSorted};

use crate::draft::SemanticsDraft;
use crate::piece::Piece;
use sort_term::{Con, Rule, Sort, has_con, is_sorted, is_usable, repeats_only_scalars};

/// Whether what an item says uses declared sorts that have a constructor by now, and its terms fit. It takes no memory.
pub fn is_piece_sorted(draft: &SemanticsDraft, piece: &Piece) -> bool
    ensures { IsTrue result ↔ IsPieceSorted draft.now piece.now }
{
    let cons = draft.known().cons;
    match piece {
        Piece::Sort(_) => true,
        Piece::Con(con) => are_usable(cons, con.args.as_slice()),
        Piece::Table(table) => is_usable(cons, table.sort),
        Piece::Config(sort) => has_con(cons, *sort),
        Piece::Rule(rule) => is_rule_sorted(draft, rule),
    }
}

// Whether each of some sorts may be used.
fn are_usable(cons: &[Con], sorts: &[Sort]) -> bool
    ensures { IsTrue result ↔ All (λ a. IsTrue (is_usable cons.now a)) sorts.now }
{
    sorts.iter().all(|sort| is_usable(cons, *sort))
}

// Whether a rule is well sorted.
fn is_rule_sorted(draft: &SemanticsDraft, rule: &Rule) -> bool
    ensures { IsTrue result ↔ IsRuleSorted draft.now rule.now }
{
    let cons = draft.known().cons;
    let vars = rule.vars.as_slice();
    vars.iter().all(|var| is_usable(cons, var.sort))
        && fits_states(draft, rule)
        && repeats_only_scalars(vars, &rule.head, rule.demands.as_slice())
}

// Whether the terms of a rule fit, where the sort of the states is told.
fn fits_states(draft: &SemanticsDraft, rule: &Rule) -> bool
    ensures { IsTrue result ↔
        ((config : SortId) → draft.now.config ≡ Some config → IsSorted draft.now.cons draft.now.tables config rule.now) }
{
    let known = draft.known();
    match draft.config() {
        Some(config) => is_sorted(known.cons, known.tables, config, rule),
        None => true,
    }
}
