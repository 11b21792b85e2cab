// Whether the patterns of a rule bind its variables.
ghost use Rattle.std.specs.Prelude.{◌↔◌, IsTrue};
ghost use Rattle.semantics_load.specs.Sorts.{IsPieceBound};

use crate::piece::Piece;
use sort_term::{Rule, all_stand_in, are_bound_in_time};

/// Whether what an item says binds its variables, each before it is read. It takes no memory.
pub fn is_piece_bound(piece: &Piece) -> bool
    ensures { IsTrue result ↔ IsPieceBound piece.now }
{
    match piece {
        Piece::Rule(rule) => is_rule_bound(rule),
        Piece::Sort(_) | Piece::Con(_) | Piece::Table(_) | Piece::Config(_) => true,
    }
}

// Whether the patterns of a rule bind its variables, each before it is read.
fn is_rule_bound(rule: &Rule) -> bool
    ensures { IsTrue result ↔ IsPieceBound (Piece.Rule rule.now) }
{
    let vars = rule.vars.as_slice();
    let demands = rule.demands.as_slice();
    all_stand_in(vars, &rule.head, demands) && are_bound_in_time(vars, &rule.head, demands)
}
