// Whether an item keeps the limits.
ghost use Rattle.std.specs.Prelude.{◌↔◌, IsTrue};
ghost use Rattle.name_resolution.specs.Known.{vocabulary_of, vocabulary_in};
ghost use Rattle.name_resolution.specs.Within.{IsWithinTree};
ghost use Rattle.sync_points.specs.Limits.{AreWhensWithin, IsCutWithin, IsPointWithin, IsWithinLimits};

use crate::draft::PointsDraft;
use name_resolution::{Known, are_vars_within, is_within_tree};
use rule_text::{Item, RawTree, RawVar};

/// Whether an item is not one thing too many, and its widths, numbers and terms keep their limits.
pub fn is_within_limits(draft: &PointsDraft<'_>, item: &Item) -> bool
    ensures { IsTrue result ↔ IsWithinLimits draft.now item.now }
{
    match item {
        Item::Cut {
            left,
            vars,
            pattern,
            whens,
            ..
        } => {
            let (vars, whens) = (vars.as_slice(), whens.as_slice());
            if *left {
                draft.points().left_cuts.len() < 64
                    && is_cut_within(&draft.left_known(), vars, pattern, whens)
            } else {
                draft.points().right_cuts.len() < 64
                    && is_cut_within(&draft.right_known(), vars, pattern, whens)
            }
        }
        Item::Point {
            vars,
            left,
            right,
            whens,
            ..
        } => {
            draft.points().points.len() < 64
                && is_point_within(draft, vars.as_slice(), left, right, whens.as_slice())
        }
        _ => true,
    }
}

// Whether there are at most 16 conditions, which keep the limits.
fn are_whens_within(known: &Known<'_>, whens: &[RawTree]) -> bool
    ensures { IsTrue result ↔ AreWhensWithin (vocabulary_of known.now) whens.now }
{
    whens.len() <= 16 && whens.iter().all(|raw| is_within_tree(known, raw))
}

// Whether the parts of an item of a cut keep the limits.
fn is_cut_within(known: &Known<'_>, vars: &[RawVar], pattern: &RawTree, whens: &[RawTree]) -> bool
    ensures { IsTrue result ↔ IsCutWithin (vocabulary_of known.now) vars.now pattern.now whens.now }
{
    are_vars_within(vars) && is_within_tree(known, pattern) && are_whens_within(known, whens)
}

// Whether the parts of a point keep the limits.
fn is_point_within(
    draft: &PointsDraft<'_>,
    vars: &[RawVar],
    left: &RawTree,
    right: &RawTree,
    whens: &[RawTree],
) -> bool
    ensures { IsTrue result ↔ IsPointWithin (vocabulary_in draft.now.left) (vocabulary_in draft.now.right) vars.now left.now right.now whens.now }
{
    are_vars_within(vars)
        && are_terms_within(draft, left, right)
        && are_whens_within(&draft.none_known(), whens)
}

// Whether the two terms of a point do.
fn are_terms_within(draft: &PointsDraft<'_>, left: &RawTree, right: &RawTree) -> bool
    ensures { IsTrue result ↔ (IsWithinTree (vocabulary_in draft.now.left) left.now × IsWithinTree (vocabulary_in draft.now.right) right.now) }
{
    is_within_tree(&draft.left_known(), left) && is_within_tree(&draft.right_known(), right)
}
