// How many forms a tree was written with.
ghost use Rattle.std.specs.Prelude.{◌≡◌, ◌≤◌, ◌↔◌, IsTrue, map, min, sum};
ghost use Rattle.name_resolution.specs.Sizes.{forms_of};

use rule_text::RawTree;

/// A written pattern, expression or ground term has at most this many forms.
const MOST_FORMS: usize = 4096;

/// Whether a tree was written with at most 4,096 forms: each word, number and list counts.
pub fn is_short(raw: &RawTree) -> bool
    ensures { IsTrue result ↔ (forms_of raw.now ≤ 4096) }
{
    forms_of(raw) <= MOST_FORMS
}

// The forms of a tree, as far as they can be counted.
#[cycle(forms)]
fn forms_of(raw: &RawTree) -> usize
    ensures { result ≡ min (forms_of raw.now) 18446744073709551615 }
{
    match raw {
        RawTree::Word(_) | RawTree::Number(_) | RawTree::Flag(_) => 1,
        RawTree::Bits(..) => 4,
        RawTree::Map { entries, .. } => entries.len().saturating_mul(3).saturating_add(4),
        RawTree::Con(_, args) => forms_of_all(args.as_slice()).saturating_add(2),
        RawTree::Op { numbers, args, .. } => forms_of_all(args.as_slice())
            .saturating_add(numbers.len())
            .saturating_add(2),
    }
}

// The forms of some trees together, as far as they can be counted.
#[cycle(forms)]
fn forms_of_all(raws: &[RawTree]) -> usize
    ensures { result ≡ min (sum (map forms_of raws.now)) 18446744073709551615 }
{
    let mut count = 0usize;
    for raw in raws {
        count = count.saturating_add(forms_of(raw));
    }
    count
}
