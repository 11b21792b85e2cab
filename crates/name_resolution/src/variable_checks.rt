// What is asked of the sorts and the number of variables.
ghost use Rattle.std.specs.Prelude.{◌↔◌, IsTrue, All};
ghost use Rattle.name_resolution.specs.Known.{vocabulary_of};
ghost use Rattle.name_resolution.specs.Named.{is_named_sort};
ghost use Rattle.name_resolution.specs.Variables.{AreVarsWithin};

use crate::known::Known;
use crate::named::is_named_sort;
use crate::within::is_within_sort;
use rule_text::RawVar;

/// Whether the variables have sorts of data or declared ones. It takes no memory.
pub fn are_sorts_named(known: &Known<'_>, raws: &[RawVar]) -> bool
    ensures { IsTrue result ↔ All (λ x. IsTrue (is_named_sort (vocabulary_of known.now) x.sort)) raws.now }
{
    raws.iter().all(|raw| is_named_sort(known, &raw.sort))
}

/// Whether there are at most 64 variables, of sorts with widths from 1 to 64. It takes no memory.
pub fn are_vars_within(raws: &[RawVar]) -> bool
    ensures { IsTrue result ↔ AreVarsWithin raws.now }
{
    raws.len() <= 64 && raws.iter().all(|raw| is_within_sort(&raw.sort))
}
