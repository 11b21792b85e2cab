// A semantics lists its sorts, constructors, tables and rules in the order of its text. Whoever names one gives its place.
use sqlite_items::Items;

/// The place of a sort in its semantics, counted from 0.
#[derive(Clone, Copy, Debug, Drop, PartialEq, Eq)]
pub struct SortId(pub usize);

/// The place of a constructor in its semantics, counted from 0.
#[derive(Clone, Copy, Debug, Drop, PartialEq, Eq)]
pub struct ConId(pub usize);

/// The place of a table in its semantics, counted from 0.
#[derive(Clone, Copy, Debug, Drop, PartialEq, Eq)]
pub struct TableId(pub usize);

/// The place of a rule in its semantics, counted from 0.
#[derive(Clone, Copy, Debug, Drop, PartialEq, Eq)]
pub struct RuleId(pub usize);

/// The rules of the steps of a run, in the order of the steps.
pub type RuleIds = Items<RuleId>;
