// What is wrong with an item, and why a text is not loaded.
ghost use Rattle.std.specs.Prelude.{◌≡◌};
ghost use Rattle.rule_text.specs.declared.error.ItemError.TheVariants as item_error;
ghost use Rattle.rule_text.specs.declared.error.LoadError.TheVariants as load_error;
ghost use Rattle.rule_text.specs.Faults.{fault_in, error_in, error_of_text};

use no_memory::NoMemory;
use sexp_text::{ReadError, TextFault};
use std::alloc::{AllocError, AllocFailed};

/// What may be wrong with an item, where all items before it are lawful. Of several faults the first in this order counts.
#[derive(Clone, Copy, Debug, PartialEq, Eq)]
pub enum ItemFault {
    /// The form is none of the items of its text.
    Shape,
    /// A sort, constructor, table or variable is unknown, has a name of its kind that is taken or reserved, or stands where
    /// none may; a second `config` item; a rule before it.
    Name,
    /// A width is not from 1 to 64, a number doesn't fit its width, the keys of a map don't rise, there is one thing too
    /// many, or a term is written with more than 4,096 forms.
    Limit,
    /// A part isn't of the sort that its place asks for.
    Sort,
    /// A variable is bound nowhere, or read before it is bound.
    Unbound,
    /// An earlier row of the table has the key.
    DoubleKey,
    /// A related pair doesn't determine each variable of a point.
    Undetermined,
}

/// Why an item was refused.
#[derive(Clone, Copy, Debug, PartialEq, Eq)]
pub enum ItemError {
    /// The first fault of the item.
    Fault(ItemFault),
    /// There was no memory. Nothing is known of the item then.
    NoMemory,
}

/// The first fault of a text. Items are counted from 1.
#[derive(Clone, Copy, Debug, PartialEq, Eq)]
pub enum LoadFault {
    /// The text is not in the grammar.
    Text(TextFault),
    /// The item's form is none of the items of its text.
    Shape { item: usize },
    /// The item has a fault of names.
    Name { item: usize },
    /// The item passes a limit.
    Limit { item: usize },
    /// A part of the item is of a wrong sort.
    Sort { item: usize },
    /// A variable of the item is not bound.
    Unbound { item: usize },
    /// A semantics text without a `config` item.
    NoConfig,
    /// The row's table has an earlier row with the key.
    DoubleKey { item: usize },
    /// A related pair doesn't determine each variable of the point.
    Undetermined { item: usize },
    /// A points text without a `point` item.
    NoPoint,
}

/// Why a text was not loaded.
#[derive(Clone, Copy, Debug, PartialEq, Eq)]
pub enum LoadError {
    /// The first fault of the text.
    Fault(LoadFault),
    /// There was no memory. Nothing is known of the text then.
    NoMemory,
}

impl ItemFault {
    /// The fault of a text whose item with this number has this fault first.
    pub fn in_item(self, item: usize) -> LoadFault
        ensures { result ≡ fault_in self item }
    {
        match self {
            ItemFault::Shape => LoadFault::Shape { item },
            ItemFault::Name => LoadFault::Name { item },
            ItemFault::Limit => LoadFault::Limit { item },
            ItemFault::Sort => LoadFault::Sort { item },
            ItemFault::Unbound => LoadFault::Unbound { item },
            ItemFault::DoubleKey => LoadFault::DoubleKey { item },
            ItemFault::Undetermined => LoadFault::Undetermined { item },
        }
    }
}

impl ItemError {
    /// The error of a text whose item with this number was refused so.
    pub fn in_item(self, item: usize) -> LoadError
        ensures { result ≡ error_in self item }
    {
        match self {
            ItemError::Fault(fault) => LoadError::Fault(fault.in_item(item)),
            ItemError::NoMemory => LoadError::NoMemory,
        }
    }
}

impl From<AllocError> for ItemError {
    ghost from_gives = { λ _ e. e ≡ item_error.NoMemory };

    fn from(_refused: AllocError) -> ItemError {
        ItemError::NoMemory
    }
}

impl<T: Drop> From<AllocFailed<T>> for ItemError {
    ghost from_gives = { λ _ e. e ≡ item_error.NoMemory };

    fn from(_refused: AllocFailed<T>) -> ItemError {
        ItemError::NoMemory
    }
}

impl From<NoMemory> for ItemError {
    ghost from_gives = { λ _ e. e ≡ item_error.NoMemory };

    fn from(_refused: NoMemory) -> ItemError {
        ItemError::NoMemory
    }
}

impl From<AllocError> for LoadError {
    ghost from_gives = { λ _ e. e ≡ load_error.NoMemory };

    fn from(_refused: AllocError) -> LoadError {
        LoadError::NoMemory
    }
}

impl<T: Drop> From<AllocFailed<T>> for LoadError {
    ghost from_gives = { λ _ e. e ≡ load_error.NoMemory };

    fn from(_refused: AllocFailed<T>) -> LoadError {
        LoadError::NoMemory
    }
}

impl From<NoMemory> for LoadError {
    ghost from_gives = { λ _ e. e ≡ load_error.NoMemory };

    fn from(_refused: NoMemory) -> LoadError {
        LoadError::NoMemory
    }
}

impl From<ReadError> for LoadError {
    ghost from_gives = { λ error e. e ≡ error_of_text error };

    fn from(error: ReadError) -> LoadError {
        match error {
            ReadError::Text(fault) => LoadError::Fault(LoadFault::Text(fault)),
            ReadError::NoMemory => LoadError::NoMemory,
        }
    }
}
