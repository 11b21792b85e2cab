ghost use Rattle.std.specs.Prelude.{◌≡◌};

use crate::ids::{ConId, SortId};
use data_value::{DataSort, Value};
use sqlite_items::Items;
use std::marker::PhantomData;

/// One of the two sides of a problem. What belongs to one side can't be passed for the other.
pub trait Side: Drop {}

/// The left side.
#[derive(Drop)]
pub enum Left {}

/// The right side.
#[derive(Drop)]
pub enum Right {}

impl Side for Left {}

impl Side for Right {}

/// What a term is made of: constructors of a declared sort, or data.
#[derive(Clone, Copy, Debug, Drop, PartialEq, Eq)]
pub enum Sort {
    /// A sort that the semantics declares.
    Own(SortId),
    /// A sort of data: truth values, bit vectors or maps.
    Plain(DataSort),
}

/// Sorts, as those of a constructor's arguments.
pub type Sorts = Items<Sort>;

/// A tree of constructors whose leaves are nodes `N`: values for a state, nodes of a domain for a symbolic state.
#[derive(Drop)]
pub enum Term<N> {
    /// A constructor with its arguments.
    Con(ConId, Terms<N>),
    /// A leaf.
    Plain(N),
}

/// Terms, as the arguments of a constructor.
pub type Terms<N> = Items<Term<N>>;

/// A term of the configuration sort of the semantics of side `S`.
#[derive(Drop)]
pub struct Config<S: Side, N> {
    /// The term.
    pub term: Term<N>,
    /// The side, which takes no room.
    pub side: PhantomData<S>,
}

impl<S: Side, N> Config<S, N> {
    /// The term as a configuration. That it is of the configuration sort is for the caller to know.
    pub fn new(term: Term<N>) -> Config<S, N>
        ensures { result.term ≡ term }
    {
        Config {
            term,
            side: PhantomData,
        }
    }

    /// The term of a configuration.
    pub fn term(&self) -> &Term<N>
        ensures { result.now ≡ self.now.term }
    {
        &self.term
    }
}

/// A state of side `S`: a tree of constructors and values.
pub type State<S> = Config<S, Value>;
