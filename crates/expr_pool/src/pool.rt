//! The pool.
ghost use Rattle.std.specs.Prelude.{◌≡◌, ◌<◌, ◌↔◌, ℕ, [], length, true, map, All, IsTrue, IsSome, IfOk, OnErr, MatchOption, Some};
ghost use Rattle.std.specs.List.{list_all};
ghost use Rattle.data_value.specs.Nodes.{Extends, AllValid, AllKnown, sorts_of};
ghost use Rattle.data_value.specs.Sorts.{is_sort};
ghost use Rattle.expr_pool.specs.Keys.{pool_look, key_fits, IsFormed, IsInterned};
ghost use Rattle.expr_pool.specs.Made.{IsMade};

use crate::Key;
use crate::key::{known_of_key, sort_of_key};
use data_value::{DataSort, NoMemory, Op, Scalar, Value, sort_of};
use indexmap::IndexSet;
use std::alloc::Global;

/// A symbolic domain whose nodes are numbers. Each is kept once: nodes that show the same have one number.
#[derive(Drop)]
pub struct Pool {
    pub(crate) alloc: Global,
    pub(crate) variables: Vec<DataSort>,
    pub(crate) nodes: IndexSet<Key>,
    ghost sorts_fit: { list_all is_sort variables.items ≡ true },
    ghost formed: { IsFormed variables.items nodes.keys },
    ghost interned: { IsInterned nodes.keys },
}

impl Pool {
    /// A pool without variables and nodes, which takes its memory from `alloc`.
    pub fn new(alloc: Global) -> Result<Pool, NoMemory>
        ensures no_variables { IfOk result (λ pool. pool.variables.items ≡ []) }
        ensures no_nodes { IfOk result (λ pool. pool.nodes.keys ≡ []) }
    {
        Ok(Pool {
            alloc,
            variables: Vec::new(alloc),
            nodes: IndexSet::new(alloc),
        })
    }

    /// The number of nodes: the nodes are the numbers below it.
    pub fn len(&self) -> usize
        ensures { (n : ℕ) → IsTrue (pool_look self.now.nodes.keys n).valid ↔ (n < result) }
    {
        self.nodes.len()
    }

    /// The number of the node with this key, which is an earlier one where there is such a node.
    pub(crate) fn intern(&mut self, key: Key) -> Result<usize, NoMemory>
        requires { key_fits self.old.variables.items self.old.nodes.keys (length self.old.nodes.keys) key ≡ true }
        ensures extends { Extends (pool_look self.old.nodes.keys) (pool_look self.new.nodes.keys) }
        ensures same_variables { self.new.variables.items ≡ self.old.variables.items }
        ensures made { IfOk result (λ n. IsMade self.new.variables.items self.new.nodes.keys key n) }
        ensures unchanged { OnErr result (self.new.nodes.keys ≡ self.old.nodes.keys) }
    {
        let (number, _) = self.nodes.insert_full(key)?;
        Ok(number)
    }
}
