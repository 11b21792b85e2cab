//! A pool as a domain.
ghost use Rattle.std.specs.Prelude.{◌≡◌, true, length, IsSome, IfOk, OnErr, MatchOption};
ghost use Rattle.data_value.specs.Sorts.{op_sort};
ghost use Rattle.data_value.specs.Values.{IsValue};
ghost use Rattle.data_value.specs.Nodes.{Constant, Apply, Extends, AllValid, AllKnown, IsConstant, IsApplied, sorts_of};
ghost use Rattle.expr_pool.specs.Keys.{pool_look, key_fits, key_shown};
ghost use Rattle.expr_pool.specs.Shows.{pool_laws};
ghost use Rattle.data_value.specs.Known.{AreKnown, IsFolded};

use crate::key::{known_of_key, sort_of_key};
use crate::{Key, Pool};
use data_value::{
    DataSort, Domain, NoMemory, Op, Scalar, Value, apply_scalar, copy_value, sort_of,
};
use smallvec::SmallVec;
use std::alloc::Global;

/// The sorts of nodes.
fn sorts_at(alloc: Global, keys: &[Key], nodes: &[usize]) -> Result<Vec<DataSort>, NoMemory>
    requires { AllValid (pool_look keys.now) nodes.now }
    ensures { IfOk result (λ sorts. sorts.items ≡ sorts_of (pool_look keys.now) nodes.now) }
{
    let mut sorts = Vec::new(alloc);
    for node in nodes {
        sorts.push(sort_of_key(&keys[*node]))?;
    }
    Ok(sorts)
}

/// The scalars that nodes are known as, where all of them are.
fn known_at(alloc: Global, keys: &[Key], nodes: &[usize]) -> Result<Option<Vec<Scalar>>, NoMemory>
    requires { AllValid (pool_look keys.now) nodes.now }
    ensures { IfOk result (λ known. MatchOption known (AllKnown (pool_look keys.now) nodes.now → ⊥) (λ scalars. AreKnown (pool_look keys.now) nodes.now scalars.items)) }
{
    let mut scalars = Vec::new(alloc);
    for node in nodes {
        match known_of_key(&keys[*node]) {
            Some(scalar) => scalars.push(scalar)?,
            None => return Ok(None),
        }
    }
    Ok(Some(scalars))
}

impl Pool {
    /// The scalar that an operator gives nodes, where all of them are known.
    fn folded(&self, op: Op, args: &[usize]) -> Result<Option<Scalar>, NoMemory>
        requires valid { AllValid (pool_look self.now.nodes.keys) args.now }
        requires sorted { IsSome (op_sort op (sorts_of (pool_look self.now.nodes.keys) args.now)) }
        ensures { IfOk result (λ folded. MatchOption folded (AllKnown (pool_look self.now.nodes.keys) args.now → ⊥) (λ c. IsFolded (pool_look self.now.nodes.keys) op args.now c)) }
    {
        match known_at(self.alloc, self.nodes.as_slice(), args)? {
            Some(scalars) => Ok(Some(apply_scalar(op, scalars.as_slice()))),
            None => Ok(None),
        }
    }

    /// The key of an operator at nodes.
    fn applied(&self, op: Op, args: &[usize]) -> Result<Key, NoMemory>
        requires valid { AllValid (pool_look self.now.nodes.keys) args.now }
        requires sorted { IsSome (op_sort op (sorts_of (pool_look self.now.nodes.keys) args.now)) }
        ensures fits { IfOk result (λ k. key_fits self.now.variables.items self.now.nodes.keys (length self.now.nodes.keys) k ≡ true) }
        ensures shown { IfOk result (λ k. key_shown k ≡ Apply op args.now) }
    {
        let sorts = sorts_at(self.alloc, self.nodes.as_slice(), args)?;
        match sort_of(op, sorts.as_slice()) {
            Some(sort) => Ok(Key::Apply(op, sort, SmallVec::from_slice(self.alloc, args)?)),
            None => unreachable!(),
        }
    }
}

impl Domain for Pool {
    type Node = usize;

    ghost look = { λ p. pool_look p.nodes.keys };

    ghost variables = { λ p. p.variables.items };

    ghost laws = { λ p. pool_laws p.variables.items p.nodes.keys p.sorts_fit p.formed };

    fn constant(&mut self, value: &Value) -> Result<usize, NoMemory>
        requires { IsValue value.now }
        ensures extends { Extends (pool_look self.old.nodes.keys) (pool_look self.new.nodes.keys) }
        ensures same_variables { self.new.variables.items ≡ self.old.variables.items }
        ensures made { IfOk result (λ n. IsConstant (pool_look self.new.nodes.keys) value.now n) }
        ensures shown { IfOk result (λ n. (pool_look self.new.nodes.keys n).shown ≡ Constant value.now) }

        // Where there was no memory every number is the node that it was, or none as before.
        ensures unchanged { OnErr result (pool_look self.new.nodes.keys ≡ pool_look self.old.nodes.keys) }
    {
        let value = copy_value(self.alloc, value)?;
        Ok(self.intern(Key::Constant(value))?)
    }

    fn apply(&mut self, op: Op, args: &[usize]) -> Result<usize, NoMemory>
        requires valid { AllValid (pool_look self.old.nodes.keys) args.now }
        requires sorted { IsSome (op_sort op (sorts_of (pool_look self.old.nodes.keys) args.now)) }
        ensures extends { Extends (pool_look self.old.nodes.keys) (pool_look self.new.nodes.keys) }
        ensures same_variables { self.new.variables.items ≡ self.old.variables.items }
        ensures made { IfOk result (λ n. IsApplied (pool_look self.old.nodes.keys) (pool_look self.new.nodes.keys) op args.now n) }

        // Where all arguments are known the node is known too, by `made`.
        ensures shown { IfOk result (λ n. (AllKnown (pool_look self.old.nodes.keys) args.now → ⊥) → (pool_look self.new.nodes.keys n).shown ≡ Apply op args.now) }

        // Where there was no memory every number is the node that it was, or none as before.
        ensures unchanged { OnErr result (pool_look self.new.nodes.keys ≡ pool_look self.old.nodes.keys) }
    {
        match self.folded(op, args)? {
            Some(scalar) => Ok(self.intern(Key::Constant(Value::One(scalar)))?),
            None => {
                let key = self.applied(op, args)?;
                Ok(self.intern(key)?)
            }
        }
    }

    fn copy(&self, node: &usize) -> Result<usize, NoMemory> {
        Ok(*node)
    }

    fn sort(&self, node: &usize) -> DataSort {
        sort_of_key(&self.nodes.as_slice()[*node])
    }

    fn known(&self, node: &usize) -> Option<Scalar> {
        known_of_key(&self.nodes.as_slice()[*node])
    }
}
