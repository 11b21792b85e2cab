//! A pool as a domain with variables.
ghost use Rattle.std.specs.Prelude.{◌≡◌, ◌<◌, [], ◌∷◌, ◌++◌, length, IfOk, OnErr, OnOk};
ghost use Rattle.data_value.specs.Sorts.{IsSort};
ghost use Rattle.data_value.specs.Nodes.{Variable, Extends};
ghost use Rattle.data_value.specs.Views.{BeginsWith, IsVariable};
ghost use Rattle.expr_pool.specs.Keys.{pool_look};
ghost use Rattle.expr_pool.specs.Shows.{pool_views};

use crate::{Key, Pool};
use data_value::{DataSort, NoMemory, Symbolic, View};

impl Symbolic for Pool {
    ghost views = { λ p. pool_views p.variables.items p.nodes.keys p.formed };

    fn fresh(&mut self, sort: DataSort) -> Result<usize, NoMemory>
        requires { IsSort sort }
        ensures extends { Extends (pool_look self.old.nodes.keys) (pool_look self.new.nodes.keys) }
        ensures begins { BeginsWith self.new.variables.items self.old.variables.items }
        ensures index { IfOk result (λ i. i ≡ length self.old.variables.items) }
        ensures appended { OnOk result (self.new.variables.items ≡ self.old.variables.items ++ sort ∷ []) }

        // The nodes are as before, and where there was no memory so are the variables.
        ensures same_nodes { pool_look self.new.nodes.keys ≡ pool_look self.old.nodes.keys }
        ensures unchanged { OnErr result (self.new.variables.items ≡ self.old.variables.items) }
    {
        let index = self.variables.len();
        self.variables.push(sort)?;
        Ok(index)
    }

    fn variable(&mut self, index: usize) -> Result<usize, NoMemory>
        requires { index < length self.old.variables.items }
        ensures extends { Extends (pool_look self.old.nodes.keys) (pool_look self.new.nodes.keys) }
        ensures same_variables { self.new.variables.items ≡ self.old.variables.items }
        ensures made { IfOk result (λ n. IsVariable (pool_look self.new.nodes.keys) self.new.variables.items index n) }
        ensures shown { IfOk result (λ n. (pool_look self.new.nodes.keys n).shown ≡ Variable index) }

        // Where there was no memory every number is the node that it was, or none as before.
        ensures unchanged { OnErr result (pool_look self.new.nodes.keys ≡ pool_look self.old.nodes.keys) }
    {
        let sort = self.variables[index];
        Ok(self.intern(Key::Variable(index, sort))?)
    }

    fn sorts(&self) -> &[DataSort] {
        self.variables.as_slice()
    }

    fn view<'a>(&'a self, node: &'a usize) -> View<'a, usize> {
        match &self.nodes.as_slice()[*node] {
            Key::Variable(index, _) => View::Variable(*index),
            Key::Constant(value) => View::Constant(value),
            Key::Apply(op, _, args) => View::Apply(*op, args.as_slice()),
        }
    }

    fn id(&self, node: &usize) -> Option<usize> {
        Some(*node)
    }
}
