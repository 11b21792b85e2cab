//! A growing list of clauses.
ghost use Rattle.std.specs.Prelude.{◌≡◌, ◌+◌, ◌<◌, true, [], ◌∷◌, ◌++◌, IfOk, OnOk, OnErr, IsErr, ◌↔◌};
ghost use Rattle.refute_check.specs.Truth.{clause_below};
ghost use Rattle.bit_gates.specs.Bits.{Grounded, constant_lit};

use no_memory::NoMemory;
use refute_check::{Clause, Clauses, Lit};
use sqlite_items::Items;
use std::alloc::Global;

/// Clauses that grow, over variables that grow in number. The first variable is true wherever the clauses are, so that
/// constants are its literals. After an error of a call that adds clauses the builder is of no more use: the clauses may
/// speak of a bit that nobody was told of.
#[derive(Debug, Drop)]
pub struct Builder {
    pub(crate) alloc: Global,
    /// The clauses, and the number of variables.
    pub clauses: Clauses,
    pub ghost some: { 0 < clauses.vars },
    pub ghost grounded: { Grounded clauses.list },
}

/// The literal with this truth value: it is of the first variable.
pub fn constant(value: bool) -> Lit
    ensures { result ≡ constant_lit value }
{
    Lit {
        var: 0,
        positive: value,
    }
}

impl Builder {
    /// One variable, and the clause that says that it is true. The only error is want of memory.
    pub fn new(alloc: Global) -> Result<Builder, NoMemory>
        ensures vars { IfOk result (λ b. b.clauses.vars ≡ 1) }
        ensures clauses { IfOk result (λ b. b.clauses.list ≡ (constant_lit true ∷ []) ∷ []) }
    {
        let first = Clause::from_slice(alloc, &[constant(true)])?;
        let mut list = Items::new(alloc);
        list.push(first)?;
        let clauses = Clauses { vars: 1, list };
        Ok(Builder { alloc, clauses })
    }

    /// The clauses, with the number of their variables.
    pub fn into_clauses(self) -> Clauses
        ensures { result ≡ self.clauses }
    {
        self.clauses
    }

    /// A new variable, of which nothing is said. The only error is that no number is left for it.
    pub fn fresh(&mut self) -> Result<Lit, NoMemory>
        ensures made { IfOk result (λ l. l ≡ record { var = self.old.clauses.vars; positive = true }) }
        ensures more { OnOk result (self.new.clauses.vars ≡ self.old.clauses.vars + 1) }
        ensures same { self.new.clauses.list ≡ self.old.clauses.list }
        ensures kept { OnErr result (self.new.clauses.vars ≡ self.old.clauses.vars) }
        ensures full { IsErr result ↔ (self.old.clauses.vars ≡ usize.MAX) }
    {
        let var = self.clauses.vars;
        if var == usize::MAX {
            return Err(NoMemory);
        }
        self.clauses.vars = var + 1;
        Ok(Lit {
            var,
            positive: true,
        })
    }

    /// Adds the clause that says that a literal is true. The only error is want of memory; the builder is then as it was.
    pub fn demand(&mut self, x: Lit) -> Result<(), NoMemory>
        requires { x.var < self.old.clauses.vars }
        ensures vars { self.new.clauses.vars ≡ self.old.clauses.vars }
        ensures added { OnOk result (self.new.clauses.list ≡ self.old.clauses.list ++ (x ∷ []) ∷ []) }
        ensures kept { OnErr result (self.new.clauses.list ≡ self.old.clauses.list) }
    {
        let clause = Clause::from_slice(self.alloc, &[x])?;
        self.add(clause)
    }

    /// Adds the clause that says that one of two literals is true.
    pub(crate) fn demand_two(&mut self, x: Lit, y: Lit) -> Result<(), NoMemory>
        requires x { x.var < self.old.clauses.vars }
        requires y { y.var < self.old.clauses.vars }
        ensures vars { self.new.clauses.vars ≡ self.old.clauses.vars }
        ensures added { OnOk result (self.new.clauses.list ≡ self.old.clauses.list ++ (x ∷ y ∷ []) ∷ []) }
    {
        let clause = Clause::from_slice(self.alloc, &[x, y])?;
        self.add(clause)
    }

    /// Adds the clause that says that one of three literals is true.
    pub(crate) fn demand_three(&mut self, x: Lit, y: Lit, z: Lit) -> Result<(), NoMemory>
        requires x { x.var < self.old.clauses.vars }
        requires y { y.var < self.old.clauses.vars }
        requires z { z.var < self.old.clauses.vars }
        ensures vars { self.new.clauses.vars ≡ self.old.clauses.vars }
        ensures added { OnOk result (self.new.clauses.list ≡ self.old.clauses.list ++ (x ∷ y ∷ z ∷ []) ∷ []) }
    {
        let clause = Clause::from_slice(self.alloc, &[x, y, z])?;
        self.add(clause)
    }

    /// Adds a clause.
    fn add(&mut self, clause: Clause) -> Result<(), NoMemory>
        requires { clause_below self.old.clauses.vars clause ≡ true }
        ensures vars { self.new.clauses.vars ≡ self.old.clauses.vars }
        ensures added { OnOk result (self.new.clauses.list ≡ self.old.clauses.list ++ clause ∷ []) }
        ensures kept { OnErr result (self.new.clauses.list ≡ self.old.clauses.list) }
    {
        self.clauses.list.push(clause)?;
        Ok(())
    }
}
