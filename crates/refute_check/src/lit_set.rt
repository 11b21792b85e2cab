//! Sets of literals, in which resolvents are computed.
ghost use Rattle.std.specs.Prelude.{◌≡◌, ◌||◌, ◌&&◌, not, false, true, IfOk, OnOk};
ghost use Rattle.refute_check.specs.Literals.{has_lit, same_lit, resolvent};
ghost use Rattle.refute_check.specs.Sets.{Covers, marked};
ghost use Rattle.refute_check.specs.declared.lit.Lit.{Lit as Literal};

use crate::lit_marks::LitMarks;
use crate::{Clause, Lit};
use no_memory::NoMemory;
use std::alloc::Global;
use std::marker::Model;

/// A set of literals.
#[derive(Debug, Drop)]
pub(crate) struct LitSet {
    /// The literals of the set are marked.
    marks: LitMarks,
    /// The literals that were put in since the set was empty, some of which may have been taken out again.
    added: Vec<Lit>,
    /// The literals of the clause that is made, kept for its room.
    kept: Vec<Lit>,
}

impl Model for LitSet {
    ghost use Rattle.refute_check.specs.Sets.{LitTable, Covers};

    ghost Value = { LitTable };

    ghost view = { λ s. s.marks };

    ghost invariant = { λ s. Covers s.added.items s.marks };
}

impl LitSet {
    /// The set with no literal.
    pub(crate) fn new(alloc: Global) -> LitSet
        ensures { (x : Literal) → marked result x ≡ false }
    {
        LitSet {
            marks: LitMarks::new(alloc),
            added: Vec::new(alloc),
            kept: Vec::new(alloc),
        }
    }

    /// Makes it the set of a clause's literals. The only error is want of memory.
    pub(crate) fn start(&mut self, clause: &Clause) -> Result<(), NoMemory>
        ensures { OnOk result ((x : Literal) → marked self.new x ≡ has_lit clause.now x) }
    {
        self.clear();
        for lit in clause.as_slice() {
            self.add(*lit)?;
        }
        Ok(())
    }

    /// Makes it the resolvent of itself and a clause on a literal: what is in the set without the literal, and in the clause
    /// without its opposite. The only error is want of memory.
    pub(crate) fn resolve(&mut self, other: &Clause, lit: Lit) -> Result<(), NoMemory>
        ensures { OnOk result ((x : Literal) → marked self.new x ≡ resolvent (marked self.old) (has_lit other.now) lit x) }
    {
        self.remove(lit);
        self.add_without(other, lit.flip())
    }

    /// The clause of its literals, each of which stands in it once. The set is then of no use. The only error is want of memory.
    pub(crate) fn to_clause(&mut self, alloc: Global) -> Result<Clause, NoMemory>
        ensures { IfOk result (λ c. (x : Literal) → has_lit c x ≡ marked self.old x) }
    {
        self.kept.clear();
        gather(&mut self.marks, self.added.as_slice(), &mut self.kept)?;
        Clause::from_slice(alloc, self.kept.as_slice())
    }

    /// Takes all literals out.
    fn clear(&mut self)
        ensures { (x : Literal) → marked self.new x ≡ false }
    {
        self.marks.clear();
        self.added.clear();
    }

    /// Puts a literal in that may be there already.
    fn add(&mut self, lit: Lit) -> Result<(), NoMemory>
        ensures { OnOk result ((x : Literal) → marked self.new x ≡ (marked self.old x || same_lit lit x)) }
    {
        if !self.marks.has(lit) {
            self.added.push(lit)?;
            self.marks.add(lit)?;
        }
        Ok(())
    }

    /// Takes a literal out, if it is in.
    fn remove(&mut self, lit: Lit)
        ensures { (x : Literal) → marked self.new x ≡ (marked self.old x && not (same_lit lit x)) }
    {
        self.marks.remove(lit);
    }

    /// Puts in what is in a clause, without one literal.
    fn add_without(&mut self, other: &Clause, but: Lit) -> Result<(), NoMemory>
        ensures { OnOk result ((x : Literal) → marked self.new x ≡ (marked self.old x || (has_lit other.now x && not (same_lit but x)))) }
    {
        for lit in other.as_slice() {
            if !but.is_same(*lit) {
                self.add(*lit)?;
            }
        }
        Ok(())
    }
}

/// Puts the marked literals at the end of a list, once each, and takes their marks away.
fn gather(marks: &mut LitMarks, added: &[Lit], kept: &mut Vec<Lit>) -> Result<(), NoMemory>
    requires { Covers added.now marks.old }
    ensures kept { OnOk result ((x : Literal) → has_lit kept.new.items x ≡ (has_lit kept.old.items x || marked marks.old x)) }
    ensures fewer { (x : Literal) → marked marks.new x ≡ true → marked marks.old x ≡ true }
{
    for lit in added {
        if marks.has(*lit) {
            marks.remove(*lit);
            kept.push(*lit)?;
        }
    }
    Ok(())
}
