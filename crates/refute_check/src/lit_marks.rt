//! Marks on literals.
ghost use Rattle.std.specs.Prelude.{◌≡◌, ◌||◌, ◌&&◌, not, false, OnOk, OnErr};
ghost use Rattle.refute_check.specs.Literals.{same_lit};
ghost use Rattle.refute_check.specs.Sets.{marked};
ghost use Rattle.refute_check.specs.declared.lit.Lit.{Lit as Literal};

use crate::Lit;
use crate::number_set::NumberSet;
use no_memory::NoMemory;
use std::alloc::Global;
use std::marker::Model;

/// Which literals are marked.
#[derive(Debug, Drop)]
pub(crate) struct LitMarks {
    positive: NumberSet,
    negative: NumberSet,
}

impl Model for LitMarks {
    ghost use Rattle.refute_check.specs.Sets.{LitTable};

    ghost Value = { LitTable };

    ghost view = { λ m. record { positive = m.positive; negative = m.negative } };
}

impl LitMarks {
    /// No literal is marked.
    pub(crate) fn new(alloc: Global) -> LitMarks
        ensures { (x : Literal) → marked result x ≡ false }
    {
        LitMarks {
            positive: NumberSet::new(alloc),
            negative: NumberSet::new(alloc),
        }
    }

    /// Takes all marks away.
    pub(crate) fn clear(&mut self)
        ensures { (x : Literal) → marked self.new x ≡ false }
    {
        self.positive.clear();
        self.negative.clear();
    }

    /// Whether a literal is marked.
    pub(crate) fn has(&self, lit: Lit) -> bool
        ensures { result ≡ marked self.now lit }
    {
        if lit.positive {
            self.positive.has(lit.var)
        } else {
            self.negative.has(lit.var)
        }
    }

    /// Marks a literal. The only error is want of memory; the marks are then as they were.
    pub(crate) fn add(&mut self, lit: Lit) -> Result<(), NoMemory>
        ensures ok { OnOk result ((x : Literal) → marked self.new x ≡ (marked self.old x || same_lit lit x)) }
        ensures err { OnErr result ((x : Literal) → marked self.new x ≡ marked self.old x) }
    {
        if lit.positive {
            self.positive.add(lit.var)
        } else {
            self.negative.add(lit.var)
        }
    }

    /// Takes a literal's mark away, if it has one.
    pub(crate) fn remove(&mut self, lit: Lit)
        ensures { (x : Literal) → marked self.new x ≡ (marked self.old x && not (same_lit lit x)) }
    {
        if lit.positive {
            self.positive.remove(lit.var);
        } else {
            self.negative.remove(lit.var);
        }
    }
}
