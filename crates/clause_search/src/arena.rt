//! The literals of the clauses that wait, near each other. Nothing that is proved rests on them.
use crate::narrow::NarrowLit;
use crate::partial::Partial;
use no_memory::NoMemory;
use refute_check::Lit;
use std::alloc::Global;

/// The two literals for which a clause waits.
#[derive(Clone, Copy, Debug)]
pub(crate) struct Pair {
    pub(crate) first: Lit,
    pub(crate) second: Lit,
}

/// The literals of one clause after another: first the two for which it waits, then the others, then the end.
#[derive(Debug, Drop)]
pub(crate) struct Arena {
    lits: Vec<NarrowLit>,
}

impl Arena {
    /// No clause.
    pub(crate) fn new(alloc: Global) -> Arena {
        Arena {
            lits: Vec::new(alloc),
        }
    }

    /// Puts a clause behind the others, and answers where it begins.
    pub(crate) fn add(&mut self, clause: &[Lit], pair: Pair) -> Result<usize, NoMemory> {
        let start = self.lits.len();
        self.lits.push(NarrowLit::new(pair.first))?;
        self.lits.push(NarrowLit::new(pair.second))?;
        for lit in clause {
            if !(lit.is_same(pair.first) || lit.is_same(pair.second)) {
                self.lits.push(NarrowLit::new(*lit))?;
            }
        }
        self.lits.push(NarrowLit::end())?;
        Ok(start)
    }

    /// The other literal for which a clause waits. It is the first one from now on.
    pub(crate) fn other(&mut self, start: usize, lit: NarrowLit) -> NarrowLit {
        if self.lit(start).is_same(lit) {
            self.exchange(start, start.saturating_add(1));
        }
        self.lit(start)
    }

    /// Puts a literal of a clause that is not false in the place of the second one, where there is such a literal.
    pub(crate) fn replace_second(&mut self, start: usize, values: &Partial) -> Option<NarrowLit> {
        let second = start.saturating_add(1);
        for place in second..self.lits.len() {
            let lit = self.lit(place);
            if lit.is_end() {
                return None;
            }
            if !values.makes_false(lit.lit()) {
                self.exchange(second, place);
                return Some(lit);
            }
        }
        None
    }

    fn lit(&self, place: usize) -> NarrowLit {
        match self.lits.get(place) {
            Some(lit) => *lit,
            None => NarrowLit::end(),
        }
    }

    fn exchange(&mut self, one: usize, other: usize) {
        if one < self.lits.len() && other < self.lits.len() {
            let first = self.lits[one];
            let second = self.lits[other];
            self.lits[one] = second;
            self.lits[other] = first;
        }
    }
}
