//! Which learned clauses are worth being looked at. Nothing that is proved rests on it.
use no_memory::NoMemory;
use refute_check::Links;
use std::alloc::Global;

/// How much each learned clause took part in late conflicts.
#[derive(Debug, Drop)]
pub(crate) struct Worth {
    /// The number of the first learned clause.
    base: usize,
    /// The worth of each learned clause, in their order; 0 of one that is forgotten.
    worths: Vec<u64>,
    /// How many are not forgotten.
    kept: usize,
    /// How many may be kept.
    limit: usize,
    /// What a part in the next conflict counts.
    step: u64,
}

/// The least number of learned clauses that are kept before some are forgotten.
const FIRST_LIMIT: usize = 1000;

/// What a part in the first conflict counts.
const FIRST_STEP: u64 = 1 << 10;

/// Where worths are made smaller.
const LIMIT: u64 = 1 << 50;

/// How many bits they lose there.
const LOST_BITS: u32 = 32;

impl Worth {
    /// No clause is learned; the first one will have the number `base`.
    pub(crate) fn new(alloc: Global, base: usize) -> Worth {
        Worth {
            base,
            worths: Vec::new(alloc),
            kept: 0,
            limit: FIRST_LIMIT.max(base / 3),
            step: FIRST_STEP,
        }
    }

    /// The next clause has this number.
    pub(crate) fn add(&mut self, clause: usize) -> Result<(), NoMemory> {
        if clause >= self.base {
            self.worths.push(self.step)?;
            self.kept = self.kept.saturating_add(1);
        }
        Ok(())
    }

    /// Whether a clause is a base clause or one that is not forgotten.
    pub(crate) fn keeps(&self, clause: usize) -> bool {
        match clause.checked_sub(self.base) {
            Some(place) => match self.worths.get(place) {
                Some(worth) => *worth > 0,
                None => true,
            },
            None => true,
        }
    }

    /// A conflict began with a clause, and these took part in it: they count more, and in later conflicts yet more.
    pub(crate) fn credit_all(&mut self, conflict: usize, chain: &Links) {
        self.credit(conflict);
        for link in chain.as_slice() {
            self.credit(link.clause);
        }
        self.step = self.step.saturating_add(self.step >> 10);
        if self.step > LIMIT {
            self.step >>= LOST_BITS;
            self.shrink();
        }
    }

    fn credit(&mut self, clause: usize) {
        if let Some(place) = clause.checked_sub(self.base) {
            if place < self.worths.len() && self.worths[place] > 0 {
                self.worths[place] = self.worths[place].saturating_add(self.step);
            }
        }
    }

    fn shrink(&mut self) {
        for worth in &mut self.worths {
            if *worth > 0 {
                *worth = (*worth >> LOST_BITS).max(1);
            }
        }
    }

    /// Whether some clauses are to be forgotten.
    pub(crate) fn is_full(&self) -> bool {
        self.kept >= self.limit
    }

    /// Forgets the clauses that are worth less than the mean.
    pub(crate) fn forget(&mut self) {
        let mean = self.mean();
        let mut kept: usize = 0;
        for worth in &mut self.worths {
            if *worth < mean {
                *worth = 0;
            }
            if *worth > 0 {
                kept = kept.saturating_add(1);
            }
        }
        self.kept = kept;
        self.limit = self.limit.saturating_add(self.limit / 40);
    }

    fn mean(&self) -> u64 {
        let mut sum: u64 = 0;
        let mut count: u64 = 0;
        for worth in &self.worths {
            if *worth > 0 {
                sum = sum.saturating_add(*worth);
                count = count.saturating_add(1);
            }
        }
        sum / count.max(1)
    }
}
