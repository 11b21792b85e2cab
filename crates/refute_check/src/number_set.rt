//! Sets of numbers that are emptied in one step.
ghost use Rattle.std.specs.Prelude.{◌≡◌, ◌==◌, ◌||◌, ◌&&◌, not, ◌<◌, ◌≤◌, ℕ, Bool, false, length, slice_index_or, OnOk, OnErr};
ghost use Rattle.refute_check.specs.Sets.{has_number};

use no_memory::NoMemory;
use std::alloc::Global;
use std::marker::Model;

/// A set of numbers. Its table reaches up to the greatest number that was ever put in. Emptying it begins a new round, in which
/// the stamps of earlier rounds count for nothing, and so takes no time for the table.
#[derive(Debug, Drop)]
pub(crate) struct NumberSet {
    round: u32,
    /// For each number the round in which it was put in last, or 0 where it was taken out.
    stamps: Vec<u32>,
}

impl Model for NumberSet {
    ghost use Rattle.refute_check.specs.Sets.{Numbers, AreStamps};

    ghost Value = { Numbers };

    ghost view = { λ s. record { round = s.round; stamps = s.stamps.items } };

    ghost invariant = { λ s. AreStamps (record { round = s.round; stamps = s.stamps.items }) };
}

impl NumberSet {
    /// The set with no number.
    pub(crate) fn new(alloc: Global) -> NumberSet
        ensures { (k : ℕ) → has_number result k ≡ false }
    {
        NumberSet {
            round: 1,
            stamps: Vec::new(alloc),
        }
    }

    /// Takes all numbers out. Once in so many rounds as a stamp can count, the table itself is emptied.
    pub(crate) fn clear(&mut self)
        ensures { (k : ℕ) → has_number self.new k ≡ false }
    {
        if self.round < u32::MAX {
            self.round += 1;
        } else {
            self.stamps.clear();
            self.round = 1;
        }
    }

    /// Whether a number is in the set.
    pub(crate) fn has(&self, number: usize) -> bool
        ensures { result ≡ has_number self.now number }
    {
        match self.stamps.get(number) {
            Some(stamp) => *stamp == self.round,
            None => false,
        }
    }

    /// Puts a number in. The only error is want of memory; the set is then as it was.
    pub(crate) fn add(&mut self, number: usize) -> Result<(), NoMemory>
        ensures ok { OnOk result ((k : ℕ) → has_number self.new k ≡ (has_number self.old k || number == k)) }
        ensures err { OnErr result ((k : ℕ) → has_number self.new k ≡ has_number self.old k) }
    {
        reach(&mut self.stamps, number)?;
        self.stamps[number] = self.round;
        Ok(())
    }

    /// Takes a number out, if it is in.
    pub(crate) fn remove(&mut self, number: usize)
        ensures { (k : ℕ) → has_number self.new k ≡ (has_number self.old k && not (number == k)) }
    {
        if number < self.stamps.len() {
            self.stamps[number] = 0;
        }
    }
}

/// Makes the table reach a number.
fn reach(stamps: &mut Vec<u32>, number: usize) -> Result<(), NoMemory>
    ensures within { OnOk result (number < length stamps.new.items) }
    ensures same { (k : ℕ) → slice_index_or stamps.new.items k 0 ≡ slice_index_or stamps.old.items k 0 }
{
    while stamps.len() <= number {
        stamps.push(0)?;
    }
    Ok(())
}
