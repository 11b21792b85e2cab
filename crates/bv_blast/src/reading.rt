//! The words that a model spells.
ghost use Rattle.std.specs.Prelude.{◌≡◌, length, IfOk};
ghost use Rattle.refute_check.specs.Truth.{assigned};
ghost use Rattle.bv_blast.specs.Inputs.{IsBits, spelled, words_of};

use crate::Circuit;
use data_value::Words;
use no_memory::NoMemory;
use refute_check::Assignment;
use sqlite_items::Items;
use std::alloc::Global;

/// The words that the inputs of a circuit spell under a model, which gives each variable of the clauses a truth value. It fails only
/// for want of memory.
pub fn words(alloc: Global, circuit: &Circuit, model: &Assignment) -> Result<Words, NoMemory>
    requires { length model.now ≡ circuit.now.clauses.vars }
    ensures { IfOk result (λ ws. ws ≡ words_of (assigned model.now) circuit.now.inputs) }
{
    let mut words = Items::new(alloc);
    for bits in circuit.inputs.as_slice() {
        words.push(word_of(bits.as_slice(), model.as_slice()))?;
    }
    Ok(words)
}

/// The number that variables spell.
fn word_of(bits: &[usize], model: &[bool]) -> u64
    requires { IsBits (length model.now) bits.now }
    ensures { result ≡ spelled (assigned model.now) bits.now }
{
    let mut word: u64 = 0;
    for i in 0..bits.len() {
        word += (model[bits[i]] as u64) << i;
    }
    word
}
