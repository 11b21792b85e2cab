//! The law that joins circuits and models. The function does nothing; its contract is the law.
ghost use Rattle.bv_blast.specs.Circuits.{ModelsMakeTrue};

/// The words that a model of a formula's circuit spells, which `words` reads, make the formula true.
pub fn models_make_true()
    ensures { ModelsMakeTrue }
{}
