//! Reads of map variables.
ghost use Rattle.map_reads.specs.Tied.{AreReads};

use data_value::{DataSorts, Flat, Places};
use sqlite_items::Items;

/// What a formula reads of a map variable at a key.
#[derive(Clone, Copy, Debug, Drop)]
pub struct Read {
    /// The index of the map variable.
    pub variable: usize,
    /// The place of the key in the flat formula, a word of the width of the map's keys.
    pub key: usize,
    /// The input that stands for what is read, of the width of the map's words.
    pub word: usize,
}

/// A list of reads.
pub type ReadList = Items<Read>;

/// A formula without maps, in place of one with maps.
#[derive(Debug, Drop)]
pub struct Reads {
    /// The formula without maps. It is true of no words that differ for two reads of one variable at equal keys.
    pub flat: Flat,
    /// The sorts of the variables of the formula with maps.
    pub sorts: DataSorts,
    /// The input of each variable, of the width that its sort has. That of a truth value has one bit, which is 1 for true; that
    /// of a map has one bit too, and nobody reads it.
    pub scalars: Places,
    /// The reads, each of which comes after those on which its key depends.
    pub reads: ReadList,
    /// Each variable and each read has its input.
    pub ghost fits: { AreReads sorts scalars flat.widths flat.nodes reads },
}
