// Cuts and points between two semantics, of which some items are there.
ghost use Rattle.std.specs.Prelude.{◌≡◌, map, IfOk, IfErr};
ghost use Rattle.rule_text.specs.Faults.{IsItemError};
ghost use Rattle.name_resolution.specs.Known.{vocabulary_of, vocabulary_in};
ghost use Rattle.sync_points.specs.Loads.{points_loading, IsLawfulPiece};
ghost use Rattle.sync_points.specs.Names.{IsPieceNew};
ghost use Rattle.sync_points.specs.Pieces.{no_points, no_names, with_piece};

use crate::limits::is_within_limits;
use crate::named_points::NamedPoints;
use crate::naming::names_in;
use crate::piece::Piece;
use crate::reading::{is_points_item, piece_of};
use crate::sorting::{is_piece_bound, is_piece_determined, is_piece_sorted};
use name_resolution::{Known, NameTable, Vocabulary};
use no_memory::NoMemory;
use rule_text::{Draft, Item, ItemError, ItemFault, LoadFault};
use sort_term::{Left, Points, Right, Semantics};
use std::alloc::Global;
use std::marker::Model;

/// Two semantics with their names, and the cuts and points between them so far.
#[derive(Drop)]
pub struct PointsDraft<'a> {
    left: &'a Semantics<Left>,
    right: &'a Semantics<Right>,
    left_words: Vocabulary<'a>,
    right_words: Vocabulary<'a>,
    none: NameTable,
    named: NamedPoints,
}

impl<'a> Model for PointsDraft<'a> {
    ghost use Rattle.std.specs.Prelude.{◌≡◌, []};
    ghost use Rattle.name_resolution.specs.Known.{vocabulary_in};
    ghost use Rattle.sync_points.specs.Pieces.{PointsOf, points_code};

    ghost Value = { PointsOf };

    ghost coded = { points_code };

    ghost view = { λ d. record { left = d.left.now; right = d.right.now; points = d.named } };

    ghost invariant = { λ d. (d.left_words ≡ vocabulary_in d.left.now) × (d.right_words ≡ vocabulary_in d.right.now) × (d.none ≡ []) };
}

impl<'a> PointsDraft<'a> {
    /// No items.
    pub fn new(
        alloc: Global,
        left: &'a Semantics<Left>,
        right: &'a Semantics<Right>,
    ) -> Result<PointsDraft<'a>, NoMemory>
        ensures { IfOk result (λ d. d ≡ no_points left.now right.now) }
    {
        let left_words = Vocabulary::of(alloc, left)?;
        match Vocabulary::of(alloc, right) {
            Ok(right_words) => Ok(PointsDraft {
                left,
                right,
                left_words,
                right_words,
                none: NameTable::new(alloc),
                named: NamedPoints::new(alloc),
            }),
            Err(error) => {
                drop(left_words);
                Err(error)
            }
        }
    }

    /// The left semantics.
    pub fn left(&self) -> &Semantics<Left>
        ensures { result.now ≡ self.now.left }
    {
        self.left
    }

    /// The right semantics.
    pub fn right(&self) -> &Semantics<Right>
        ensures { result.now ≡ self.now.right }
    {
        self.right
    }

    /// What the left semantics declares.
    pub fn left_known(&self) -> Known<'_>
        ensures { vocabulary_of result ≡ vocabulary_in self.now.left }
    {
        self.left_words.known()
    }

    /// What the right semantics declares.
    pub fn right_known(&self) -> Known<'_>
        ensures { vocabulary_of result ≡ vocabulary_in self.now.right }
    {
        self.right_words.known()
    }

    /// What is known in the conditions of points: no name.
    pub fn none_known(&self) -> Known<'_>
        ensures { vocabulary_of result ≡ no_names }
    {
        Known {
            sort_names: &self.none,
            con_names: &self.none,
            cons: &[],
            table_names: &self.none,
            tables: &[],
        }
    }

    /// The names of the items of the left cut.
    pub fn left_names(&self) -> &NameTable
        ensures { result.now ≡ map (λ c. c.name) self.now.points.left_cuts }
    {
        self.named.left_names()
    }

    /// The names of the items of the right cut.
    pub fn right_names(&self) -> &NameTable
        ensures { result.now ≡ map (λ c. c.name) self.now.points.right_cuts }
    {
        self.named.right_names()
    }

    /// The names of the points.
    pub fn point_names(&self) -> &NameTable
        ensures { result.now ≡ map (λ p. p.name) self.now.points.points }
    {
        self.named.point_names()
    }

    /// The cuts and points.
    pub fn points(&self) -> &Points
        ensures { result.now ≡ self.now.points }
    {
        self.named.points()
    }

    /// The cuts and points, without the semantics.
    pub fn into_points(self) -> Points
        ensures { result ≡ self.entry.points }
    {
        let PointsDraft {
            left_words,
            right_words,
            none,
            named,
            ..
        } = self;
        drop((left_words, right_words, none));
        named.into_points()
    }

    /// With what one more item says, which has a new name.
    pub fn with_piece(self, alloc: Global, piece: Piece) -> Result<PointsDraft<'a>, NoMemory>
        requires new { IsPieceNew self.points piece }
        ensures { IfOk result (λ d. d ≡ with_piece self.entry piece) }
    {
        let PointsDraft {
            left,
            right,
            left_words,
            right_words,
            none,
            named,
        } = self;
        match named.with_piece(alloc, piece) {
            Ok(named) => Ok(PointsDraft {
                left,
                right,
                left_words,
                right_words,
                none,
                named,
            }),
            Err(refused) => {
                drop((left_words, right_words, none));
                Err(refused)
            }
        }
    }
}

impl Draft for PointsDraft<'_> {
    ghost loading = { points_loading };

    fn add(self, alloc: Global, item: &Item) -> Result<Self, ItemError> {
        match lawful_piece(alloc, &self, item) {
            Ok(piece) => Ok(self.with_piece(alloc, piece)?),
            Err(error) => {
                drop(self);
                Err(error)
            }
        }
    }

    fn lacking(&self) -> Option<LoadFault> {
        if self.points().points.is_empty() {
            Some(LoadFault::NoPoint)
        } else {
            None
        }
    }
}

// What an item says that passes all checks.
fn lawful_piece(alloc: Global, draft: &PointsDraft<'_>, item: &Item) -> Result<Piece, ItemError>
    ensures ok { IfOk result (IsLawfulPiece draft.now item.now) }
    ensures fault { IfErr result (IsItemError points_loading draft.now item.now) }
{
    if !is_points_item(item) {
        return Err(ItemError::Fault(ItemFault::Shape));
    }
    let Some(names) = names_in(alloc, draft, item)? else {
        return Err(ItemError::Fault(ItemFault::Name));
    };
    if !is_within_limits(draft, item) {
        drop(names);
        return Err(ItemError::Fault(ItemFault::Limit));
    }
    let Some(piece) = piece_of(alloc, draft, &names, item)? else {
        drop(names);
        return Err(ItemError::Fault(ItemFault::Sort));
    };
    drop(names);
    if !is_piece_sorted(draft, &piece) {
        drop(piece);
        return Err(ItemError::Fault(ItemFault::Sort));
    }
    if !is_piece_bound(&piece) {
        drop(piece);
        return Err(ItemError::Fault(ItemFault::Unbound));
    }
    if !is_piece_determined(&piece) {
        drop(piece);
        return Err(ItemError::Fault(ItemFault::Undetermined));
    }
    Ok(piece)
}
