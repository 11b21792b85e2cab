// Cuts and points with their names.
ghost use Rattle.std.specs.Prelude.{◌≡◌, map, IfOk};
ghost use Rattle.sync_points.specs.Names.{IsPieceNew};
ghost use Rattle.sync_points.specs.Pieces.{nothing, points_with};

use crate::piece::Piece;
use name_resolution::NameTable;
use no_memory::NoMemory;
use sort_term::{Cut, Left, Point, Points, Right};
use sqlite_items::Items;
use std::alloc::Global;
use std::marker::Model;

/// The cuts of both sides and the points, each with a table of its names.
#[derive(Drop)]
pub struct NamedPoints {
    left_names: NameTable,
    right_names: NameTable,
    point_names: NameTable,
    all: Points,
}

impl Model for NamedPoints {
    ghost use Rattle.std.specs.Prelude.{◌≡◌, map};
    ghost use Rattle.sort_term.specs.declared.points.Points.{Points};
    ghost use Rattle.sort_term.specs.contracts.points.Points as points;

    ghost Value = { Points };

    ghost coded = { points.the_row.coded };

    ghost view = { λ p. p.all };

    ghost invariant = { λ p. (p.left_names ≡ map (λ c. c.name) p.all.left_cuts) × (p.right_names ≡ map (λ c. c.name) p.all.right_cuts) × (p.point_names ≡ map (λ q. q.name) p.all.points) };
}

impl NamedPoints {
    /// No cuts and no points.
    pub fn new(alloc: Global) -> NamedPoints
        ensures { result ≡ nothing }
    {
        NamedPoints {
            left_names: NameTable::new(alloc),
            right_names: NameTable::new(alloc),
            point_names: NameTable::new(alloc),
            all: Points {
                left_cuts: Items::new(alloc),
                right_cuts: Items::new(alloc),
                undefs: Items::new(alloc),
                points: Items::new(alloc),
            },
        }
    }

    /// The names of the items of the left cut.
    pub fn left_names(&self) -> &NameTable
        ensures { result.now ≡ map (λ c. c.name) self.now.left_cuts }
    {
        &self.left_names
    }

    /// The names of the items of the right cut.
    pub fn right_names(&self) -> &NameTable
        ensures { result.now ≡ map (λ c. c.name) self.now.right_cuts }
    {
        &self.right_names
    }

    /// The names of the points.
    pub fn point_names(&self) -> &NameTable
        ensures { result.now ≡ map (λ p. p.name) self.now.points }
    {
        &self.point_names
    }

    /// The cuts and points.
    pub fn points(&self) -> &Points
        ensures { result.now ≡ self.now }
    {
        &self.all
    }

    /// The cuts and points, without their names.
    pub fn into_points(self) -> Points
        ensures { result ≡ self }
    {
        let NamedPoints {
            left_names,
            right_names,
            point_names,
            all,
        } = self;
        drop((left_names, right_names, point_names));
        all
    }

    /// With what one more item says, which has a new name.
    pub fn with_piece(self, alloc: Global, piece: Piece) -> Result<NamedPoints, NoMemory>
        requires new { IsPieceNew self piece }
        ensures { IfOk result (λ p. p ≡ points_with self piece) }
    {
        match piece {
            Piece::LeftCut(cut) => self.with_left(alloc, cut),
            Piece::RightCut(cut) => self.with_right(alloc, cut),
            Piece::Point(point) => self.with_point(alloc, point),
        }
    }

    // With one more item of the left cut.
    fn with_left(self, alloc: Global, cut: Cut<Left>) -> Result<NamedPoints, NoMemory>
        requires new { IsPieceNew self (Piece.LeftCut cut) }
        ensures { IfOk result (λ p. p ≡ points_with self (Piece.LeftCut cut)) }
    {
        let NamedPoints {
            left_names,
            right_names,
            point_names,
            all,
        } = self;
        let Points {
            left_cuts,
            right_cuts,
            undefs,
            points,
        } = all;
        match left_names.with_one(alloc, left_cuts, cut) {
            Ok((left_names, left_cuts)) => Ok(NamedPoints {
                left_names,
                right_names,
                point_names,
                all: Points {
                    left_cuts,
                    right_cuts,
                    undefs,
                    points,
                },
            }),
            Err(refused) => {
                drop((right_names, point_names, right_cuts, undefs, points));
                Err(refused)
            }
        }
    }

    // With one more item of the right cut.
    fn with_right(self, alloc: Global, cut: Cut<Right>) -> Result<NamedPoints, NoMemory>
        requires new { IsPieceNew self (Piece.RightCut cut) }
        ensures { IfOk result (λ p. p ≡ points_with self (Piece.RightCut cut)) }
    {
        let NamedPoints {
            left_names,
            right_names,
            point_names,
            all,
        } = self;
        let Points {
            left_cuts,
            right_cuts,
            undefs,
            points,
        } = all;
        match right_names.with_one(alloc, right_cuts, cut) {
            Ok((right_names, right_cuts)) => Ok(NamedPoints {
                left_names,
                right_names,
                point_names,
                all: Points {
                    left_cuts,
                    right_cuts,
                    undefs,
                    points,
                },
            }),
            Err(refused) => {
                drop((left_names, point_names, left_cuts, undefs, points));
                Err(refused)
            }
        }
    }

    // With one more point.
    fn with_point(self, alloc: Global, point: Point) -> Result<NamedPoints, NoMemory>
        requires new { IsPieceNew self (Piece.Point point) }
        ensures { IfOk result (λ p. p ≡ points_with self (Piece.Point point)) }
    {
        let NamedPoints {
            left_names,
            right_names,
            point_names,
            all,
        } = self;
        let Points {
            left_cuts,
            right_cuts,
            undefs,
            points,
        } = all;
        match point_names.with_one(alloc, points, point) {
            Ok((point_names, points)) => Ok(NamedPoints {
                left_names,
                right_names,
                point_names,
                all: Points {
                    left_cuts,
                    right_cuts,
                    undefs,
                    points,
                },
            }),
            Err(refused) => {
                drop((left_names, right_names, left_cuts, right_cuts, undefs));
                Err(refused)
            }
        }
    }
}
