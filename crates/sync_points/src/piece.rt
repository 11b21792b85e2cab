// What an item says, with numbers in the place of names.
use sort_term::{Cut, Left, Point, Right};

/// What an item of a points text says.
#[derive(Drop)]
pub enum Piece {
    /// An item of the left cut.
    LeftCut(Cut<Left>),
    /// An item of the right cut.
    RightCut(Cut<Right>),
    /// A point.
    Point(Point),
}
