//! The cuts and synchronisation points that a text writes, between two semantics.
//!
//! The items of the text act in turn. Each is checked behind those before it, for one kind of fault after the other: whether it
//! is an item of a cut or a point; whether it names only what is known and has a name that is new (`HasNames`); whether the
//! limits are kept (`IsWithinLimits`); whether it says something that is well sorted (`HasSorts`); whether its pattern binds its
//! variables (`BindsAll`); and whether a related pair determines those of a point (`DeterminesAll`). Then it adds what it says.
//!
//! # What is proved
//!
//! - [`load_points`] answers cuts and points exactly where the text is theirs (`IsPointsText`): each item passes all checks
//!   behind those before it and adds what it says, and there is a point. Else it answers the first fault of the text
//!   (`IsFaultOf` of `points_loading`): that of its bytes; that of its first item with a fault, of several faults the first in
//!   the order above; or that no point is there. Want of memory is the only other answer, and no contract ties it to the text.
//! - [`texts_load_points`]: the cuts and points of a text are lawful (`AreLawful`), as the check of a whole problem asks.
//! - [`text_is_of_one_problem`], [`text_has_one_fault`] and [`text_has_no_value_and_fault`]: a text has one answer but for want
//!   of memory.
//!
//! An item of a cut speaks of its side's semantics alone. A point's variables have sorts of data, each of its terms speaks of
//! one side, and its conditions name no constructor.
#![tactic(auto)]

ghost use Rattle.std.specs.Prelude.{IfOk, IfErr};
ghost use Rattle.rule_text.specs.Faults.{IsLoadError};
ghost use Rattle.sync_points.specs.Pieces.{no_points};
ghost use Rattle.sync_points.specs.Loads.{points_loading};
ghost use Rattle.sync_points.specs.Text.{IsPointsText};

mod draft;
mod laws;
mod limits;
mod named_points;
mod naming;
mod piece;
mod reading;
mod sorting;

use draft::PointsDraft;
pub use laws::{
    text_has_no_value_and_fault, text_has_one_fault, text_is_of_one_problem, texts_load_points,
};
use rule_text::{FileKind, LoadError, load_text};
use sort_term::{Left, Points, Right, Semantics};
use std::alloc::Global;

/// Loads the text of cuts and points for two semantics: the answer is the cuts and points of which this is a text, or else the
/// first fault of the text. Want of memory is the only other answer.
pub fn load_points(
    alloc: Global,
    left: &Semantics<Left>,
    right: &Semantics<Right>,
    bytes: &[u8],
) -> Result<Points, LoadError>
    ensures ok { IfOk result (IsPointsText left.now right.now bytes.now) }
    ensures fault { IfErr result (IsLoadError points_loading (no_points left.now right.now) bytes.now) }
{
    let start = PointsDraft::new(alloc, left, right)?;
    let draft = load_text(alloc, FileKind::Points, start, bytes)?;
    Ok(draft.into_points())
}
