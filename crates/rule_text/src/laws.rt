// Laws of raw items and of texts, for readers of the contracts: none of them computes anything.
ghost use Rattle.std.specs.Prelude.{◌≡◌, ℕ, List};
ghost use Rattle.sexp_text.specs.declared.form.Form.{Form};
ghost use Rattle.rule_text.specs.Faults.{AddsOne, IsWholeText, IsFaultOf};
ghost use Rattle.rule_text.specs.Shapes.{IsMisfit};
ghost use Rattle.rule_text.specs.Writes.{WritesItem, WritesItems};
ghost use Rattle.rule_text.specs.declared.error.LoadFault.{LoadFault};
ghost use Rattle.rule_text.specs.declared.item.FileKind.{FileKind};
ghost use Rattle.rule_text.specs.declared.item.Item.{Item};

use crate::loading::Draft;

/// The forms of a text write at most one list of items, so what [`crate::items`] answers is the only one.
pub fn items_are_unique()
    ensures { (kind : FileKind) (forms : List Form) (xs ys : List Item) →
        WritesItems kind forms xs → WritesItems kind forms ys → xs ≡ ys }
{}

/// A form writes at most one item, so what [`crate::read_item`] answers is the only one.
pub fn forms_write_one_item()
    ensures { (kind : FileKind) (form : Form) (a b : Item) →
        WritesItem kind form a → WritesItem kind form b → a ≡ b }
{}

/// Forms that write items have no first form of no shape, and others have one at most; so [`crate::items`] refuses no forms
/// that write items but for want of memory, and its fault is the only one.
pub fn misfits_are_unique()
    ensures none { (kind : FileKind) (forms : List Form) (items : List Item) (place : ℕ) →
        WritesItems kind forms items → ¬ IsMisfit kind forms place }
    ensures one { (kind : FileKind) (forms : List Form) (p q : ℕ) →
        IsMisfit kind forms p → IsMisfit kind forms q → p ≡ q }
{}

/// Where what an item adds is determined, a text makes one value at most, has one first fault at most, and never both; so
/// what [`crate::load_text`] answers is the only answer but for want of memory.
pub fn texts_have_one_end<D: Draft>()
    ensures value { (start : D) (bytes : List ℕ) (d e : D) → AddsOne D.loading →
        IsWholeText D.loading start bytes d → IsWholeText D.loading start bytes e → d ≡ e }
    ensures fault { (start : D) (bytes : List ℕ) (f g : LoadFault) → AddsOne D.loading →
        IsFaultOf D.loading start bytes f → IsFaultOf D.loading start bytes g → f ≡ g }
    ensures apart { (start : D) (bytes : List ℕ) (d : D) (f : LoadFault) → AddsOne D.loading →
        IsWholeText D.loading start bytes d → ¬ IsFaultOf D.loading start bytes f }
{}
