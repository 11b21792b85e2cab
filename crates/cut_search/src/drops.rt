//! Who says which paths are dropped.
ghost use Rattle.std.specs.Prelude.{◌≡◌, None, IfOk, IsTrue, IsFalse};
ghost use Rattle.data_value.specs.Nodes.{Extends};
ghost use Rattle.data_value.specs.Truth.{IsCondition};
ghost use Rattle.data_value.specs.Views.{HaveOneId};

use data_value::Symbolic;
use no_memory::NoMemory;
use std::alloc::Global;

/// Says of conditions whether paths under them are dropped.
pub trait Drops<D: Symbolic> {
    ghost use Rattle.std.specs.Prelude.{List};
    ghost use Rattle.data_value.specs.declared.DataSort.{DataSort};
    ghost use Rattle.data_value.specs.Nodes.{Seen};

    /// What holds of each condition whose paths are dropped, over variables of these sorts.
    ghost Allows: { List DataSort → Seen D.Node → Type 0 };

    /// What holds of each condition that it was asked about and whose paths are kept.
    ghost Keeps: { List DataSort → Seen D.Node → Type 0 };

    /// Whether paths under a condition are dropped. It is asked only about a condition that isn't known and isn't kept under the number of
    /// `before`, the condition of the path one step before. `answers` are those to the questions before this one, so their count is its
    /// number.
    fn drops(
        &mut self,
        alloc: Global,
        d: &mut D,
        answers: &[bool],
        before: &D::Node,
        condition: &D::Node,
    ) -> Result<bool, NoMemory>
        requires before { IsCondition (D.look d.old before.now) }
        requires condition { IsCondition (D.look d.old condition.now) }
        requires unknown { (D.look d.old condition.now).known ≡ None }
        requires changed { ¬ HaveOneId (D.look d.old before.now) (D.look d.old condition.now) }
        ensures extends { Extends (D.look d.old) (D.look d.new) }
        ensures same_variables { D.variables d.new ≡ D.variables d.old }
        ensures allowed { IfOk result (λ dropped. IsTrue dropped → Allows (D.variables d.old) (D.look d.old condition.now)) }
        ensures kept { IfOk result (λ dropped. IsFalse dropped → Keeps (D.variables d.old) (D.look d.old condition.now)) };
}
