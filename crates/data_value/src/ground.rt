//! The domain whose nodes are values.
ghost use Rattle.std.specs.Prelude.{[]};
ghost use Rattle.data_value.specs.Ground.{ground_seen};
ghost use Rattle.data_value.specs.GroundLawful.{ground-laws};

use crate::{DataSort, Domain, NoMemory, Op, Scalar, Value, apply_value, copy_value, value_sort};
use std::alloc::Global;

/// The domain whose nodes are the values in range, those of which `is_value` is true, and which has no variables.
#[derive(Drop)]
pub struct Ground {
    alloc: Global,
}

impl Ground {
    /// The domain, which takes the memory of its values from `alloc`. This call takes none.
    pub fn new(alloc: Global) -> Ground {
        Ground { alloc }
    }
}

impl Domain for Ground {
    type Node = Value;

    ghost look = { λ _ x. ground_seen x };

    ghost variables = { λ _. [] };

    ghost laws = { λ _. ground-laws };

    fn constant(&mut self, value: &Value) -> Result<Value, NoMemory> {
        copy_value(self.alloc, value)
    }

    fn apply(&mut self, op: Op, args: &[Value]) -> Result<Value, NoMemory> {
        apply_value(self.alloc, op, args)
    }

    fn copy(&self, node: &Value) -> Result<Value, NoMemory> {
        copy_value(self.alloc, node)
    }

    fn sort(&self, node: &Value) -> DataSort {
        value_sort(node)
    }

    fn known(&self, node: &Value) -> Option<Scalar> {
        match node {
            Value::One(scalar) => Some(*scalar),
            Value::Map(_) => None,
        }
    }
}
