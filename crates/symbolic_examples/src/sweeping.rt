//! Answers at all values of one variable of 8 bits.
ghost use Rattle.std.specs.Prelude.{IfOk};
ghost use Rattle.data_value.specs.Nodes.{IsValuation};

use data_value::{DataSort, Scalar, Valuation, Value};
use example_cases::Failed;
use node_examples::fits;
use shown_terms::Shown;
use sqlite_items::Items;
use std::alloc::{AllocError, Global};

/// Texts of numbers that rise, each behind the first number that has it.
#[derive(Drop)]
pub struct Sweep {
    out: Shown,
    last: String,
}

impl Sweep {
    /// None so far.
    pub fn new(alloc: Global) -> Sweep {
        Sweep {
            out: Shown::new(alloc),
            last: String::new(alloc),
        }
    }

    /// Writes the text of a number, unless the number before has the same.
    pub fn add(&mut self, number: u64, text: String) -> Result<(), AllocError> {
        if text.as_str() == self.last.as_str() {
            return Ok(());
        }
        self.out.part(" | ")?;
        self.out.number("", number)?;
        self.out.put(": ")?;
        self.out.put(text.as_str())?;
        self.last = text;
        Ok(())
    }

    /// What was written.
    pub fn into_text(self) -> String {
        self.out.into_text()
    }
}

/// The valuation of one variable of 8 bits, where these sorts are those of such a one.
pub fn byte(alloc: Global, sorts: &[DataSort], bits: u64) -> Result<Valuation, Failed>
    ensures { IfOk result (IsValuation sorts.now) }
{
    let mut valuation: Valuation = Items::new(alloc);
    valuation.push(Value::One(Scalar::Bits { width: 8, bits }))?;
    if fits(sorts, valuation.as_slice()) {
        Ok(valuation)
    } else {
        Err(Failed::NoCall)
    }
}
