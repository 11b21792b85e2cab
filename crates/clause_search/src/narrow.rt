//! Literals and numbers in half of their room, so that more of them are near. Nothing that is proved rests on them: past their range
//! a hint is a wrong one.
use refute_check::Lit;

/// A number in half a word. All numbers past its range become one.
pub(crate) fn narrow(number: usize) -> u32 {
    u32::try_from(number).unwrap_or(u32::MAX)
}

/// A literal in half a word: twice its variable, and one more where it is negative.
#[derive(Clone, Copy, Debug)]
pub(crate) struct NarrowLit {
    code: u32,
}

impl NarrowLit {
    pub(crate) fn new(lit: Lit) -> NarrowLit {
        let code = narrow(lit.var).saturating_mul(2);
        NarrowLit {
            code: if lit.positive { code } else { code | 1 },
        }
    }

    /// What stands behind the literals of a clause, and is none of them.
    pub(crate) fn end() -> NarrowLit {
        NarrowLit { code: u32::MAX }
    }

    pub(crate) fn is_end(self) -> bool {
        self.code == u32::MAX
    }

    pub(crate) fn is_same(self, other: NarrowLit) -> bool {
        self.code == other.code
    }

    pub(crate) fn lit(self) -> Lit {
        Lit {
            var: (self.code / 2) as usize,
            positive: self.code % 2 == 0,
        }
    }
}
