// The forms that were read so far, with the lists that are open.
ghost use Rattle.std.specs.Prelude.{◌≡◌, [], ◌∷◌, ◌++◌, OnOk, IfOk};
ghost use Rattle.sexp_text.specs.Finishes.{Finishes};

use crate::form::{Form, FormKind, Forms};
use no_memory::NoMemory;
use sqlite_items::Items;
use std::alloc::Global;
use std::mem;

/// An open list: the offset of its `(`, and the forms before it in the list around it.
#[derive(Drop)]
pub struct Open {
    pub start: usize,
    pub before: Forms,
}

/// The open lists, the outermost first, and the forms so far of the innermost.
#[derive(Drop)]
pub struct Tree {
    pub outer: Items<Open>,
    pub forms: Forms,
}

impl Tree {
    pub fn new(alloc: Global) -> Tree
        ensures outer { result.outer ≡ [] }
        ensures forms { result.forms ≡ [] }
    {
        Tree {
            outer: Items::new(alloc),
            forms: Items::new(alloc),
        }
    }

    /// Adds a form to the innermost list.
    pub fn add(&mut self, form: Form) -> Result<(), NoMemory>
        ensures { OnOk result (self.new ≡ record self.old { forms = self.old.forms ++ form ∷ [] }) }
    {
        self.forms.push(form)?;
        Ok(())
    }

    /// Opens a list whose `(` stands at the offset.
    pub fn begin(&mut self, alloc: Global, start: usize) -> Result<(), NoMemory>
        ensures { OnOk result (self.new ≡ record self.old {
          outer = self.old.outer ++ record { start = start; before = self.old.forms } ∷ [];
          forms = [];
        }) }
    {
        let before = mem::replace(&mut self.forms, Items::new(alloc));
        self.outer.push(Open { start, before })?;
        Ok(())
    }

    /// Closes the innermost list, whose `)` ends at the offset. The answer is whether a list was open.
    pub fn finish(&mut self, end: usize) -> Result<bool, NoMemory>
        ensures { IfOk result (λ closed. Finishes closed self.old end self.new) }
    {
        let Some(Open { start, before }) = self.outer.pop() else {
            return Ok(false);
        };
        let forms = mem::replace(&mut self.forms, before);
        self.forms.push(Form {
            kind: FormKind::List(forms),
            start,
            end,
        })?;
        Ok(true)
    }
}
