// A sink in memory.
ghost use Rattle.std.specs.Prelude.{◌≡◌, ◌≤◌, ◌+◌, ◌-◌, ◌<◌, ◌↔◌, [], Some, length, take, vec_len, vec_capacity};
ghost use Rattle.std.specs.Prelude.{IfOk, OnOk, IsOk, IsErr};
ghost use Rattle.keq_cli.specs.Outside.{IsTaken, IsFrontTaken, HasPutCause};

use crate::{Failed, NoMemory, Sink};
use std::alloc::Global;

/// Takes bytes into memory until there is no room left. It tells what it took.
#[derive(Debug, Drop)]
pub struct MemorySink {
    taken: Vec<u8>,
    room: usize,
    faults: u64,

    // Its memory was taken at the start.
    ghost reserved: { vec_len taken + room ≤ vec_capacity taken },
}

impl MemorySink {
    ghost use Rattle.keq_cli.specs.Memory.{room_left};

    /// An empty sink with room for so many bytes. All of its memory is taken here.
    pub fn new(alloc: Global, room: usize) -> Result<MemorySink, NoMemory>
        ensures taken { IfOk result (λ sink. ⟦<MemorySink as Sink>⟧.taken sink ≡ Some []) }
        ensures faults { IfOk result (λ sink. ⟦<MemorySink as Sink>⟧.faults sink ≡ 0) }
        ensures room { IfOk result (λ sink. room_left sink ≡ room) }
    {
        let taken = Vec::with_capacity(alloc, room)?;
        Ok(MemorySink {
            taken,
            room,
            faults: 0,
        })
    }

    /// The bytes taken so far. It takes no memory.
    pub fn bytes(&self) -> &[u8]
        ensures { ⟦<MemorySink as Sink>⟧.taken self.now ≡ Some result.now }
    {
        self.taken.as_slice()
    }
}

impl Sink for MemorySink {
    ghost use Rattle.keq_cli.specs.Memory.{room_left, taken_by};

    ghost taken = { taken_by };

    ghost faults = { λ s. s.faults };

    /// It takes no memory.
    fn put(&mut self, piece: &[u8]) -> Result<(), Failed>
        ensures whole { OnOk result (IsTaken (taken_by self.old) piece.now (taken_by self.new)) }
        ensures front { IsFrontTaken (taken_by self.old) piece.now (taken_by self.new) }
        ensures empty { piece.now ≡ [] → IsOk result }
        ensures cause { HasPutCause (⟦<MemorySink as Sink>⟧.faults self.old) (⟦<MemorySink as Sink>⟧.faults self.new) result }

        // It takes as much as fits, and fails exactly where the piece is longer than that.
        ensures fitting { IsTaken (taken_by self.old) (take (room_left self.old) piece.now) (taken_by self.new) }
        ensures failed { IsErr result ↔ (room_left self.old < length piece.now) }
        ensures room { room_left self.new ≡ room_left self.old - length piece.now }
    {
        let count = self.room.min(piece.len());
        if self.taken.extend_from_slice(&piece[..count]).is_err() {
            unreachable!();
        }
        self.room -= count;
        if count < piece.len() {
            self.faults = self.faults.saturating_add(1);
            return Err(Failed);
        }
        Ok(())
    }
}
