// The standard output.
ghost use Rattle.std.specs.Prelude.{◌≡◌, ℕ, [], None, take, IsOk, OnOk};
ghost use Rattle.std.specs.Io.KnownBytes.{Appends};

use keq_cli::{Failed, Sink};
use std::io::{self, Write};

/// The standard output. It tells nothing of what it took.
#[derive(Drop)]
pub struct OutSink<R: Print + Drop> {
    rt: R,
    faults: u64,
}

impl<R: Print + Drop> OutSink<R> {
    /// No put has failed.
    pub fn new(rt: R) -> OutSink<R>
        ensures { ⟦<OutSink<R> as Sink>⟧.faults result ≡ 0 }
    {
        OutSink { rt, faults: 0 }
    }
}

// Writes all the bytes, or a front of them. Each turn writes a byte or ends.
fn write_whole<W: Write>(out: &mut W, piece: &[u8]) -> Result<(), Failed>
    ensures whole { OnOk result (Appends (W.contents out.old) (W.contents out.new) piece.now) }
    ensures front { (count : ℕ) × Appends (W.contents out.old) (W.contents out.new) (take count piece.now) }
    ensures empty { piece.now ≡ [] → IsOk result }
{
    let mut at = 0;
    while at < piece.len() {
        match out.write(&piece[at..]) {
            Ok(count) if 0 < count => at += count,
            _ => return Err(Failed),
        }
    }
    Ok(())
}

impl<R: Print + Drop> Sink for OutSink<R> {
    ghost taken = { λ _. None };

    ghost faults = { λ s. s.faults };

    fn put(&mut self, piece: &[u8]) -> Result<(), Failed> {
        let written = write_whole(&mut io::writer(&self.rt), piece);
        if written.is_err() {
            self.faults = self.faults.saturating_add(1);
        }
        written
    }
}
