// The files of the system.
ghost use Rattle.std.specs.Prelude.{◌≡◌, ◌≤◌, None, false, take, vec_len, IfOk, IfSome};

use keq_cli::{Fetch, Shelf};
use std::alloc::Global;
use std::fs;
use std::io::Read;
use std::rt::Files;

const CHUNK: usize = 4096;

/// The files of the system, by their paths. It tells nothing of what they hold.
#[derive(Drop)]
pub struct FileShelf<R: Files + Drop> {
    rt: R,
    calls: u64,
    faults: u64,
}

impl<R: Files + Drop> FileShelf<R> {
    /// No text was fetched, and no fetch has failed.
    pub fn new(rt: R) -> FileShelf<R>
        ensures calls { ⟦<FileShelf<R> as Shelf>⟧.calls result ≡ 0 }
        ensures faults { ⟦<FileShelf<R> as Shelf>⟧.faults result ≡ 0 }
    {
        FileShelf {
            rt,
            calls: 0,
            faults: 0,
        }
    }
}

// The first `most` bytes that a reader gives, or all where it gives fewer. Each turn but the last takes a byte, so
// there are at most `most` turns.
fn read_front<F: Read>(alloc: Global, file: &mut F, most: usize) -> Result<Vec<u8>, Fetch>
    ensures bound { IfOk result (λ bytes. vec_len bytes ≤ most) }
    ensures front { IfOk result (λ bytes. IfSome (F.remaining file.old) (λ all. bytes.items ≡ take most all)) }
{
    let mut bytes = Vec::new(alloc);
    let mut buf = [0u8; CHUNK];
    while bytes.len() < most {
        let room = CHUNK.min(most - bytes.len());
        match file.read(&mut buf[..room]) {
            Ok(0) => break,
            Ok(count) => bytes.extend_from_slice(&buf[..count])?,
            Err(_) => return Err(Fetch::Failed),
        }
    }
    Ok(bytes)
}

impl<R: Files + Drop> Shelf for FileShelf<R> {
    ghost holds = { λ _. None };

    ghost faults = { λ s. s.faults };

    ghost calls = { λ s. s.calls };

    ghost steady = { λ _. false };

    ghost steady_tells = { λ s steady. Prim.cc };

    fn fetch(&mut self, alloc: Global, name: &str, most: usize) -> Result<Vec<u8>, Fetch> {
        self.calls = self.calls.saturating_add(1);
        let fetched = match fs::open(&self.rt, name) {
            Ok(mut file) => read_front(alloc, &mut file, most),
            Err(_) => Err(Fetch::Failed),
        };
        if let Err(Fetch::Failed) = &fetched {
            self.faults = self.faults.saturating_add(1);
        }
        fetched
    }
}
