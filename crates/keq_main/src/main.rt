//! Runs the command of the command line on files of the system.
#![tactic(auto)]

mod file_shelf;
mod out_sink;

use file_shelf::FileShelf;
use keq_cli::{Status, keq};
use out_sink::OutSink;
use std::process::ExitCode;
use std::{env, io};

// Without memory for the words it writes nothing. Where a word can't be had as text there are no words.
fn main(rt: HostRuntime) -> ExitCode {
    let mut words = Vec::new(rt.alloc());
    match env::args(&rt) {
        Ok(all) => {
            for word in all.skip(1) {
                if words.push(word).is_err() {
                    return ExitCode::from(Status::NoMemory.code());
                }
            }
        }
        Err(error) => {
            if error.kind() == io::ErrorKind::OutOfMemory {
                return ExitCode::from(Status::NoMemory.code());
            }
        }
    }
    let mut shelf = FileShelf::new(rt);
    let mut out = OutSink::new(rt);
    let status = keq(rt.alloc(), words.as_slice(), &mut shelf, &mut out);
    ExitCode::from(status.code())
}
