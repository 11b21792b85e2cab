//! Runs calls of the layers on the cases of files, and prints behind each case what its call answers.
#![tactic(auto)]

mod faults;
mod loading;
mod outline;
mod reading;
mod resolving;

use example_cases::{Calls, Failed, Texts, run};
use sexp_text::Form;
use std::alloc::Global;

fn main(rt: HostRuntime) -> Result<(), Failed> {
    run::<Layers>(&rt)
}

struct Layers;

impl Calls for Layers {
    fn answer(
        alloc: Global,
        texts: &Texts,
        name: &[u8],
        arguments: &[Form],
    ) -> Result<String, Failed> {
        if let Some(answer) = value_examples::answer(alloc, name, arguments)? {
            return Ok(answer);
        }
        if let Some(answer) = node_examples::answer(alloc, name, arguments)? {
            return Ok(answer);
        }
        if let Some(answer) = decided_formulas::answer(alloc, name, arguments)? {
            return Ok(answer);
        }
        if let Some(answer) = symbolic_examples::answer(alloc, texts, name, arguments)? {
            return Ok(answer);
        }
        if let Some(answer) = search_examples::answer(alloc, texts, name, arguments)? {
            return Ok(answer);
        }
        if let Some(answer) = pair_examples::answer(alloc, texts, name, arguments)? {
            return Ok(answer);
        }
        if let Some(answer) = machine_examples::answer(alloc, texts, name, arguments)? {
            return Ok(answer);
        }
        if let Some(answer) = reading::answer(alloc, texts, name, arguments)? {
            return Ok(answer);
        }
        match loading::answer(alloc, texts, name, arguments)? {
            Some(answer) => Ok(answer),
            None => Err(Failed::NoCall),
        }
    }
}
