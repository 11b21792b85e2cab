//! The first fault of a text, as it is told.
use example_cases::Failed;
use rule_text::{LoadError, LoadFault};
use sexp_text::TextFault;
use std::alloc::Global;

/// The kind of the fault and its place.
pub(crate) fn told(alloc: Global, error: LoadError) -> Result<String, Failed> {
    match error {
        LoadError::Fault(fault) => load_fault(alloc, fault),
        LoadError::NoMemory => Err(Failed::NoMemory),
    }
}

fn load_fault(alloc: Global, fault: LoadFault) -> Result<String, Failed> {
    match fault {
        LoadFault::Text(fault) => text_fault(alloc, fault),
        LoadFault::Shape { item } => item_fault(alloc, "shape", item),
        LoadFault::Name { item } => item_fault(alloc, "name", item),
        LoadFault::Limit { item } => item_fault(alloc, "limit", item),
        LoadFault::Sort { item } => item_fault(alloc, "sort", item),
        LoadFault::Unbound { item } => item_fault(alloc, "unbound", item),
        LoadFault::DoubleKey { item } => item_fault(alloc, "double-key", item),
        LoadFault::Undetermined { item } => item_fault(alloc, "undetermined", item),
        LoadFault::NoConfig => Ok(String::from_str(alloc, "no-config")?),
        LoadFault::NoPoint => Ok(String::from_str(alloc, "no-point")?),
    }
}

fn item_fault(alloc: Global, kind: &str, item: usize) -> Result<String, Failed> {
    Ok(format!(in alloc; "{kind} in item {item}")?)
}

/// The kind of the fault and its offset.
pub(crate) fn text_fault(alloc: Global, fault: TextFault) -> Result<String, Failed> {
    let (kind, offset) = match fault {
        TextFault::TooLong(offset) => ("too-long", offset),
        TextFault::NotAscii(offset) => ("not-ascii", offset),
        TextFault::BadChar(offset) => ("bad-char", offset),
        TextFault::Unopened(offset) => ("unopened", offset),
        TextFault::Deep(offset) => ("deep", offset),
        TextFault::BadNumber(offset) => ("bad-number", offset),
        TextFault::LongName(offset) => ("long-name", offset),
        TextFault::Unclosed(offset) => ("unclosed", offset),
    };
    Ok(format!(in alloc; "{kind} at {offset}")?)
}
