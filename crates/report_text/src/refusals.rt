//! The line of a text that doesn't load.
ghost use Rattle.std.specs.Prelude.{◌≡◌, ◌++◌, IfOk, OnOk};
ghost use Rattle.report_text.specs.Refusals.{role_text, byte_fault_text, offset_of, in_item, fault_words, refusal_of};

use crate::Role;
use crate::values::write_number;
use no_memory::NoMemory;
use rule_text::LoadFault;
use sexp_text::{Bytes, TextFault};
use sqlite_items::Items;
use std::alloc::Global;

/// The refusal of the text with this role, whose first fault this is: `refused ROLE KIND`, with ` at OFFSET` where the fault is one
/// of the bytes, and ` in item K` where it is one of an item. The only error is want of memory.
pub fn fault_text(alloc: Global, role: Role, fault: &LoadFault) -> Result<Bytes, NoMemory>
    ensures { IfOk result (λ text. text ≡ refusal_of role fault.now) }
{
    let mut text = Vec::new(alloc);
    text.extend_from_slice(b"refused ")?;
    text.extend_from_slice(role_name(role).as_bytes())?;
    text.push(b' ')?;
    write_fault(alloc, &mut text, fault)?;
    text.push(b'\n')?;
    Ok(Items::from_vec(text))
}

fn role_name(role: Role) -> &'static str
    ensures { result.now ≡ role_text role }
{
    match role {
        Role::LeftSemantics => "left-semantics",
        Role::RightSemantics => "right-semantics",
        Role::LeftProgram => "left-program",
        Role::RightProgram => "right-program",
        Role::Points => "points",
        Role::Semantics => "semantics",
        Role::Program => "program",
        Role::Start => "start",
    }
}

// The kind of a fault and its place, behind what the text has.
fn write_fault(alloc: Global, text: &mut Vec<u8>, fault: &LoadFault) -> Result<(), NoMemory>
    ensures { OnOk result (text.new.items ≡ text.old.items ++ fault_words fault.now) }
{
    match fault {
        LoadFault::Text(fault) => write_text_fault(alloc, text, *fault)?,
        LoadFault::Shape { item } => write_in_item(alloc, text, "shape", *item)?,
        LoadFault::Name { item } => write_in_item(alloc, text, "name", *item)?,
        LoadFault::Limit { item } => write_in_item(alloc, text, "limit", *item)?,
        LoadFault::Sort { item } => write_in_item(alloc, text, "sort", *item)?,
        LoadFault::Unbound { item } => write_in_item(alloc, text, "unbound", *item)?,
        LoadFault::DoubleKey { item } => write_in_item(alloc, text, "double-key", *item)?,
        LoadFault::Undetermined { item } => write_in_item(alloc, text, "undetermined", *item)?,
        LoadFault::NoConfig => text.extend_from_slice(b"no-config")?,
        LoadFault::NoPoint => text.extend_from_slice(b"no-point")?,
    }
    Ok(())
}

fn write_in_item(alloc: Global, text: &mut Vec<u8>, kind: &str, item: usize) -> Result<(), NoMemory>
    ensures { OnOk result (text.new.items ≡ text.old.items ++ in_item kind.now item) }
{
    text.extend_from_slice(kind.as_bytes())?;
    text.extend_from_slice(b" in item ")?;
    write_number(alloc, text, item as u64)
}

fn write_text_fault(alloc: Global, text: &mut Vec<u8>, fault: TextFault) -> Result<(), NoMemory>
    ensures { OnOk result (text.new.items ≡ text.old.items ++ fault_words (LoadFault.Text fault)) }
{
    text.extend_from_slice(text_fault_name(fault).as_bytes())?;
    text.extend_from_slice(b" at ")?;
    write_number(alloc, text, text_fault_offset(fault) as u64)
}

fn text_fault_name(fault: TextFault) -> &'static str
    ensures { result.now ≡ byte_fault_text fault }
{
    match fault {
        TextFault::TooLong(_) => "too-long",
        TextFault::NotAscii(_) => "not-ascii",
        TextFault::BadChar(_) => "bad-char",
        TextFault::Unopened(_) => "unopened",
        TextFault::Deep(_) => "deep",
        TextFault::BadNumber(_) => "bad-number",
        TextFault::LongName(_) => "long-name",
        TextFault::Unclosed(_) => "unclosed",
    }
}

fn text_fault_offset(fault: TextFault) -> usize
    ensures { result ≡ offset_of fault }
{
    match fault {
        TextFault::TooLong(offset)
        | TextFault::NotAscii(offset)
        | TextFault::BadChar(offset)
        | TextFault::Unopened(offset)
        | TextFault::Deep(offset)
        | TextFault::BadNumber(offset)
        | TextFault::LongName(offset)
        | TextFault::Unclosed(offset) => offset,
    }
}
