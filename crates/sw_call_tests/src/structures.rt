//! Texts of structures: those that read and print back, and the first faults of others.
use crate::asserts::is_text;
use crate::reading::protocol_of;
use std::alloc::{AllocError, Global};
use std::process::Abort;
use std::test::Fail;
use sw_logic::Signature;
use sw_models::{StructureError, print_structure, read_structure};

const RELATION: &str = "sort node; mutable relation p(node);";

const OF_A_RELATION: &str = "\
    structure\nsize node 2\nrelation p 01\n~prints back^\
    structure\nsize node 1\nrelation p 1\n~prints back^\
    ~Syntax at 0^\
    structure\nsize node 0\nrelation p 01\n~SizeZero at 10^\
    structure\nsize node 2\nrelation p 0\n~TableLength at 33^\
    structure\nsize node 2\nrelation p 011\n~TableLength at 33^\
    structure\nsize node 2\nrelation p \n~Syntax at 22^\
    structure\nsize node 2\nrelation p 02\n~Syntax at 22^\
    structure\nsize node 2\nrelation q 01\n~Syntax at 22^\
    structure\nsize node 02\nrelation p 01\n~Syntax at 10^\
    structure\nsize node 4294967296\nrelation p 01\n~Syntax at 10^\
    structure\nsize node 4294967295\nrelation p 01\n~TableLength at 42^\
    structure\nsize node 2\n~Syntax at 22^\
    structure\nsize node 2\nrelation p 01~Syntax at 22^\
    structure\nsize node 2\nrelation p 01\n\n~Syntax at 36^\
";

const VALUES: &str =
    "sort node; sort kind; mutable constant c: node; immutable function f(node): kind;";

const OF_VALUES: &str = "\
    structure\nsize node 12\nsize kind 12\nconstant c 11\nfunction f 0 1 2 3 4 5 6 7 8 9 10 11\n~prints back^\
    structure\nsize node 2\nsize kind 2\nconstant c 2\nfunction f 0 1\n~ValueRange at 45^\
    structure\nsize node 2\nsize kind 2\nconstant c 1\nfunction f 2 1\n~ValueRange at 58^\
    structure\nsize node 2\nsize kind 2\nconstant c 1\nfunction f 1 12\n~ValueRange at 60^\
    structure\nsize node 2\nsize kind 2\nconstant c 1\nfunction f 2\n~TableLength at 58^\
    structure\nsize node 2\nsize kind 2\nconstant c 1\nfunction f 1 0 1\n~TableLength at 58^\
    structure\nsize node 2\nsize kind 2\nconstant c 1\nfunction f 1  0\n~Syntax at 47^\
    structure\nsize node 2\nsize kind 2\nconstant c 1\nfunction f \n~Syntax at 47^\
    structure\nsize node 2\nsize kind 2\nconstant c 01\nfunction f 0 1\n~Syntax at 34^\
    structure\nsize node 2\nsize kind 2\nconstant c +1\nfunction f 0 1\n~Syntax at 34^\
";

// What the text has: that it prints back, or its first fault and the place of this.
fn told(alloc: Global, signature: &Signature, text: &str) -> Result<String, AllocError> {
    match read_structure(alloc, signature, text.as_bytes()) {
        Ok(structure) => {
            let printed = print_structure(alloc, signature, &structure)?;
            let back = printed.as_str() == text;
            String::from_str(
                alloc,
                if back {
                    "prints back"
                } else {
                    "prints otherwise"
                },
            )
        }
        Err(StructureError::Syntax { at }) => format!(in alloc; "Syntax at {at}"),
        Err(StructureError::SizeZero { at }) => format!(in alloc; "SizeZero at {at}"),
        Err(StructureError::TableLength { at }) => format!(in alloc; "TableLength at {at}"),
        Err(StructureError::ValueRange { at }) => format!(in alloc; "ValueRange at {at}"),
        Err(StructureError::Memory) => String::from_str(alloc, "Memory"),
    }
}

fn is_told(
    rt: &impl Abort,
    alloc: Global,
    signature: &Signature,
    row: &str,
) -> Result<(), AllocError> {
    let (text, wanted) = row.split_once('~').unwrap_or((row, ""));
    let found = told(alloc, signature, text)?;
    is_text(rt, text, found.as_str(), wanted);
    Ok(())
}

#[test]
fn texts_of_structures_are_read_and_printed(rt: HostRuntime) -> Result<(), Fail> {
    let protocol = protocol_of(rt.alloc(), RELATION)?;
    for row in OF_A_RELATION.split_terminator('^') {
        is_told(&rt, rt.alloc(), &protocol.signature, row)?;
    }
    let protocol = protocol_of(rt.alloc(), VALUES)?;
    for row in OF_VALUES.split_terminator('^') {
        is_told(&rt, rt.alloc(), &protocol.signature, row)?;
    }
    Ok(())
}
