//! What the rows of the tests are made of, read by the calls that read them for the program.
ghost use Rattle.std.specs.Prelude.{◌≤◌, IfOk};
ghost use Rattle.sw_logic.specs.Truth.{binds};

use sqlite_items::Items;
use std::alloc::Global;
use std::test::Fail;
use sw_logic::{Formula, Scope, Signature, Structure};
use sw_models::read_structure;
use sw_protocol::{Protocol, read_protocol};
use sw_text::read_formula;

/// The protocol that the text is.
pub fn protocol_of(alloc: Global, text: &str) -> Result<Protocol, Fail> {
    match read_protocol(alloc, text.as_bytes()) {
        Ok(protocol) => Ok(protocol),
        Err(_) => Err(Fail::from("a text of a protocol is wanted")),
    }
}

/// The structure that the text is.
pub fn structure_of(alloc: Global, signature: &Signature, text: &str) -> Result<Structure, Fail> {
    match read_structure(alloc, signature, text.as_bytes()) {
        Ok(structure) => Ok(structure),
        Err(_) => Err(Fail::from("a text of a structure is wanted")),
    }
}

/// The sentence that the text is, where symbols may have primes or not.
pub fn sentence_of(
    alloc: Global,
    signature: &Signature,
    text: &str,
    post: bool,
) -> Result<Formula, Fail>
    ensures { IfOk result (λ f. binds f ≤ 32) }
{
    let scope = Scope {
        sorts: Items::new(alloc),
        post,
    };
    match read_formula(alloc, signature, &scope, text.as_bytes()) {
        Ok(formula) => Ok(formula),
        Err(_) => Err(Fail::from("a text of a formula is wanted")),
    }
}
