//! The faults of an input's text, and the lines that tell them.
ghost use Rattle.std.specs.Prelude.{◌≡◌, IfOk, string_bytes};
ghost use Rattle.sw_run.specs.Refusals.{rule_text, fault_text, fault_line, cycle_line};

use std::alloc::{AllocError, Global};
use sw_logic::Name;
use sw_text::Rule;

/// What is wrong with the text of an input.
#[derive(Clone, Copy, Debug, PartialEq, Eq)]
pub enum Fault {
    /// A byte begins no token.
    BadByte,
    /// A word stands where no protocol has it.
    Syntax,
    /// A word goes past a limit.
    TooDeep,
    /// A rule on names and sorts is broken.
    Broken(Rule),
}

fn rule_name(rule: Rule) -> &'static str
    ensures { result.now ≡ rule_text rule }
{
    match rule {
        Rule::Twice => "Twice",
        Rule::Unknown => "Unknown",
        Rule::AxiomMutable => "AxiomMutable",
        Rule::PostState => "PostState",
        Rule::NotModified => "NotModified",
        Rule::Arity => "Arity",
        Rule::SortMismatch => "SortMismatch",
    }
}

impl Fault {
    fn name(self) -> &'static str
        ensures { result.now ≡ fault_text self }
    {
        match self {
            Fault::BadByte => "BadByte",
            Fault::Syntax => "Syntax",
            Fault::TooDeep => "TooDeep",
            Fault::Broken(rule) => rule_name(rule),
        }
    }

    /// The line that tells the fault, with its place.
    pub fn line(self, alloc: Global, at: u32) -> Result<String, AllocError>
        ensures { IfOk result (λ text. string_bytes text ≡ fault_line self at) }
    {
        let name = self.name();
        format!(in alloc; "swiss: {name} at {at}\n")
    }
}

/// The line that tells of a sort on a cycle.
pub fn cycle_line(alloc: Global, name: &Name) -> Result<String, AllocError>
    ensures { IfOk result (λ text. string_bytes text ≡ cycle_line name.now) }
{
    let sort = name.as_str();
    format!(in alloc; "swiss: NotStratified {sort}\n")
}
