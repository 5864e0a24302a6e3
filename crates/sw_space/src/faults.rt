//! Why a text names no space over a protocol, and the line that tells it.
ghost use Rattle.std.specs.Prelude.{◌≡◌, ◌++◌, codes, IfOk, string_bytes};
ghost use Rattle.std.specs.Fmt.{decimal};
ghost use Rattle.sw_meaning.specs.Report.{line};
ghost use Rattle.sw_space.specs.Lines.{fault_text, fault_line};

use std::alloc::{AllocError, Global};
use sw_enumerate::SpaceError;
use sw_logic::Name;
use sw_template_text::TemplateError;

/// What is wrong with a template over a protocol: with its text at a byte, from 0, with a count, or
/// with a sort of this name that lies on a cycle.
#[derive(Drop)]
pub enum SpaceFault {
    BadByte(u32),
    Syntax(u32),
    UnknownSort(u32),
    VariablesOver(u128),
    LiteralsOver(u128),
    NotStratified(Name),
    AtomsOver(u128),
    CubesOver(u128),
    SpaceTooLarge(u128),
}

/// Why there is no space.
#[derive(Drop)]
pub enum NoSpace {
    Faulty(SpaceFault),
    Memory,
}

impl From<AllocError> for NoSpace {
    ghost use Rattle.sw_space.specs.declared.faults.NoSpace.TheVariants.{Memory};

    ghost from_gives = { λ _ e. e ≡ Memory };

    fn from(_: AllocError) -> NoSpace {
        NoSpace::Memory
    }
}

impl From<TemplateError> for NoSpace {
    ghost use Rattle.sw_space.specs.Named.{read_fault};

    ghost from_gives = { λ error e. e ≡ read_fault error };

    fn from(error: TemplateError) -> NoSpace {
        match error {
            TemplateError::BadByte { at } => NoSpace::Faulty(SpaceFault::BadByte(at)),
            TemplateError::Syntax { at } => NoSpace::Faulty(SpaceFault::Syntax(at)),
            TemplateError::UnknownSort { at } => NoSpace::Faulty(SpaceFault::UnknownSort(at)),
            TemplateError::VariablesOver { n } => NoSpace::Faulty(SpaceFault::VariablesOver(n)),
            TemplateError::LiteralsOver { n } => NoSpace::Faulty(SpaceFault::LiteralsOver(n)),
            TemplateError::Memory => NoSpace::Memory,
        }
    }
}

impl From<SpaceError> for NoSpace {
    ghost use Rattle.sw_space.specs.Named.{size_fault};

    ghost from_gives = { λ error e. e ≡ size_fault error };

    fn from(error: SpaceError) -> NoSpace {
        match error {
            SpaceError::AtomsOver { n } => NoSpace::Faulty(SpaceFault::AtomsOver(n)),
            SpaceError::CubesOver { n } => NoSpace::Faulty(SpaceFault::CubesOver(n)),
            SpaceError::SpaceTooLarge { n } => NoSpace::Faulty(SpaceFault::SpaceTooLarge(n)),
            SpaceError::Memory => NoSpace::Memory,
        }
    }
}

fn line_of(alloc: Global, which: &str, fault: &str) -> Result<String, AllocError>
    ensures { IfOk result (λ text. string_bytes text ≡ line (codes "swiss: " ++ which.now ++ codes " " ++ fault.now)) }
{
    let mut text = String::from_str(alloc, "swiss: ")?;
    text.push_str(which)?;
    text.push_str(" ")?;
    text.push_str(fault)?;
    text.push_str("\n")?;
    Ok(text)
}

impl SpaceFault {
    /// What the line of the fault says after the template's name.
    fn text(&self, alloc: Global) -> Result<String, AllocError>
        ensures { IfOk result (λ text. string_bytes text ≡ fault_text self.now) }
    {
        match self {
            SpaceFault::BadByte(at) => format!(in alloc; "BadByte at {at}"),
            SpaceFault::Syntax(at) => format!(in alloc; "Syntax at {at}"),
            SpaceFault::UnknownSort(at) => format!(in alloc; "UnknownSort at {at}"),
            SpaceFault::VariablesOver(n) => format!(in alloc; "VariablesOver {n}"),
            SpaceFault::LiteralsOver(n) => format!(in alloc; "LiteralsOver {n}"),
            SpaceFault::NotStratified(name) => {
                let name = name.as_str();
                format!(in alloc; "NotStratified {name}")
            }
            SpaceFault::AtomsOver(n) => format!(in alloc; "AtomsOver {n}"),
            SpaceFault::CubesOver(n) => format!(in alloc; "CubesOver {n}"),
            SpaceFault::SpaceTooLarge(n) => format!(in alloc; "SpaceTooLarge {n}"),
        }
    }

    /// The line that tells the fault of the template of this name: `breadth`, `finish` or `space`.
    pub fn line(&self, alloc: Global, which: &str) -> Result<String, AllocError>
        ensures { IfOk result (λ text. string_bytes text ≡ fault_line which.now self.now) }
    {
        let fault = self.text(alloc)?;
        line_of(alloc, which, fault.as_str())
    }
}
