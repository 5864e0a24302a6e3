//! Why a text is no template.
use thiserror::Error;

#[derive(Clone, Copy, Debug, PartialEq, Eq, Error)]
pub enum TemplateError {
    #[error("BadByte at {at}")]
    BadByte { at: u32 },
    #[error("Syntax at {at}")]
    Syntax { at: u32 },
    #[error("UnknownSort at {at}")]
    UnknownSort { at: u32 },
    #[error("VariablesOver {n}")]
    VariablesOver { n: u128 },
    #[error("LiteralsOver {n}")]
    LiteralsOver { n: u128 },
    #[error("out of memory")]
    Memory,
}
