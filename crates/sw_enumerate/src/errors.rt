//! Why there is no space of a template.
use thiserror::Error;

/// The most classes of a space.
pub const CLASSES: u128 = 4_294_967_296;

#[derive(Clone, Copy, Debug, PartialEq, Eq, Error)]
pub enum SpaceError {
    #[error("AtomsOver {n}")]
    AtomsOver { n: u128 },
    #[error("CubesOver {n}")]
    CubesOver { n: u128 },
    #[error("SpaceTooLarge {n}")]
    SpaceTooLarge { n: u128 },
    #[error("out of memory")]
    Memory,
}
