//! Why there are no literals or cubes of a template.
use thiserror::Error;

/// The most atoms of a template.
pub const ATOMS: u32 = 512;

/// The most cubes of a template.
pub const CUBES: u32 = 1_048_576;

#[derive(Clone, Copy, Debug, PartialEq, Eq, Error)]
pub enum LiteralsError {
    #[error("{n} atoms")]
    AtomsOver { n: u128 },
    #[error("out of memory")]
    Memory,
}

#[derive(Clone, Copy, Debug, PartialEq, Eq, Error)]
pub enum CubesError {
    #[error("{n} cubes")]
    CubesOver { n: u128 },
    #[error("out of memory")]
    Memory,
}
