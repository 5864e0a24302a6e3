//! Templates: their literals, cubes and bodies, and the formulas of bodies.
#![tactic(auto)]

pub mod bodies;
pub mod body;
mod capped;
mod counts;
pub mod cubes;
pub mod errors;
pub mod formulas;
pub mod holding;
pub mod literals;
pub mod prefix;
mod terms;

pub use bodies::Bodies;
pub use body::Body;
pub use cubes::{CubeLits, Cubes};
pub use errors::{CubesError, LiteralsError};
pub use formulas::formula_of;
pub use holding::holds_body;
pub use literals::Literals;
pub use prefix::edges;
