//! How large a space is, as it is told.
ghost use Rattle.std.specs.Prelude.{◌≡◌, ◌++◌, codes, IfOk, length, string_bytes};
ghost use Rattle.std.specs.Fmt.{decimal};
ghost use Rattle.sw_meaning.specs.Report.{line};
ghost use Rattle.sw_enumerate.specs.Spaces.{classes_in};
ghost use Rattle.sw_space.specs.Lines.{numbers_text};

use std::alloc::{AllocError, Global};
use sw_enumerate::Space;

fn atoms_line(alloc: Global, atoms: u32) -> Result<String, AllocError>
    ensures { IfOk result (λ text. string_bytes text ≡ line (codes "atoms " ++ decimal atoms)) }
{
    format!(in alloc; "atoms {atoms}\n")
}

fn cubes_line(alloc: Global, cubes: u32) -> Result<String, AllocError>
    ensures { IfOk result (λ text. string_bytes text ≡ line (codes "cubes " ++ decimal cubes)) }
{
    format!(in alloc; "cubes {cubes}\n")
}

fn classes_line(alloc: Global, classes: u64) -> Result<String, AllocError>
    ensures { IfOk result (λ text. string_bytes text ≡ line (codes "classes " ++ decimal classes)) }
{
    format!(in alloc; "classes {classes}\n")
}

fn numbers_text(alloc: Global, atoms: u32, cubes: u32, classes: u64) -> Result<String, AllocError>
    ensures { IfOk result (λ text. string_bytes text ≡ numbers_text atoms cubes classes) }
{
    let mut text = atoms_line(alloc, atoms)?;
    let cubes = cubes_line(alloc, cubes)?;
    text.push_str(cubes.as_str())?;
    let classes = classes_line(alloc, classes)?;
    text.push_str(classes.as_str())?;
    Ok(text)
}

/// The numbers of atoms, cubes and classes, each on a line.
pub fn sizes_text(alloc: Global, space: &Space) -> Result<String, AllocError>
    ensures { IfOk result (λ text. string_bytes text ≡ numbers_text (length space.now.atoms) (length space.now.cubes) (length (classes_in space.now))) }
{
    numbers_text(alloc, space.atoms(), space.cubes(), space.class_count())
}
