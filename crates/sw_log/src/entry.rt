//! An entry of the log, and its copy.
ghost use Rattle.std.specs.Prelude.{◌≡◌, IfOk};

use std::alloc::{AllocError, Global};
use sw_template::Body;

/// A class that a worker appended at the place `under`: it was examined under the list of that length.
#[derive(Drop)]
pub struct Entry {
    pub body: Body,
    pub worker: u32,
    pub under: u32,
}

/// The same class.
pub fn copy_body(alloc: Global, body: &Body) -> Result<Body, AllocError>
    ensures { IfOk result (λ copy. copy ≡ body.now) }
{
    Body::of_list(alloc, body.template(), body.cubes())
}

fn copy_entry(alloc: Global, entry: &Entry) -> Result<Entry, AllocError>
    ensures { IfOk result (λ copy. copy ≡ entry.now) }
{
    Ok(Entry {
        body: copy_body(alloc, &entry.body)?,
        worker: entry.worker,
        under: entry.under,
    })
}

/// The same entries.
pub fn copy_entries(alloc: Global, entries: &[Entry]) -> Result<Vec<Entry>, AllocError>
    ensures { IfOk result (λ copies. copies.items ≡ entries.now) }
{
    let mut copies = Vec::new(alloc);
    for entry in entries {
        copies.push(copy_entry(alloc, entry)?)?;
    }
    Ok(copies)
}
