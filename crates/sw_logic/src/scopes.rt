//! The sorts of the variables in scope under binders, without copying them.
ghost use Rattle.std.specs.Prelude.{◌≡◌, ◌+◌, slice_get, Some, MatchResult, length};
ghost use Rattle.sw_logic.specs.InScope.{sorts_in};

use crate::syntax::Binder;

/// The sorts of free variables, or those of an outer scope with the binders inside it.
#[derive(Clone, Copy)]
pub enum Sorts<'a> {
    Free(&'a [u32]),
    Bound(&'a Sorts<'a>, &'a [Binder]),
}

impl Sorts<'_> {
    /// The sort of the variable in a place, or how far the place is past the scope.
    fn locate(&self, place: usize) -> Result<u32, usize>
        ensures { MatchResult result (λ sort. slice_get (sorts_in self.now) place ≡ Some sort) (λ past. place ≡ length (sorts_in self.now) + past) }
    {
        match self {
            Sorts::Free(sorts) => {
                match sorts.get(place) {
                    Some(sort) => Ok(*sort),
                    None => Err(place - sorts.len()),
                }
            }
            Sorts::Bound(outer, binders) => {
                match outer.locate(place) {
                    Ok(sort) => Ok(sort),
                    Err(past) => {
                        match binders.get(past) {
                            Some(binder) => Ok(binder.sort),
                            None => Err(past - binders.len()),
                        }
                    }
                }
            }
        }
    }

    pub fn sort_at(&self, place: u32) -> Option<u32>
        ensures { result ≡ slice_get (sorts_in self.now) place }
    {
        self.locate(place as usize).ok()
    }
}
