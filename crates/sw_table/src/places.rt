//! The first place of each name of a list, as a map has it.
ghost use Rattle.std.specs.Prelude.{◌≡◌, List, ℕ, ◌∷◌, ◌++◌, [], length, OnOk, OnErr};
ghost use Rattle.sw_table.specs.Firsts.{HasFirsts};

use std::alloc::AllocError;
use std::collections::BTreeMap;

/// Gives the name this place, unless it has one.
pub fn put(
    places: &mut BTreeMap<Vec<u8>, usize>,
    name: Vec<u8>,
    place: usize,
) -> Result<(), AllocError>
    ensures added { (names : List (List ℕ)) → HasFirsts names places.old → place ≡ length names → OnOk result (HasFirsts (names ++ name.items ∷ []) places.new) }
    ensures kept { (names : List (List ℕ)) → HasFirsts names places.old → OnErr result (HasFirsts names places.new) }
{
    if places.contains_key(name.as_slice()) {
        return Ok(());
    }
    match places.insert(name, place) {
        Ok(_) => Ok(()),
        Err(_) => Err(AllocError),
    }
}

/// Takes this place from the name, if that is the one it has.
pub fn take(places: &mut BTreeMap<Vec<u8>, usize>, name: &[u8], place: usize)
    ensures { (names : List (List ℕ)) → HasFirsts (names ++ name.now ∷ []) places.old → place ≡ length names → HasFirsts names places.new }
{
    if places.get(name).copied() == Some(place) {
        places.remove(name);
    }
}
