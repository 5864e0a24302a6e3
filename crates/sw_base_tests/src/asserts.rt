//! Assertions as calls: one that is written out in a test takes some four seconds to prove.
ghost use Rattle.std.specs.Prelude.{IsTrue};

use std::process::Abort;

/// Asserts what the words say.
pub fn is(rt: &impl Abort, holds: bool, words: &str)
    ensures { IsTrue holds }
{
    assert!(rt; holds, "{words}");
}
