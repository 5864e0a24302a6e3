//! The law of texts that name spaces. The function does nothing, and its contract is the law.
ghost use Rattle.sw_space.specs.Named.{OneSpace};

/// A text has one answer over a protocol, beside a template or alone.
pub fn one_space()
    ensures { OneSpace }
{}
