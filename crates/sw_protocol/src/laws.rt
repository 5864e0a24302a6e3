//! Laws about the definitions: each is the contract of a function that does nothing.
ghost use Rattle.sw_protocol.specs.Answers.{OneParse};
ghost use Rattle.sw_protocol.specs.Stratified.{OneProtocol};
ghost use Rattle.sw_protocol.specs.Texts.{OneDeclared, DeclaredIsWellFormed};

/// A list of words has one answer.
pub fn one_parse()
    ensures { OneParse }
{}

/// A text declares one protocol or has one first fault.
pub fn one_declared()
    ensures { OneDeclared }
{}

/// What a text declares is well formed.
pub fn declared_is_well_formed()
    ensures { DeclaredIsWellFormed }
{}

/// A text has one answer, but for want of memory.
pub fn one_protocol()
    ensures { OneProtocol }
{}
