//! Laws about the definitions: each is the contract of a function that does nothing.
ghost use Rattle.sw_readback.specs.Formulas.{FormulasReadBack};
ghost use Rattle.sw_readback.specs.Protocols.{ProtocolsReadBack};

/// The canonical text of a formula that a text has reads back as this formula.
pub fn formulas_read_back()
    ensures { FormulasReadBack }
{}

/// The canonical text of a protocol that a text has reads back as this protocol.
pub fn protocols_read_back()
    ensures { ProtocolsReadBack }
{}
