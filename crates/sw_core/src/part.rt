//! What the machine's state is made of.
use crate::record::Settled;
use sqlite_items::Items;
use sw_logic::Formula;

/// A part: the workers in whose hand it is, and its last settlement.
#[derive(Drop)]
pub struct Part {
    pub holders: Items<u32>,
    pub last: Option<Settled>,
}

/// What the next step puts into its place: an entry's formula, or the holders of a part.
#[derive(Drop)]
pub enum Made {
    Nothing,
    Entry(Formula),
    Holders(Items<u32>),
}
