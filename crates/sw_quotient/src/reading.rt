//! What an assignment says of ground atoms.
ghost use Rattle.std.specs.Prelude.{◌≡◌, ◌++◌, ◌∷◌, IfOk, length};
ghost use Rattle.sw_quotient.specs.Valuations.{valuation};
ghost use Rattle.sw_quotient.specs.Classes.{is_least};
ghost use Rattle.sw_quotient.specs.Told.{told};

use std::alloc::{AllocError, Global};
use std::collections::HashSet;
use sw_truth::Atom;

/// That two terms of a sort are equal.
#[derive(Clone, Copy, PartialEq, Eq, Hash, Drop)]
pub struct Equation {
    pub sort: u32,
    pub t: u32,
    pub u: u32,
}

/// The true atoms: of a relation as its symbol and then its terms.
#[derive(Drop)]
pub struct TrueAtoms {
    relations: HashSet<Vec<u32>>,
    equations: HashSet<Equation>,
}

fn key_of(alloc: Global, symbol: u32, terms: &[u32]) -> Result<Vec<u32>, AllocError>
    ensures { IfOk result (λ key. key.items ≡ symbol ∷ terms.now) }
{
    let mut key = Vec::new(alloc);
    key.push(symbol)?;
    key.extend_from_slice(terms)?;
    Ok(key)
}

impl TrueAtoms {
    /// The atoms that the assignment makes true.
    pub fn new(alloc: Global, atoms: &[Atom], values: &[bool]) -> Result<TrueAtoms, AllocError>
        requires { length values.now ≡ length atoms.now }
        ensures { IfOk result (λ truths. told truths ≡ valuation atoms.now values.now) }
    {
        let mut truths = TrueAtoms {
            relations: HashSet::new(alloc),
            equations: HashSet::new(alloc),
        };
        for (i, atom) in atoms.iter().enumerate() {
            if values[i] {
                match atom {
                    Atom::Holds { symbol, terms } => {
                        let key = key_of(alloc, *symbol, terms.as_slice())?;
                        let _ = truths.relations.insert(key)?;
                    }
                    Atom::Equal { sort, t, u } => {
                        let equation = Equation {
                            sort: *sort,
                            t: *t,
                            u: *u,
                        };
                        let _ = truths.equations.insert(equation)?;
                    }
                    Atom::Inner => {}
                }
            }
        }
        Ok(truths)
    }

    /// Whether some variable of this relation at these terms is true.
    pub fn holds(&self, alloc: Global, symbol: u32, terms: &[u32]) -> Result<bool, AllocError>
        ensures { IfOk result (λ holds. holds ≡ (told self.now).holds symbol terms.now) }
    {
        let key = key_of(alloc, symbol, terms)?;
        Ok(self.relations.contains(key.as_slice()))
    }

    /// Whether some variable of this equation is true.
    pub fn equal(&self, sort: u32, t: u32, u: u32) -> bool
        ensures { result ≡ (told self.now).equal sort t u }
    {
        let equation = Equation { sort, t, u };
        self.equations.contains(&equation)
    }

    /// Whether no lesser term equals this one.
    pub fn is_least(&self, sort: u32, t: u32) -> bool
        ensures { result ≡ is_least (told self.now) sort t }
    {
        for u in 0..t {
            if self.equal(sort, u, t) {
                return false;
            }
        }
        true
    }
}
