//! In which clauses each literal stands.
ghost use Rattle.std.specs.Prelude.{◌≡◌, ◌*◌, ◌<◌, ◌≤◌, ◌^◌, [], length, slice_index_or, All, IfOk};
ghost use Rattle.sw_refute.specs.Satisfaction.{IsWellFormed};

use std::alloc::{AllocError, Global};
use sw_refute::{Clause, Cnf, Lit};

/// By a literal's number, the numbers of the clauses that have the literal, in their order.
#[derive(Drop)]
pub struct Occurrences {
    pub lists: Vec<Vec<u32>>,
}

impl Occurrences {
    ghost use Rattle.sw_sat.specs.Occurring.{lists_of, HasAdded, IsIndex};

    /// No literal stands in any clause.
    fn new(alloc: Global, variables: u32) -> Result<Occurrences, AllocError>
        ensures { IfOk result (λ occurrences. IsIndex variables [] (lists_of occurrences)) }
    {
        let mut lists = Vec::new(alloc);
        while lists.len() < 2 * variables as usize {
            lists.push(Vec::new(alloc))?;
        }
        Ok(Occurrences { lists })
    }

    /// The numbers of the clauses that have the literal.
    pub fn of(&self, lit: Lit) -> &[u32]
        requires within { lit.0 < length (lists_of self.now) }
        ensures { result.now ≡ slice_index_or (lists_of self.now) lit.0 [] }
    {
        self.lists[lit.0 as usize].as_slice()
    }

    /// Adds the clause of this number.
    pub fn add(&mut self, clause: &Clause, number: u32) -> Result<(), AllocError>
        requires within { All (λ l. l.0 < length (lists_of self.old)) clause.now.lits }
        ensures { IfOk result (λ _. HasAdded (lists_of self.old) clause.now.lits number (lists_of self.new)) }
    {
        for lit in clause.lits.as_slice() {
            self.lists[lit.0 as usize].push(number)?;
        }
        Ok(())
    }

    /// The occurrences in all clauses of the set.
    pub fn of_set(alloc: Global, cnf: &Cnf) -> Result<Occurrences, AllocError>
        requires well_formed { IsWellFormed cnf.now }
        requires numbered { length cnf.now.clauses ≤ 2 ^ 32 }
        ensures { IfOk result (λ occurrences. IsIndex cnf.now.variables cnf.now.clauses (lists_of occurrences)) }
    {
        let mut occurrences = Occurrences::new(alloc, cnf.variables)?;
        let clauses = cnf.clauses.as_slice();
        for number in 0..clauses.len() {
            occurrences.add(&clauses[number], number as u32)?;
        }
        Ok(occurrences)
    }
}
