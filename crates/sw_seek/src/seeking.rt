//! A worker that looks for a class that joins: it draws parts until the end, or until it finds one.
ghost use Rattle.std.specs.Prelude.{◌≡◌, ◌≤◌, length, IfOk, IfErr};
ghost use Rattle.sw_filter.specs.declared.filter.Mode.TheVariants.{Finish};
ghost use Rattle.sw_hand.specs.Hands.{search_of};
ghost use Rattle.sw_seek.specs.Seeking.{CanFinish, IsSought, IsCause};

use crate::considering::{Found, Seeking};
use crate::drawing::{Drew, Progress};
use crate::errors::FinishError;
use sqlite_items::Items;
use std::alloc::Global;
use std::sync::Wait;
use sw_claims::{ClaimSeat, Claims};
use sw_edge::Gate;
use sw_filter::Candidates;
use sw_hand::{Handed, Task};
use sw_logic::Formula;
use sw_template::Body;
use sw_truth::Refutation;
use sw_walk::Walk;

/// What a worker found: a class that joins with the refutations that show it, that none of its parts
/// has one, or that some worker stopped the search for this reason.
#[derive(Drop)]
pub enum Sought {
    Joins {
        body: Body,
        start: Refutation,
        steps: Items<Refutation>,
    },
    Done(Handed),
    Stopped(u64),
}

impl<'a, B: Candidates + Walk> Seeking<'_, 'a, B> {
    ghost use Rattle.sw_seek.specs.Steps.{CanSeek, searched};

    /// What the worker finds; before a class that joins is answered, the claims are stopped.
    fn search<H: Wait, G: Gate>(
        &self,
        rt: &H,
        alloc: Global,
        claims: &Claims,
        seat: &mut ClaimSeat,
        gate: &G,
    ) -> Result<Sought, FinishError>
        requires can { CanSeek B.template B.part_lists B.has B.formula_of self.now }
        requires claims { seat.old.object ≡ claims.now }
        requires parts { seat.old.view.parts ≡ length (B.part_lists self.now.task.now.space.now) }
        ensures claims { seat.new.object ≡ seat.old.object }
        ensures sought { IfOk result (IsSought (searched B.template self.now) self.now.task.now.pool.now self.now.task.now.worker self.now.entries.now self.now.budget seat.old.view seat.new.view) }
        ensures cause { IfErr result (IsCause (searched B.template self.now) self.now.entries.now self.now.budget) }
    {
        let mut hand = self.begin(alloc)?;
        let mut progress = Progress {
            drawn: Items::new(alloc),
            settled: Items::new(alloc),
        };
        match self.draw(rt, alloc, claims, seat, gate, &mut hand, &mut progress)? {
            Drew::Found(Found { body, start, steps }) => {
                claims.stop(seat, u64::from(self.task.worker) + 1);
                Ok(Sought::Joins { body, start, steps })
            }
            Drew::All => Ok(Sought::Done(self.hand_over(alloc, hand, progress)?)),
            Drew::Stopped(reason) => Ok(Sought::Stopped(reason)),
        }
    }
}

/// One worker's search. It draws a part, passes the gate, takes in what the pool has gained, and goes
/// through the classes of the part in order: each is sifted, and examined where no filter rejects it; a
/// counterexample is published and kept. Before a class that joins or an error is answered the claims
/// are stopped with the worker's number plus 1.
pub fn seek<'a, H: Wait, G: Gate, B: Candidates + Walk>(
    rt: &H,
    alloc: Global,
    task: &Task<'a, B>,
    entries: &[Formula],
    claims: &Claims,
    claim_seat: &mut ClaimSeat,
    budget: Option<u64>,
    gate: &G,
) -> Result<Sought, FinishError>
    requires mode { task.now.mode ≡ Finish }
    requires can { CanFinish task.now.protocol.now (B.template task.now.space.now) (B.part_lists task.now.space.now) (B.has task.now.space.now) (B.formula_of task.now.space.now) entries.now budget }
    requires claims { claim_seat.old.object ≡ claims.now }
    requires parts { claim_seat.old.view.parts ≡ length (B.part_lists task.now.space.now) }
    ensures claims { claim_seat.new.object ≡ claim_seat.old.object }
    ensures sought { IfOk result (IsSought (search_of task.now.protocol.now (B.template task.now.space.now) Finish task.now.workers) task.now.pool.now task.now.worker entries.now budget claim_seat.old.view claim_seat.new.view) }
    ensures cause { IfErr result (IsCause (search_of task.now.protocol.now (B.template task.now.space.now) Finish task.now.workers) entries.now budget) }
    ensures stopped { IfErr result (λ _. 1 ≤ claim_seat.new.view.seen) }
{
    let seeking = Seeking {
        task,
        entries,
        budget,
    };
    let sought = seeking.search(rt, alloc, claims, claim_seat, gate);
    if sought.is_err() {
        claims.stop(claim_seat, u64::from(task.worker) + 1);
    }
    sought
}
