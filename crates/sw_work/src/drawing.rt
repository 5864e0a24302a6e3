//! The parts of a round: drawn until the end, and each settled.
ghost use Rattle.std.specs.Prelude.{◌≡◌, IfOk, IfErr, length};

use crate::bench::{Bench, Desk};
use crate::errors::BreadthError;
use sqlite_items::Items;
use std::alloc::Global;
use std::sync::Wait;
use sw_claims::{ClaimSeat, Claims, Drawn};
use sw_core::Settled;
use sw_edge::Gate;
use sw_filter::Candidates;
use sw_log::LogSeat;
use sw_walk::Walk;

/// The parts drawn, in order, and each settled.
#[derive(Drop)]
pub struct Progress {
    pub drawn: Items<u64>,
    pub settled: Items<Settled>,
}

/// What the draws of a round came to: the end, or a worker's reason to stop.
#[derive(Drop)]
pub enum Drew {
    All(Progress),
    Stopped(u64),
}

impl<'a, B: Candidates + Walk> Desk<'_, 'a, B> {
    ghost use Rattle.sw_work.specs.Works.{Gained};
    ghost use Rattle.sw_work.specs.Steps.{CanWork, Stands, IsDrew, FailsRound, searched};

    /// Draws parts until the end, and settles each after the gate.
    pub(crate) fn draw_parts<H: Wait, G: Gate>(
        &self,
        rt: &H,
        alloc: Global,
        bench: &mut Bench<'a, B>,
        claims: &Claims,
        claim_seat: &mut ClaimSeat,
        seat: &mut LogSeat,
        before: u32,
        gate: &G,
    ) -> Result<Drew, BreadthError>
        requires can { CanWork B.template B.part_lists B.has B.formula_of self.now.task.now self.now.budget }
        requires object { seat.old.object ≡ self.now.log.now }
        requires stands { Stands B.template self.now.task.now bench.old seat.old.view.seen }
        requires claims { claim_seat.old.object ≡ claims.now }
        requires parts { claim_seat.old.view.parts ≡ length (B.part_lists self.now.task.now.space.now) }
        ensures claims { claim_seat.new.object ≡ claim_seat.old.object }
        ensures object { seat.new.object ≡ seat.old.object }
        ensures gained { Gained (searched B.template self.now.task.now) self.now.task.now.worker seat.old.view seat.new.view }
        ensures stands { IfOk result (λ _. Stands B.template self.now.task.now bench.new seat.new.view.seen) }
        ensures drew { IfOk result (IsDrew (searched B.template self.now.task.now) self.now.task.now.worker before claim_seat.old.view claim_seat.new.view seat.old.view seat.new.view bench.new) }
        ensures cause { IfErr result (FailsRound (searched B.template self.now.task.now) self.now.budget claim_seat.old.view seat.old.view seat.new.view) }
    {
        let mut progress = Progress {
            drawn: Items::new(alloc),
            settled: Items::new(alloc),
        };
        for _ in rt.forever() {
            match claims.draw(claim_seat) {
                Drawn::Number(part) => {
                    gate.pass(self.task.worker, part);
                    let settled = self.settle_part(rt, alloc, bench, seat, part, before)?;
                    progress.drawn.push(part)?;
                    progress.settled.push(settled)?;
                }
                Drawn::AllDrawn => return Ok(Drew::All(progress)),
                Drawn::Stopped(reason) => return Ok(Drew::Stopped(reason)),
            }
        }
        unreachable!()
    }
}
