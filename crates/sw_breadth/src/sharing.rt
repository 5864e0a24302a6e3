//! What the workers of a round share, and their seats at it.
ghost use Rattle.std.specs.Prelude.{◌≡◌, ◌-◌, ◌≤◌, All, IfOk, true, vec_len};
ghost use mathlib.Core.List.{IsPrefix};
ghost use Rattle.sw_claims.specs.ClaimsRule.{opened as claims_opened};
ghost use Rattle.sw_claims.specs.ClaimsSteps.{taken};
ghost use Rattle.sw_log.specs.LogRule.{opened as log_opened, Placed};
ghost use Rattle.sw_log.specs.LogSteps.{joined, longer_of, shorter_of};
ghost use Rattle.sw_breadth.specs.Joins.{AreSeats, AreFirst, IsPlace};

use std::alloc::{AllocError, Global};
use sw_claims::{ClaimSeat, Claims};
use sw_core::Entry;
use sw_log::{LogSeat, SharedLog};
use sw_pool::Pool;

/// The number of workers, of the filters of the rounds before, and the budget of a query.
#[derive(Clone, Copy)]
pub(crate) struct Figures {
    pub(crate) workers: u32,
    pub(crate) before: u32,
    pub(crate) budget: Option<u64>,
}

/// The claims on the parts and the log, which live for one round, and its figures.
#[derive(Drop)]
pub(crate) struct Shared {
    pub(crate) figures: Figures,
    pub(crate) claims: Claims,
    pub(crate) log: SharedLog,
}

/// A worker's seats at both.
#[derive(Drop)]
pub(crate) struct Places {
    pub(crate) claim: ClaimSeat,
    pub(crate) log: LogSeat,
}

impl Shared {
    /// New claims on so many parts and a log of these entries, and the first seats, which may split
    /// `seats - 1` times.
    pub(crate) fn new(
        alloc: Global,
        parts: u64,
        entries: Vec<Entry>,
        seats: u32,
        figures: Figures,
    ) -> Result<(Shared, Places), AllocError>
        requires parts { parts ≤ 8589934592 }
        requires seats { (1 ≤ seats) × (seats ≤ 65) }
        requires placed { Placed entries.items }
        ensures seats { IfOk result (λ made. AreSeats made.0 made.1) }
        ensures figures { IfOk result (λ made. made.0.figures ≡ figures) }
        ensures claim { IfOk result (λ made. made.1.claim.view ≡ claims_opened parts (seats - 1)) }
        ensures log { IfOk result (λ made. made.1.log.view ≡ log_opened entries.items (seats - 1)) }
    {
        let (claims, claim) = Claims::new(alloc, parts, seats)?;
        let (log, seat) = SharedLog::new(alloc, entries, seats)?;
        let shared = Shared {
            figures,
            claims,
            log,
        };
        Ok((shared, Places { claim, log: seat }))
    }

    /// Seats for so many workers, each beside their pool and what they share.
    pub(crate) fn split_all<'p>(
        &'p self,
        alloc: Global,
        first: &mut Places,
        workers: u32,
        pool: &'p Pool,
    ) -> Result<Vec<(Places, &'p Pool, &'p Shared)>, AllocError>
        requires seats { AreSeats self.now first.old }
        requires first { AreFirst first.old.claim.view.parts first.old.log.view.seen 0 workers first.old }
        ensures seats { AreSeats self.now first.new }
        ensures first { IfOk result (λ places. AreFirst first.old.claim.view.parts first.old.log.view.seen workers 0 first.new) }
        ensures len { IfOk result (λ places. vec_len places ≡ workers) }
        ensures new { IfOk result (λ places. All (λ place. IsPlace self.now first.old.claim.view.parts first.old.log.view.seen pool.now place.1.now place.2.now place.0) places.items) }
    {
        let mut places = Vec::new(alloc);
        for _ in 0..workers {
            let Some(claim) = self.claims.split(&mut first.claim) else {
                unreachable!();
            };
            let Some(log) = self.log.split(&mut first.log) else {
                unreachable!();
            };
            places.push((Places { claim, log }, pool, self))?;
        }
        Ok(places)
    }

    /// Takes a worker's seats into the first ones.
    pub(crate) fn join(&self, first: &mut Places, other: Places)
        requires seats { AreSeats self.now first.old × AreSeats self.now other }
        requires first { (first.old.claim.view.first ≡ true) × (first.old.log.view.first ≡ true) }
        ensures seats { AreSeats self.now first.new }
        ensures claim { first.new.claim.view ≡ taken first.old.claim.view other.claim.view }
        ensures log { first.new.log.view ≡ joined first.old.log.view other.log.view }
        ensures begins { IsPrefix (shorter_of first.old.log.view.seen other.log.view.seen) (longer_of first.old.log.view.seen other.log.view.seen) }
    {
        let Places { claim, log } = other;
        self.claims.join(&mut first.claim, claim);
        self.log.join(&mut first.log, log);
    }
}
