//! A worker's filters: kept ones first, then those that it found in the pool.
ghost use Rattle.std.specs.Prelude.{◌≡◌, ◌++◌, ◌∷◌, [], if◌then◌else◌, map, true, false, Some, None, IfOk, OnOk, ◌+◌, ◌≤◌, length, take};
ghost use Rattle.sw_filter.specs.Filters.{AreNarrow};
ghost use Rattle.sw_filter.specs.Views.{FirstRejects};
ghost use Rattle.sw_hand.specs.Hands.{used_from};

use sqlite_items::Items;
use std::alloc::{AllocError, Global};
use std::sync::Wait;
use sw_core::{Kept, Settled, copy_filter};
use sw_filter::{Candidates, Filter, Mark, Mode, Shown, View};
use sw_log::copy_body;
use sw_logic::Formula;
use sw_meaning::Protocol;
use sw_pool::{Cursor, Pool, Seen};
use sw_template::Body;
use sw_walk::Walk;

/// What a worker works for: the classes of a space over a protocol, in a mode, as one of so many
/// workers that share a pool.
#[derive(Clone, Copy)]
pub struct Task<'a, B> {
    pub protocol: &'a Protocol,
    pub space: &'a B,
    pub pool: &'a Pool,
    pub mode: Mode,
    pub workers: u32,
    pub worker: u32,
}

/// The filters of a worker in a round. `mine` shows those that it kept, in the order of `kept`, each
/// with its token; `others` those that it found in the pool, each with its token in `found`. `used`
/// tells of each kept filter whether it rejected a class since the last `clear` or `advance`.
#[derive(Drop)]
pub struct Hand<'a, B> {
    pub mine: View<'a, B>,
    pub others: View<'a, B>,
    pub cursor: Cursor,
    pub kept: Items<Kept>,
    pub tokens: Vec<Seen>,
    pub found: Vec<Seen>,
    pub used: Vec<bool>,
}

/// What a worker hands back of a round: the parts that it drew, in order, and each settled once; the
/// filters that it kept, each with its token and whether the worker published it itself.
#[derive(Drop)]
pub struct Handed {
    pub drawn: Items<u64>,
    pub kept: Items<Kept>,
    pub tokens: Vec<Seen>,
    pub own: Items<bool>,
    pub settled: Items<Settled>,
}

impl<'a, B: Candidates + Walk> Task<'a, B> {
    ghost use Rattle.sw_hand.specs.Hands.{search_of, Serves, IsView, IsHand, AreTokens, Grows, IsGoodBy, AreUnused, Rejects};
    ghost use Rattle.sw_filter.specs.declared.view.Mark.TheVariants.{Live};
    ghost use Rattle.sw_pool.specs.Pools.{IsShown, filter_of};
    ghost use Rattle.sw_walk.specs.Parts.{IsClass};

    /// A hand without filters.
    pub fn hand(&self, alloc: Global) -> Hand<'a, B>
        ensures mine { IsView (search_of self.now.protocol.now (B.template self.now.space.now) self.now.mode self.now.workers) self.now.space.now [] result.mine.protocol.now result.mine.space.now result.mine.mode result.mine.advanced result.mine.shown.items }
        ensures others { IsView (search_of self.now.protocol.now (B.template self.now.space.now) self.now.mode self.now.workers) self.now.space.now [] result.others.protocol.now result.others.space.now result.others.mode result.others.advanced result.others.shown.items }
        ensures hand { IsHand (search_of self.now.protocol.now (B.template self.now.space.now) self.now.mode self.now.workers) self.now.pool.now self.now.worker [] result.mine.shown.items result.kept result.tokens.items result.used.items }
        ensures found { AreTokens self.now.pool.now result.found.items result.others.shown.items }
        ensures none { result.kept ≡ [] }
    {
        Hand {
            mine: View::new(alloc, self.protocol, self.space, self.mode),
            others: View::new(alloc, self.protocol, self.space, self.mode),
            cursor: Cursor::new(alloc),
            kept: Items::new(alloc),
            tokens: Vec::new(alloc),
            found: Vec::new(alloc),
            used: Vec::new(alloc),
        }
    }

    /// Adds the filters of the pool that were not found yet, marked under the formulas; whether there
    /// were some.
    pub fn refresh(
        &self,
        alloc: Global,
        hand: &mut Hand<'a, B>,
        formulas: &[Formula],
    ) -> Result<bool, AllocError>
        requires serves { Serves (search_of self.now.protocol.now (B.template self.now.space.now) self.now.mode self.now.workers) (B.part_lists self.now.space.now) (B.has self.now.space.now) (B.formula_of self.now.space.now) }
        requires narrow { AreNarrow formulas.now }
        requires mine { IsView (search_of self.now.protocol.now (B.template self.now.space.now) self.now.mode self.now.workers) self.now.space.now formulas.now hand.old.mine.protocol.now hand.old.mine.space.now hand.old.mine.mode hand.old.mine.advanced hand.old.mine.shown.items }
        requires others { IsView (search_of self.now.protocol.now (B.template self.now.space.now) self.now.mode self.now.workers) self.now.space.now formulas.now hand.old.others.protocol.now hand.old.others.space.now hand.old.others.mode hand.old.others.advanced hand.old.others.shown.items }
        requires hand { IsHand (search_of self.now.protocol.now (B.template self.now.space.now) self.now.mode self.now.workers) self.now.pool.now self.now.worker formulas.now hand.old.mine.shown.items hand.old.kept hand.old.tokens.items hand.old.used.items }
        requires found { AreTokens self.now.pool.now hand.old.found.items hand.old.others.shown.items }
        ensures mine { IfOk result (λ _. IsView (search_of self.now.protocol.now (B.template self.now.space.now) self.now.mode self.now.workers) self.now.space.now formulas.now hand.new.mine.protocol.now hand.new.mine.space.now hand.new.mine.mode hand.new.mine.advanced hand.new.mine.shown.items) }
        ensures others { IfOk result (λ _. IsView (search_of self.now.protocol.now (B.template self.now.space.now) self.now.mode self.now.workers) self.now.space.now formulas.now hand.new.others.protocol.now hand.new.others.space.now hand.new.others.mode hand.new.others.advanced hand.new.others.shown.items) }
        ensures hand { IfOk result (λ _. IsHand (search_of self.now.protocol.now (B.template self.now.space.now) self.now.mode self.now.workers) self.now.pool.now self.now.worker formulas.now hand.new.mine.shown.items hand.new.kept hand.new.tokens.items hand.new.used.items) }
        ensures found { IfOk result (λ _. AreTokens self.now.pool.now hand.new.found.items hand.new.others.shown.items) }
        ensures kept { IfOk result (λ _. hand.new.kept ≡ hand.old.kept) }
        ensures used { IfOk result (λ _. hand.new.used.items ≡ hand.old.used.items) }
        ensures stays { hand.new.mine ≡ hand.old.mine }
        ensures none { IfOk result (λ some. some ≡ false → hand.new.others.shown.items ≡ hand.old.others.shown.items) }
    {
        let found = self
            .pool
            .refresh(alloc, self.protocol, &mut hand.cursor, &mut hand.others)?;
        if found.is_empty() {
            return Ok(false);
        }
        hand.others.advance(formulas);
        push_all(&mut hand.found, found)?;
        Ok(true)
    }

    /// Marks the filters under a list that begins with the one before, of which `from` is the length; none
    /// counts as used then.
    pub fn advance(
        &self,
        hand: &mut Hand<'a, B>,
        formulas: &[Formula],
        from: usize,
    ) -> Result<(), AllocError>
        requires serves { Serves (search_of self.now.protocol.now (B.template self.now.space.now) self.now.mode self.now.workers) (B.part_lists self.now.space.now) (B.has self.now.space.now) (B.formula_of self.now.space.now) }
        requires narrow { AreNarrow formulas.now }
        requires from { from ≤ length formulas.now }
        requires mine { IsView (search_of self.now.protocol.now (B.template self.now.space.now) self.now.mode self.now.workers) self.now.space.now (take from formulas.now) hand.old.mine.protocol.now hand.old.mine.space.now hand.old.mine.mode hand.old.mine.advanced hand.old.mine.shown.items }
        requires others { IsView (search_of self.now.protocol.now (B.template self.now.space.now) self.now.mode self.now.workers) self.now.space.now (take from formulas.now) hand.old.others.protocol.now hand.old.others.space.now hand.old.others.mode hand.old.others.advanced hand.old.others.shown.items }
        requires hand { IsHand (search_of self.now.protocol.now (B.template self.now.space.now) self.now.mode self.now.workers) self.now.pool.now self.now.worker (take from formulas.now) hand.old.mine.shown.items hand.old.kept hand.old.tokens.items hand.old.used.items }
        requires found { AreTokens self.now.pool.now hand.old.found.items hand.old.others.shown.items }
        ensures mine { IfOk result (λ _. IsView (search_of self.now.protocol.now (B.template self.now.space.now) self.now.mode self.now.workers) self.now.space.now formulas.now hand.new.mine.protocol.now hand.new.mine.space.now hand.new.mine.mode hand.new.mine.advanced hand.new.mine.shown.items) }
        ensures others { IfOk result (λ _. IsView (search_of self.now.protocol.now (B.template self.now.space.now) self.now.mode self.now.workers) self.now.space.now formulas.now hand.new.others.protocol.now hand.new.others.space.now hand.new.others.mode hand.new.others.advanced hand.new.others.shown.items) }
        ensures hand { IfOk result (λ _. IsHand (search_of self.now.protocol.now (B.template self.now.space.now) self.now.mode self.now.workers) self.now.pool.now self.now.worker formulas.now hand.new.mine.shown.items hand.new.kept hand.new.tokens.items hand.new.used.items) }
        ensures found { IfOk result (λ _. AreTokens self.now.pool.now hand.new.found.items hand.new.others.shown.items) }
        ensures kept { IfOk result (λ _. hand.new.kept ≡ hand.old.kept) }
        ensures unused { IfOk result (λ _. AreUnused hand.new.used.items) }
    {
        hand.mine.advance(formulas);
        hand.others.advance(formulas);
        unmark(&mut hand.used);
        Ok(())
    }

    /// No filter counts as used.
    pub fn clear(&self, hand: &mut Hand<'a, B>, formulas: &[Formula]) -> Result<(), AllocError>
        requires mine { IsView (search_of self.now.protocol.now (B.template self.now.space.now) self.now.mode self.now.workers) self.now.space.now formulas.now hand.old.mine.protocol.now hand.old.mine.space.now hand.old.mine.mode hand.old.mine.advanced hand.old.mine.shown.items }
        requires others { IsView (search_of self.now.protocol.now (B.template self.now.space.now) self.now.mode self.now.workers) self.now.space.now formulas.now hand.old.others.protocol.now hand.old.others.space.now hand.old.others.mode hand.old.others.advanced hand.old.others.shown.items }
        requires hand { IsHand (search_of self.now.protocol.now (B.template self.now.space.now) self.now.mode self.now.workers) self.now.pool.now self.now.worker formulas.now hand.old.mine.shown.items hand.old.kept hand.old.tokens.items hand.old.used.items }
        requires found { AreTokens self.now.pool.now hand.old.found.items hand.old.others.shown.items }
        ensures mine { IfOk result (λ _. IsView (search_of self.now.protocol.now (B.template self.now.space.now) self.now.mode self.now.workers) self.now.space.now formulas.now hand.new.mine.protocol.now hand.new.mine.space.now hand.new.mine.mode hand.new.mine.advanced hand.new.mine.shown.items) }
        ensures others { IfOk result (λ _. IsView (search_of self.now.protocol.now (B.template self.now.space.now) self.now.mode self.now.workers) self.now.space.now formulas.now hand.new.others.protocol.now hand.new.others.space.now hand.new.others.mode hand.new.others.advanced hand.new.others.shown.items) }
        ensures hand { IfOk result (λ _. IsHand (search_of self.now.protocol.now (B.template self.now.space.now) self.now.mode self.now.workers) self.now.pool.now self.now.worker formulas.now hand.new.mine.shown.items hand.new.kept hand.new.tokens.items hand.new.used.items) }
        ensures found { IfOk result (λ _. AreTokens self.now.pool.now hand.new.found.items hand.new.others.shown.items) }
        ensures kept { IfOk result (λ _. hand.new.kept ≡ hand.old.kept) }
        ensures unused { IfOk result (λ _. AreUnused hand.new.used.items) }
    {
        unmark(&mut hand.used);
        Ok(())
    }

    /// Whether a live filter refutes the class: it is used then, and kept for this class if it was not kept
    /// yet. Of the kept ones the first such is taken, and only then one that was found. Where none of these
    /// refutes it, those that the pool has gained are found, and sifted too.
    pub fn sift(
        &self,
        alloc: Global,
        hand: &mut Hand<'a, B>,
        formulas: &[Formula],
        body: &Body,
    ) -> Result<bool, AllocError>
        requires serves { Serves (search_of self.now.protocol.now (B.template self.now.space.now) self.now.mode self.now.workers) (B.part_lists self.now.space.now) (B.has self.now.space.now) (B.formula_of self.now.space.now) }
        requires class { IsClass (B.part_lists self.now.space.now) body.now }
        requires narrow { AreNarrow formulas.now }
        requires mine { IsView (search_of self.now.protocol.now (B.template self.now.space.now) self.now.mode self.now.workers) self.now.space.now formulas.now hand.old.mine.protocol.now hand.old.mine.space.now hand.old.mine.mode hand.old.mine.advanced hand.old.mine.shown.items }
        requires others { IsView (search_of self.now.protocol.now (B.template self.now.space.now) self.now.mode self.now.workers) self.now.space.now formulas.now hand.old.others.protocol.now hand.old.others.space.now hand.old.others.mode hand.old.others.advanced hand.old.others.shown.items }
        requires hand { IsHand (search_of self.now.protocol.now (B.template self.now.space.now) self.now.mode self.now.workers) self.now.pool.now self.now.worker formulas.now hand.old.mine.shown.items hand.old.kept hand.old.tokens.items hand.old.used.items }
        requires found { AreTokens self.now.pool.now hand.old.found.items hand.old.others.shown.items }
        ensures mine { IfOk result (λ _. IsView (search_of self.now.protocol.now (B.template self.now.space.now) self.now.mode self.now.workers) self.now.space.now formulas.now hand.new.mine.protocol.now hand.new.mine.space.now hand.new.mine.mode hand.new.mine.advanced hand.new.mine.shown.items) }
        ensures others { IfOk result (λ _. IsView (search_of self.now.protocol.now (B.template self.now.space.now) self.now.mode self.now.workers) self.now.space.now formulas.now hand.new.others.protocol.now hand.new.others.space.now hand.new.others.mode hand.new.others.advanced hand.new.others.shown.items) }
        ensures hand { IfOk result (λ _. IsHand (search_of self.now.protocol.now (B.template self.now.space.now) self.now.mode self.now.workers) self.now.pool.now self.now.worker formulas.now hand.new.mine.shown.items hand.new.kept hand.new.tokens.items hand.new.used.items) }
        ensures found { IfOk result (λ _. AreTokens self.now.pool.now hand.new.found.items hand.new.others.shown.items) }
        ensures grows { IfOk result (λ _. Grows hand.old.kept hand.old.used.items hand.new.kept hand.new.used.items) }
        ensures good { IfOk result (λ rejected. rejected ≡ true → IsGoodBy (search_of self.now.protocol.now (B.template self.now.space.now) self.now.mode self.now.workers) formulas.now hand.new.kept hand.new.used.items body.now.cubes) }
        ensures passed { IfOk result (λ rejected. rejected ≡ false → FirstRejects self.now.protocol.now (B.formula_of self.now.space.now body.now) hand.new.mine.shown.items None × FirstRejects self.now.protocol.now (B.formula_of self.now.space.now body.now) hand.new.others.shown.items None) }
    {
        if let Some(place) = self.first_in(&hand.mine, formulas, body) {
            self.use_kept(hand, formulas, body, place);
            return Ok(true);
        }
        if self.sift_found(alloc, hand, formulas, body)? {
            return Ok(true);
        }
        if !self.refresh(alloc, hand, formulas)? {
            return Ok(false);
        }
        self.sift_found(alloc, hand, formulas, body)
    }

    /// Publishes a filter that rejects a class which none in the hand rejects, and keeps it as used.
    pub fn keep<H: Wait>(
        &self,
        rt: &H,
        alloc: Global,
        hand: &mut Hand<'a, B>,
        formulas: &[Formula],
        body: &Body,
        filter: Filter,
    ) -> Result<(), AllocError>
        requires serves { Serves (search_of self.now.protocol.now (B.template self.now.space.now) self.now.mode self.now.workers) (B.part_lists self.now.space.now) (B.has self.now.space.now) (B.formula_of self.now.space.now) }
        requires class { IsClass (B.part_lists self.now.space.now) body.now }
        requires narrow { AreNarrow formulas.now }
        requires mine { IsView (search_of self.now.protocol.now (B.template self.now.space.now) self.now.mode self.now.workers) self.now.space.now formulas.now hand.old.mine.protocol.now hand.old.mine.space.now hand.old.mine.mode hand.old.mine.advanced hand.old.mine.shown.items }
        requires others { IsView (search_of self.now.protocol.now (B.template self.now.space.now) self.now.mode self.now.workers) self.now.space.now formulas.now hand.old.others.protocol.now hand.old.others.space.now hand.old.others.mode hand.old.others.advanced hand.old.others.shown.items }
        requires hand { IsHand (search_of self.now.protocol.now (B.template self.now.space.now) self.now.mode self.now.workers) self.now.pool.now self.now.worker formulas.now hand.old.mine.shown.items hand.old.kept hand.old.tokens.items hand.old.used.items }
        requires found { AreTokens self.now.pool.now hand.old.found.items hand.old.others.shown.items }
        requires passed { FirstRejects self.now.protocol.now (B.formula_of self.now.space.now body.now) hand.old.mine.shown.items None }
        requires rejects { Rejects (search_of self.now.protocol.now (B.template self.now.space.now) self.now.mode self.now.workers) formulas.now body.now.cubes filter }
        ensures mine { IfOk result (λ _. IsView (search_of self.now.protocol.now (B.template self.now.space.now) self.now.mode self.now.workers) self.now.space.now formulas.now hand.new.mine.protocol.now hand.new.mine.space.now hand.new.mine.mode hand.new.mine.advanced hand.new.mine.shown.items) }
        ensures others { IfOk result (λ _. IsView (search_of self.now.protocol.now (B.template self.now.space.now) self.now.mode self.now.workers) self.now.space.now formulas.now hand.new.others.protocol.now hand.new.others.space.now hand.new.others.mode hand.new.others.advanced hand.new.others.shown.items) }
        ensures hand { IfOk result (λ _. IsHand (search_of self.now.protocol.now (B.template self.now.space.now) self.now.mode self.now.workers) self.now.pool.now self.now.worker formulas.now hand.new.mine.shown.items hand.new.kept hand.new.tokens.items hand.new.used.items) }
        ensures found { IfOk result (λ _. AreTokens self.now.pool.now hand.new.found.items hand.new.others.shown.items) }
        ensures grows { IfOk result (λ _. Grows hand.old.kept hand.old.used.items hand.new.kept hand.new.used.items) }
        ensures good { IfOk result (λ _. IsGoodBy (search_of self.now.protocol.now (B.template self.now.space.now) self.now.mode self.now.workers) formulas.now hand.new.kept hand.new.used.items body.now.cubes) }
    {
        let Ok(token) = self.pool.publish(rt, filter) else {
            return Err(AllocError);
        };
        hand.cursor.note(&token)?;
        let shown = Shown {
            filter: self.pool.at(&token),
            own: true,
            mark: Mark::Live,
        };
        self.hold(alloc, hand, formulas, body, shown, token)
    }

    /// The place of the view's first live filter that refutes the class.
    fn first_in(&self, view: &View<'a, B>, formulas: &[Formula], body: &Body) -> Option<u32>
        requires serves { Serves (search_of self.now.protocol.now (B.template self.now.space.now) self.now.mode self.now.workers) (B.part_lists self.now.space.now) (B.has self.now.space.now) (B.formula_of self.now.space.now) }
        requires class { IsClass (B.part_lists self.now.space.now) body.now }
        requires view { IsView (search_of self.now.protocol.now (B.template self.now.space.now) self.now.mode self.now.workers) self.now.space.now formulas.now view.now.protocol.now view.now.space.now view.now.mode view.now.advanced view.now.shown.items }
        ensures { FirstRejects self.now.protocol.now (B.formula_of self.now.space.now body.now) view.now.shown.items result }
    {
        view.sift(body)
    }

    /// Whether one of the filters that were found refutes a class that no kept one does. The first such is
    /// kept then, as used.
    fn sift_found(
        &self,
        alloc: Global,
        hand: &mut Hand<'a, B>,
        formulas: &[Formula],
        body: &Body,
    ) -> Result<bool, AllocError>
        requires serves { Serves (search_of self.now.protocol.now (B.template self.now.space.now) self.now.mode self.now.workers) (B.part_lists self.now.space.now) (B.has self.now.space.now) (B.formula_of self.now.space.now) }
        requires class { IsClass (B.part_lists self.now.space.now) body.now }
        requires mine { IsView (search_of self.now.protocol.now (B.template self.now.space.now) self.now.mode self.now.workers) self.now.space.now formulas.now hand.old.mine.protocol.now hand.old.mine.space.now hand.old.mine.mode hand.old.mine.advanced hand.old.mine.shown.items }
        requires others { IsView (search_of self.now.protocol.now (B.template self.now.space.now) self.now.mode self.now.workers) self.now.space.now formulas.now hand.old.others.protocol.now hand.old.others.space.now hand.old.others.mode hand.old.others.advanced hand.old.others.shown.items }
        requires hand { IsHand (search_of self.now.protocol.now (B.template self.now.space.now) self.now.mode self.now.workers) self.now.pool.now self.now.worker formulas.now hand.old.mine.shown.items hand.old.kept hand.old.tokens.items hand.old.used.items }
        requires found { AreTokens self.now.pool.now hand.old.found.items hand.old.others.shown.items }
        requires passed { FirstRejects self.now.protocol.now (B.formula_of self.now.space.now body.now) hand.old.mine.shown.items None }
        ensures mine { IfOk result (λ _. IsView (search_of self.now.protocol.now (B.template self.now.space.now) self.now.mode self.now.workers) self.now.space.now formulas.now hand.new.mine.protocol.now hand.new.mine.space.now hand.new.mine.mode hand.new.mine.advanced hand.new.mine.shown.items) }
        ensures others { IfOk result (λ _. IsView (search_of self.now.protocol.now (B.template self.now.space.now) self.now.mode self.now.workers) self.now.space.now formulas.now hand.new.others.protocol.now hand.new.others.space.now hand.new.others.mode hand.new.others.advanced hand.new.others.shown.items) }
        ensures hand { IfOk result (λ _. IsHand (search_of self.now.protocol.now (B.template self.now.space.now) self.now.mode self.now.workers) self.now.pool.now self.now.worker formulas.now hand.new.mine.shown.items hand.new.kept hand.new.tokens.items hand.new.used.items) }
        ensures found { IfOk result (λ _. AreTokens self.now.pool.now hand.new.found.items hand.new.others.shown.items) }
        ensures grows { IfOk result (λ _. Grows hand.old.kept hand.old.used.items hand.new.kept hand.new.used.items) }
        ensures good { IfOk result (λ rejected. rejected ≡ true → IsGoodBy (search_of self.now.protocol.now (B.template self.now.space.now) self.now.mode self.now.workers) formulas.now hand.new.kept hand.new.used.items body.now.cubes) }
        ensures stays { IfOk result (λ rejected. rejected ≡ false → hand.new ≡ hand.old) }
        ensures passed { IfOk result (λ rejected. rejected ≡ false → FirstRejects self.now.protocol.now (B.formula_of self.now.space.now body.now) hand.new.others.shown.items None) }
    {
        let Some(place) = self.first_in(&hand.others, formulas, body) else {
            return Ok(false);
        };
        let shown = hand.others.shown[place as usize];
        let token = hand.found[place as usize].again();
        self.hold(alloc, hand, formulas, body, shown, token)?;
        Ok(true)
    }

    /// Marks a kept filter that rejects the class as used.
    fn use_kept(&self, hand: &mut Hand<'a, B>, formulas: &[Formula], body: &Body, place: u32)
        requires serves { Serves (search_of self.now.protocol.now (B.template self.now.space.now) self.now.mode self.now.workers) (B.part_lists self.now.space.now) (B.has self.now.space.now) (B.formula_of self.now.space.now) }
        requires class { IsClass (B.part_lists self.now.space.now) body.now }
        requires mine { IsView (search_of self.now.protocol.now (B.template self.now.space.now) self.now.mode self.now.workers) self.now.space.now formulas.now hand.old.mine.protocol.now hand.old.mine.space.now hand.old.mine.mode hand.old.mine.advanced hand.old.mine.shown.items }
        requires hand { IsHand (search_of self.now.protocol.now (B.template self.now.space.now) self.now.mode self.now.workers) self.now.pool.now self.now.worker formulas.now hand.old.mine.shown.items hand.old.kept hand.old.tokens.items hand.old.used.items }
        requires rejects { FirstRejects self.now.protocol.now (B.formula_of self.now.space.now body.now) hand.old.mine.shown.items (Some place) }
        ensures mine { hand.new.mine ≡ hand.old.mine }
        ensures others { hand.new.others ≡ hand.old.others }
        ensures hand { IsHand (search_of self.now.protocol.now (B.template self.now.space.now) self.now.mode self.now.workers) self.now.pool.now self.now.worker formulas.now hand.new.mine.shown.items hand.new.kept hand.new.tokens.items hand.new.used.items }
        ensures found { hand.new.found ≡ hand.old.found }
        ensures grows { Grows hand.old.kept hand.old.used.items hand.new.kept hand.new.used.items }
        ensures good { IsGoodBy (search_of self.now.protocol.now (B.template self.now.space.now) self.now.mode self.now.workers) formulas.now hand.new.kept hand.new.used.items body.now.cubes }
    {
        hand.used[place as usize] = true;
    }

    /// Keeps a live filter for the class that it rejects, and none that is kept does.
    fn hold(
        &self,
        alloc: Global,
        hand: &mut Hand<'a, B>,
        formulas: &[Formula],
        body: &Body,
        shown: Shown<'a>,
        token: Seen,
    ) -> Result<(), AllocError>
        requires serves { Serves (search_of self.now.protocol.now (B.template self.now.space.now) self.now.mode self.now.workers) (B.part_lists self.now.space.now) (B.has self.now.space.now) (B.formula_of self.now.space.now) }
        requires class { IsClass (B.part_lists self.now.space.now) body.now }
        requires mine { IsView (search_of self.now.protocol.now (B.template self.now.space.now) self.now.mode self.now.workers) self.now.space.now formulas.now hand.old.mine.protocol.now hand.old.mine.space.now hand.old.mine.mode hand.old.mine.advanced hand.old.mine.shown.items }
        requires hand { IsHand (search_of self.now.protocol.now (B.template self.now.space.now) self.now.mode self.now.workers) self.now.pool.now self.now.worker formulas.now hand.old.mine.shown.items hand.old.kept hand.old.tokens.items hand.old.used.items }
        requires passed { FirstRejects self.now.protocol.now (B.formula_of self.now.space.now body.now) hand.old.mine.shown.items None }
        requires rejects { Rejects (search_of self.now.protocol.now (B.template self.now.space.now) self.now.mode self.now.workers) formulas.now body.now.cubes shown.filter.now }
        requires mark { shown.mark ≡ Live }
        requires token { IsShown self.now.pool.now token × (filter_of token ≡ shown.filter.now) }
        ensures mine { IfOk result (λ _. IsView (search_of self.now.protocol.now (B.template self.now.space.now) self.now.mode self.now.workers) self.now.space.now formulas.now hand.new.mine.protocol.now hand.new.mine.space.now hand.new.mine.mode hand.new.mine.advanced hand.new.mine.shown.items) }
        ensures others { hand.new.others ≡ hand.old.others }
        ensures hand { IfOk result (λ _. IsHand (search_of self.now.protocol.now (B.template self.now.space.now) self.now.mode self.now.workers) self.now.pool.now self.now.worker formulas.now hand.new.mine.shown.items hand.new.kept hand.new.tokens.items hand.new.used.items) }
        ensures found { hand.new.found ≡ hand.old.found }
        ensures grows { IfOk result (λ _. Grows hand.old.kept hand.old.used.items hand.new.kept hand.new.used.items) }
        ensures good { IfOk result (λ _. IsGoodBy (search_of self.now.protocol.now (B.template self.now.space.now) self.now.mode self.now.workers) formulas.now hand.new.kept hand.new.used.items body.now.cubes) }
    {
        let Ok(under) = u32::try_from(formulas.len()) else {
            return Err(AllocError);
        };
        if hand.mine.shown.len() >= u32::MAX as usize {
            return Err(AllocError);
        }
        let kept = Kept {
            filter: copy_filter(alloc, shown.filter)?,
            worker: self.worker,
            body: copy_body(alloc, body)?,
            under,
        };
        hand.kept.push(kept)?;
        hand.tokens.push(token)?;
        hand.used.push(true)?;
        hand.mine.shown.push(shown)?;
        Ok(())
    }
}

/// Puts the tokens behind the others.
fn push_all(tokens: &mut Vec<Seen>, more: Vec<Seen>) -> Result<(), AllocError>
    ensures { OnOk result (tokens.new.items ≡ tokens.old.items ++ more.items) }
{
    for token in more {
        tokens.push(token)?;
    }
    Ok(())
}

/// Puts the number behind the others where it is used.
fn push_where(used: bool, number: u64, places: &mut Items<u32>) -> Result<(), AllocError>
    ensures { OnOk result (places.new ≡ places.old ++ (if used then number ∷ [] else [])) }
{
    if used {
        let Ok(place) = u32::try_from(number) else {
            return Err(AllocError);
        };
        places.push(place)?;
    }
    Ok(())
}

/// Nothing counts as used.
fn unmark(used: &mut Vec<bool>)
    ensures length { length used.new.items ≡ length used.old.items }
    ensures unused { used_from 0 used.new.items ≡ [] }
{
    for mark in used.iter_mut() {
        *mark = false;
    }
}

impl<B> Hand<'_, B> {
    /// The places of the kept filters that are used, rising, each with this number of others before it.
    pub fn used_places(&self, alloc: Global, from: u32) -> Result<Items<u32>, AllocError>
        ensures { IfOk result (λ places. places ≡ map (λ k. from + k) (used_from 0 self.now.used.items)) }
    {
        let mut places = Items::new(alloc);
        let mut number = from as u64;
        for used in self.used.as_slice() {
            push_where(*used, number, &mut places)?;
            number += 1;
        }
        Ok(places)
    }
}
