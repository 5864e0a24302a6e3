//! A view of filters, with marks that tell which of them are live.
ghost use Rattle.std.specs.Prelude.{◌≡◌, ◌↔◌, ◌≤◌, ◌<◌, ◌++◌, ◌∷◌, ◌^◌, [], IsTrue, length, take, IfOk, IfErr};
ghost use Rattle.sw_meaning.specs.WellFormed.{IsWellFormed};
ghost use Rattle.sw_filter.specs.Filters.{AreNarrow};

use crate::admitting::Admitted;
use crate::candidates::Candidates;
use crate::filter::{Filter, Mode};
use crate::live::is_live;
use std::alloc::{AllocError, Global};
use sw_logic::Formula;
use sw_meaning::Protocol;
use sw_template::Body;

/// What a view knows of a filter: nothing yet, or whether it is live under the list that the view was
/// last advanced to.
#[derive(Clone, Copy, PartialEq, Eq)]
pub enum Mark {
    New,
    Live,
    Dead,
}

/// A filter that a view shows, and whether its own worker found it.
#[derive(Clone, Copy)]
pub struct Shown<'a> {
    pub filter: &'a Filter,
    pub own: bool,
    pub mark: Mark,
}

impl Filter {
    ghost use Rattle.sw_filter.specs.Filters.{Refutes};

    /// Whether the filter refutes the formula of the body.
    pub fn refutes<B: Candidates>(&self, protocol: &Protocol, space: &B, body: &Body) -> bool
        requires { B.has space.now body.now }
        ensures { IsTrue result ↔ Refutes protocol.now self.now (B.formula_of space.now body.now) }
    {
        let sig = &protocol.signature;
        match self {
            Filter::Start { structure } => !space.holds_body(body, sig, structure),
            Filter::Move {
                pair,
                transition: _,
                args: _,
                under: _,
            } => {
                space.holds_body(body, sig, &pair.before)
                    && !space.holds_body(body, sig, &pair.after)
            }
            Filter::Bad {
                pair,
                transition: _,
                args: _,
                under: _,
            } => { space.holds_body(body, sig, &pair.before) }
        }
    }
}

impl Shown<'_> {
    ghost use Rattle.sw_filter.specs.Views.{Tells, IsMarked, Rejects};

    fn rejects<B: Candidates>(&self, protocol: &Protocol, space: &B, body: &Body) -> bool
        requires { B.has space.now body.now }
        ensures { IsTrue result ↔ Rejects protocol.now (B.formula_of space.now body.now) self.now }
    {
        match self.mark {
            Mark::Live => self.filter.refutes(protocol, space, body),
            _ => false,
        }
    }

    /// The mark under a list that begins with `from` formulas under which the present one was made.
    fn mark_under(&self, protocol: &Protocol, mode: Mode, list: &[Formula], from: usize) -> Mark
        requires well_formed { IsWellFormed protocol.now }
        requires list { AreNarrow list.now }
        requires from { from ≤ length list.now }
        requires told { Tells protocol.now mode (take from list.now) self.now.filter.now self.now.mark }
        ensures { IsMarked protocol.now mode list.now self.now.filter.now result }
    {
        let live = match self.mark {
            Mark::New => is_live(protocol, mode, list, self.filter),
            Mark::Live => is_live(protocol, mode, &list[from..], self.filter),
            Mark::Dead => false,
        };
        if live { Mark::Live } else { Mark::Dead }
    }
}

/// The filters that a worker knows, in the order in which it came to know them. `advanced` is the
/// length of the list that the view was last advanced to.
#[derive(Drop)]
pub struct View<'a, B> {
    pub protocol: &'a Protocol,
    pub space: &'a B,
    pub mode: Mode,
    pub advanced: usize,
    pub shown: Vec<Shown<'a>>,
}

impl<'a, B: Candidates> View<'a, B> {
    ghost use Rattle.sw_filter.specs.declared.view.Shown.{Shown as Entry};
    ghost use Rattle.sw_filter.specs.Filters.{IsAdmitted};
    ghost use Rattle.sw_filter.specs.Views.{IsNew, AreTold, AreMarked, known_of, FirstRejects};

    /// A view of no filters.
    pub fn new(alloc: Global, protocol: &'a Protocol, space: &'a B, mode: Mode) -> View<'a, B>
        ensures protocol { result.protocol.now ≡ protocol.now }
        ensures space { result.space.now ≡ space.now }
        ensures mode { result.mode ≡ mode }
        ensures advanced { result.advanced ≡ 0 }
        ensures none { result.shown.items ≡ [] }
    {
        View {
            protocol,
            space,
            mode,
            advanced: 0,
            shown: Vec::new(alloc),
        }
    }

    /// Shows a further filter, of which nothing is known until the next `advance`.
    pub fn add(&mut self, filter: Admitted<'a>, own: bool) -> Result<(), AllocError>
        requires { IsAdmitted self.old.protocol.now filter }
        ensures same { (self.new.protocol.now ≡ self.old.protocol.now) × (self.new.space.now ≡ self.old.space.now) × (self.new.mode ≡ self.old.mode) × (self.new.advanced ≡ self.old.advanced) }
        ensures added { IfOk result (λ _. (e : Entry) × (self.new.shown.items ≡ self.old.shown.items ++ e ∷ []) × IsNew filter.entry own e) }
        ensures refused { IfErr result (λ _. self.new.shown.items ≡ self.old.shown.items) }
        ensures room { IfOk result (λ _. length self.new.shown.items < 2 ^ 32) }
    {
        if self.shown.len() >= u32::MAX as usize {
            return Err(AllocError);
        }
        self.shown.push(Shown {
            filter: filter.filter(),
            own,
            mark: Mark::New,
        })?;
        Ok(())
    }

    /// Marks each filter live or dead under the list, which begins with the one that the view was last
    /// advanced to. A filter that is dead stays so; a live one is tested on the further formulas alone.
    pub fn advance(&mut self, list: &[Formula])
        requires well_formed { IsWellFormed self.old.protocol.now }
        requires list { AreNarrow list.now }
        requires longer { self.old.advanced ≤ length list.now }
        requires begins { AreTold self.old.protocol.now self.old.mode (take self.old.advanced list.now) self.old.shown.items }
        ensures same { (self.new.protocol.now ≡ self.old.protocol.now) × (self.new.space.now ≡ self.old.space.now) × (self.new.mode ≡ self.old.mode) }
        ensures advanced { self.new.advanced ≡ length list.now }
        ensures known { known_of self.new.shown.items ≡ known_of self.old.shown.items }
        ensures marked { AreMarked self.old.protocol.now self.old.mode list.now self.new.shown.items }
    {
        let protocol = self.protocol;
        let mode = self.mode;
        let from = self.advanced;
        for shown in self.shown.iter_mut() {
            shown.mark = shown.mark_under(protocol, mode, list, from);
        }
        self.advanced = list.len();
    }

    /// The place of the first live filter that refutes the formula of the body.
    pub fn sift(&self, body: &Body) -> Option<u32>
        requires body { B.has self.now.space.now body.now }
        requires room { length self.now.shown.items < 2 ^ 32 }
        ensures { FirstRejects self.now.protocol.now (B.formula_of self.now.space.now body.now) self.now.shown.items result }
    {
        let mut place: u32 = 0;
        for shown in self.shown.as_slice() {
            if shown.rejects(self.protocol, self.space, body) {
                return Some(place);
            }
            place += 1;
        }
        None
    }
}
