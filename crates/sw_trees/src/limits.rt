//! How much may be open at once, and whether a word goes past it.
ghost use Rattle.std.specs.Prelude.{◌≡◌, ◌↔◌, ◌-◌, ◌^◌, min, IsTrue};
ghost use Rattle.sw_trees.specs.Grammar.{Context, deeper, beside, inside};
ghost use Rattle.sw_trees.specs.Machine.{within, context, left_path, loads_in};
ghost use Rattle.sw_trees.specs.Limits.{IsWithin, IsCount};

use crate::frames::Frame;
use crate::machine::{Last, Stage, State};
use crate::measures::longest_path;
use crate::stack::Stack;
use crate::words::{Sign, Word};
use sw_logic::variables::VARIABLES;

/// The most nestings that are open at once.
pub const NESTINGS: u32 = 256;

/// The most `<->` of which each lies inside the one before.
pub const PATH: u32 = 5;

/// What is open around a text: nestings, `<->` to its left, variables in scope. Numbers go no further
/// than the greatest of their type.
#[derive(Clone, Copy)]
pub struct Open {
    pub nestings: u32,
    pub iffs: u32,
    pub variables: u32,
}

impl Open {
    fn deeper(self) -> Open
        ensures { (c : Context) → IsCount c self → IsCount (deeper c) result }
    {
        Open {
            nestings: self.nestings.saturating_add(1),
            ..self
        }
    }

    fn beside(self) -> Open
        ensures { (c : Context) → IsCount c self → IsCount (beside c) result }
    {
        Open {
            nestings: self.nestings.saturating_add(1),
            iffs: self.iffs.saturating_add(1),
            ..self
        }
    }

    fn inside(self, binders: usize) -> Open
        ensures { (c : Context) → IsCount c self → IsCount (inside binders c) result }
    {
        let binders = u32::try_from(binders).unwrap_or(u32::MAX);
        Open {
            nestings: self.nestings.saturating_add(1),
            variables: self.variables.saturating_add(binders),
            ..self
        }
    }

    /// What is open inside the frame.
    fn within(self, frame: &Frame) -> Open
        ensures { (c : Context) → IsCount c self → IsCount (within frame.now c) result }
    {
        match frame {
            Frame::Negation | Frame::Premise(_) | Frame::Bracket | Frame::Arguments(_, _, _) => {
                self.deeper()
            }
            Frame::Conjunction(_) | Frame::Disjunction(_) | Frame::LeftSide(_, _) => self,
            Frame::Side(_) => self.beside(),
            Frame::Body(_, binders) => self.inside(binders.len()),
        }
    }

    /// What is open inside all of the frames.
    fn of_stack(self, stack: &Stack<Frame>) -> Open
        ensures { (c : Context) → IsCount c self → IsCount (context c stack.now) result }
    {
        let mut open = self;
        for frame in stack.as_slice() {
            open = open.within(frame);
        }
        open
    }
}

/// The longest path of the left side that the innermost frame has.
fn left_path(stack: &Stack<Frame>) -> u32
    ensures { result ≡ min (2 ^ 32 - 1) (left_path stack.now) }
{
    match stack.as_slice().last() {
        Some(Frame::Side(left)) => longest_path(left),
        _ => 0,
    }
}

/// Whether the word that was read last keeps within the limits.
pub fn is_within(around: Open, state: &State, word: Word) -> bool
    ensures { (c : Context) → IsCount c around → IsTrue result ↔ IsWithin (loads_in c state.now word) }
{
    let open = around.of_stack(&state.stack);
    match word.sign {
        Sign::Not | Sign::LeftRound | Sign::Arrow => open.nestings <= NESTINGS,
        Sign::DoubleArrow => {
            let path = open.iffs.saturating_add(left_path(&state.stack));
            open.nestings <= NESTINGS && path <= PATH
        }
        Sign::ForAll | Sign::Exists => open.nestings < NESTINGS,
        Sign::Name => match &state.last {
            Last::Header(_, binders, Stage::Colon(_)) => {
                open.inside(binders.len()).variables < VARIABLES as u32
            }
            _ => true,
        },
        _ => true,
    }
}
