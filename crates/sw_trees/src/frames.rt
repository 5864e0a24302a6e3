//! What is open on the way to the next operand: frames, each a formula or a term with one part that is
//! still to come.
ghost use Rattle.std.specs.Prelude.{◌≡◌, ◌<◌, [], ◌∷◌, ◌++◌, IfOk, OnOk, MatchOption};
ghost use Rattle.sw_trees.specs.declared.tree.Tree.TheVariants as tree;
ghost use Rattle.sw_trees.specs.Machine.{strength, fill, reduce, conjoin, disjoin, IsDone};

use crate::stack::Stack;
use crate::tree::{Binder, TermTree, Tree};
use crate::words::Word;
use sqlite_items::{Boxed, Items};
use std::alloc::{AllocError, Global};

/// A formula or a term whose last part is still to come.
#[derive(Drop)]
pub enum Frame {
    /// `! _`
    Negation,
    /// `a & b & _`
    Conjunction(Items<Tree>),
    /// `a | b | _`
    Disjunction(Items<Tree>),
    /// `a -> _`
    Premise(Tree),
    /// `a <-> _`
    Side(Tree),
    /// `forall x: s. _`, or `exists` where it is false
    Body(bool, Items<Binder>),
    /// `( _`
    Bracket,
    /// `f(t, u, _`
    Arguments(Word, bool, Items<TermTree>),
    /// `t = _`, or `t != _` where it is true
    LeftSide(TermTree, bool),
}

impl Frame {
    /// How weakly the frame holds its last part: an operator ends the frames that are tighter.
    fn strength(&self) -> u32
        ensures { result ≡ strength self.now }
    {
        match self {
            Frame::Negation => 0,
            Frame::Conjunction(_) => 1,
            Frame::Disjunction(_) => 2,
            Frame::Premise(_) => 3,
            Frame::Side(_) => 4,
            Frame::Body(_, _) => 5,
            Frame::Bracket | Frame::Arguments(_, _, _) | Frame::LeftSide(_, _) => 6,
        }
    }

    /// The formula that this is the last part of.
    pub fn fill(self, alloc: Global, part: Tree) -> Result<Tree, AllocError>
        ensures { IfOk result (λ x. x ≡ fill self part) }
    {
        match self {
            Frame::Negation => Ok(Tree::Not(Boxed::new(alloc, part)?)),
            Frame::Conjunction(parts) => Ok(Tree::All(with(parts, part)?)),
            Frame::Disjunction(parts) => Ok(Tree::Any(with(parts, part)?)),
            Frame::Premise(left) => implies(alloc, left, part),
            Frame::Side(left) => iff(alloc, left, part),
            Frame::Body(universal, binders) => quantified(alloc, universal, binders, part),
            Frame::Bracket | Frame::Arguments(_, _, _) | Frame::LeftSide(_, _) => Ok(part),
        }
    }
}

/// The list with one item more.
pub fn with<T: Drop>(items: Items<T>, item: T) -> Result<Items<T>, AllocError>
    ensures { IfOk result (λ all. all ≡ items ++ item ∷ []) }
{
    let mut all = items;
    all.push(item)?;
    Ok(all)
}

fn implies(alloc: Global, left: Tree, right: Tree) -> Result<Tree, AllocError>
    ensures { IfOk result (λ x. x ≡ tree.Implies left right) }
{
    let left = Boxed::new(alloc, left)?;
    let right = Boxed::new(alloc, right)?;
    Ok(Tree::Implies(left, right))
}

/// `left <-> right`.
pub fn iff(alloc: Global, left: Tree, right: Tree) -> Result<Tree, AllocError>
    ensures { IfOk result (λ x. x ≡ tree.Iff left right) }
{
    let left = Boxed::new(alloc, left)?;
    let right = Boxed::new(alloc, right)?;
    Ok(Tree::Iff(left, right))
}

/// The quantified formula.
pub fn quantified(
    alloc: Global,
    universal: bool,
    binders: Items<Binder>,
    body: Tree,
) -> Result<Tree, AllocError>
    ensures { IfOk result (λ x. x ≡ tree.Quantified universal binders body) }
{
    let body = Boxed::new(alloc, body)?;
    Ok(Tree::Quantified(universal, binders, body))
}

/// The innermost frame, where it is tighter.
fn pop_tighter(stack: &mut Stack<Frame>, limit: u32) -> Result<Option<Frame>, AllocError>
    ensures { IfOk result (λ o. MatchOption o (IsDone limit stack.old stack.new) (λ frame. (stack.old ≡ frame ∷ stack.new) × (strength frame < limit))) }
{
    let Some(frame) = stack.pop() else {
        return Ok(None);
    };
    if frame.strength() < limit {
        return Ok(Some(frame));
    }
    stack.push(frame)?;
    Ok(None)
}

/// Ends the innermost frames that are tighter, with the operand as their last part.
pub fn reduce(
    alloc: Global,
    stack: &mut Stack<Frame>,
    limit: u32,
    operand: Tree,
) -> Result<Tree, AllocError>
    ensures { IfOk result (λ x. reduce limit stack.old operand ≡ (stack.new, x)) }
{
    let mut part = operand;
    while let Some(frame) = pop_tighter(stack, limit)? {
        part = frame.fill(alloc, part)?;
    }
    Ok(part)
}

/// Opens a run of `&` with this part, or adds it to the innermost one.
pub fn conjoin(alloc: Global, stack: &mut Stack<Frame>, part: Tree) -> Result<(), AllocError>
    ensures { OnOk result (stack.new ≡ conjoin stack.old part) }
{
    match stack.pop() {
        Some(Frame::Conjunction(parts)) => stack.push(Frame::Conjunction(with(parts, part)?)),
        Some(frame) => {
            stack.push(frame)?;
            stack.push(Frame::Conjunction(with(Items::new(alloc), part)?))
        }
        None => stack.push(Frame::Conjunction(with(Items::new(alloc), part)?)),
    }
}

/// Opens a run of `|` with this part, or adds it to the innermost one.
pub fn disjoin(alloc: Global, stack: &mut Stack<Frame>, part: Tree) -> Result<(), AllocError>
    ensures { OnOk result (stack.new ≡ disjoin stack.old part) }
{
    match stack.pop() {
        Some(Frame::Disjunction(parts)) => stack.push(Frame::Disjunction(with(parts, part)?)),
        Some(frame) => {
            stack.push(frame)?;
            stack.push(Frame::Disjunction(with(Items::new(alloc), part)?))
        }
        None => stack.push(Frame::Disjunction(with(Items::new(alloc), part)?)),
    }
}
