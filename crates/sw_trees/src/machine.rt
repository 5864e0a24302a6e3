//! The reader's machine: what was read stands on a stack, so that no text needs a deep recursion.
ghost use Rattle.std.specs.Prelude.{◌≡◌, ◌∷◌, [], IfOk, MatchOption, None, true, false};
ghost use Rattle.sw_trees.specs.declared.frames.Frame.TheVariants as frame;
ghost use Rattle.sw_trees.specs.declared.tree.TermTree.TheVariants as term;
ghost use Rattle.sw_trees.specs.declared.tree.Tree.TheVariants as tree;
ghost use Rattle.sw_trees.specs.declared.words.Sign.{Sign};
ghost use Rattle.sw_trees.specs.declared.machine.Step.{Step};
ghost use Rattle.sw_trees.specs.Grammar.{equation};
ghost use Rattle.sw_trees.specs.Machine.{start, end, finish, step, after, after_argument, after_atom, after_term, end_term, after_name, after_primed, before, before_term, in_header};
ghost use Rattle.sw_trees.specs.Steps.{Answers, Doubles, first_is_side, first_is_body, EndsBracket};

use crate::frames::{Frame, conjoin, disjoin, iff, quantified, reduce, with};
use crate::stack::Stack;
use crate::tree::{Binder, TermTree, Tree};
use crate::words::{Sign, Word};
use sqlite_items::{Boxed, Items};
use std::alloc::{AllocError, Global};

/// Where the list of binders of a quantifier stands: what comes next.
#[derive(Clone, Copy)]
pub enum Stage {
    /// A variable's name.
    Variable,
    /// The colon after this name.
    Colon(Word),
    /// The sort of this variable.
    Sort(Word),
    /// A comma or the dot.
    Next,
}

/// What was read last.
#[derive(Drop)]
pub enum Last {
    /// Nothing, or what an operand has to follow.
    Want,
    /// What a term has to follow.
    WantTerm,
    /// A name, which a prime or arguments may follow.
    Name(Word),
    /// A name and its prime, which arguments may follow.
    Primed(Word),
    /// A term with its arguments.
    Term(TermTree),
    /// A formula.
    Operand(Tree),
    /// A part of a quantifier before its dot.
    Header(bool, Items<Binder>, Stage),
}

/// What is open, innermost first, and what was read last.
#[derive(Drop)]
pub struct State {
    pub stack: Stack<Frame>,
    pub last: Last,
}

/// The state after a word, or where no formula goes on with it, a state that ends as the one before.
#[derive(Drop)]
pub enum Step {
    Taken(State),
    Refused(State),
}

fn taken(stack: Stack<Frame>, last: Last) -> Step
    ensures { result ≡ Step.Taken (record { stack = stack; last = last }) }
{
    Step::Taken(State { stack, last })
}

fn refused(stack: Stack<Frame>, last: Last) -> Step
    ensures { result ≡ Step.Refused (record { stack = stack; last = last }) }
{
    Step::Refused(State { stack, last })
}

/// `t = u`, or its negation.
fn equation(
    alloc: Global,
    left: TermTree,
    negated: bool,
    right: TermTree,
) -> Result<Tree, AllocError>
    ensures { IfOk result (λ x. x ≡ equation left negated right) }
{
    let equal = Tree::Equal(left, right);
    if negated {
        Ok(Tree::Not(Boxed::new(alloc, equal)?))
    } else {
        Ok(equal)
    }
}

/// The left side of the innermost frame, where it is `a <-> _`.
fn pop_side(stack: &mut Stack<Frame>) -> Result<Option<Tree>, AllocError>
    ensures { IfOk result (λ o. MatchOption o ((stack.new ≡ stack.old) × (first_is_side stack.old ≡ false)) (λ left. stack.old ≡ frame.Side left ∷ stack.new)) }
{
    match stack.pop() {
        Some(Frame::Side(left)) => Ok(Some(left)),
        Some(frame) => {
            stack.push(frame)?;
            Ok(None)
        }
        None => Ok(None),
    }
}

/// The quantifier of the innermost frame, where it is a body.
fn pop_body(stack: &mut Stack<Frame>) -> Result<Option<(bool, Items<Binder>)>, AllocError>
    ensures { IfOk result (λ o. MatchOption o ((stack.new ≡ stack.old) × (first_is_body stack.old ≡ false)) (λ b. stack.old ≡ frame.Body b.0 b.1 ∷ stack.new)) }
{
    match stack.pop() {
        Some(Frame::Body(universal, binders)) => Ok(Some((universal, binders))),
        Some(frame) => {
            stack.push(frame)?;
            Ok(None)
        }
        None => Ok(None),
    }
}

/// Ends what is open up to the innermost body that has no `<->` yet. Where there is none before a
/// bracket or the beginning, the answer is false, and the whole formula is the same as before.
fn double(
    alloc: Global,
    stack: &mut Stack<Frame>,
    operand: Tree,
) -> Result<(bool, Tree), AllocError>
    ensures { IfOk result (λ r. Doubles stack.old operand stack.new r) }
{
    let mut left = operand;
    loop {
        left = reduce(alloc, stack, 4, left)?;
        let Some(side) = pop_side(stack)? else {
            return Ok((true, left));
        };
        left = iff(alloc, side, left)?;
        let Some((universal, binders)) = pop_body(stack)? else {
            return Ok((false, left));
        };
        left = quantified(alloc, universal, binders, left)?;
    }
}

/// A `<->` after an operand.
fn after_double(alloc: Global, stack: Stack<Frame>, operand: Tree) -> Result<Step, AllocError>
    ensures { IfOk result (Answers (after stack operand Sign.DoubleArrow) (end stack operand)) }
{
    let mut open = stack;
    let (found, left) = double(alloc, &mut open, operand)?;
    if !found {
        return Ok(refused(open, Last::Operand(left)));
    }
    open.push(Frame::Side(left))?;
    Ok(taken(open, Last::Want))
}

/// Whether the innermost frame is a bracket, which is then ended.
fn pop_bracket(stack: &mut Stack<Frame>) -> Result<bool, AllocError>
    ensures { IfOk result (λ b. EndsBracket b stack.old stack.new) }
{
    match stack.pop() {
        Some(Frame::Bracket) => Ok(true),
        Some(frame) => {
            stack.push(frame)?;
            Ok(false)
        }
        None => Ok(false),
    }
}

/// A right bracket after an operand.
fn close(alloc: Global, stack: Stack<Frame>, operand: Tree) -> Result<Step, AllocError>
    ensures { IfOk result (Answers (after stack operand Sign.RightRound) (end stack operand)) }
{
    let mut open = stack;
    let whole = reduce(alloc, &mut open, 6, operand)?;
    if pop_bracket(&mut open)? {
        Ok(taken(open, Last::Operand(whole)))
    } else {
        Ok(refused(open, Last::Operand(whole)))
    }
}

/// A word after an operand.
fn after(alloc: Global, stack: Stack<Frame>, operand: Tree, sign: Sign) -> Result<Step, AllocError>
    ensures { IfOk result (Answers (after stack operand sign) (end stack operand)) }
{
    let mut open = stack;
    match sign {
        Sign::And => {
            let part = reduce(alloc, &mut open, 1, operand)?;
            conjoin(alloc, &mut open, part)?;
            Ok(taken(open, Last::Want))
        }
        Sign::Or => {
            let part = reduce(alloc, &mut open, 2, operand)?;
            disjoin(alloc, &mut open, part)?;
            Ok(taken(open, Last::Want))
        }
        Sign::Arrow => {
            let left = reduce(alloc, &mut open, 3, operand)?;
            open.push(Frame::Premise(left))?;
            Ok(taken(open, Last::Want))
        }
        Sign::DoubleArrow => after_double(alloc, open, operand),
        Sign::RightRound => close(alloc, open, operand),
        _ => Ok(refused(open, Last::Operand(operand))),
    }
}

/// A word after an argument, which stands last in the list.
fn after_argument(
    stack: Stack<Frame>,
    name: Word,
    primed: bool,
    args: Items<TermTree>,
    sign: Sign,
) -> Result<Step, AllocError>
    ensures { IfOk result (Answers (after_argument stack name primed args sign) None) }
{
    let mut open = stack;
    match sign {
        Sign::Comma => {
            open.push(Frame::Arguments(name, primed, args))?;
            Ok(taken(open, Last::WantTerm))
        }
        Sign::RightRound => Ok(taken(open, Last::Term(TermTree::Applied(name, primed, args)))),
        _ => Ok(refused(open, Last::WantTerm)),
    }
}

/// A word after a term that is no argument and no right side.
fn after_atom(
    alloc: Global,
    stack: Stack<Frame>,
    term: TermTree,
    sign: Sign,
) -> Result<Step, AllocError>
    ensures { IfOk result (Answers (after_atom stack term sign) (end stack (tree.Atom term))) }
{
    let mut open = stack;
    match sign {
        Sign::Equal => {
            open.push(Frame::LeftSide(term, false))?;
            Ok(taken(open, Last::WantTerm))
        }
        Sign::NotEqual => {
            open.push(Frame::LeftSide(term, true))?;
            Ok(taken(open, Last::WantTerm))
        }
        _ => after(alloc, open, Tree::Atom(term), sign),
    }
}

/// A word after a term.
fn after_term(
    alloc: Global,
    stack: Stack<Frame>,
    term: TermTree,
    sign: Sign,
) -> Result<Step, AllocError>
    ensures { IfOk result (Answers (after_term stack term sign) (end_term stack term)) }
{
    let mut open = stack;
    match open.pop() {
        Some(Frame::Arguments(name, primed, args)) => {
            after_argument(open, name, primed, with(args, term)?, sign)
        }
        Some(Frame::LeftSide(left, negated)) => {
            let whole = equation(alloc, left, negated, term)?;
            after(alloc, open, whole, sign)
        }
        Some(frame) => {
            open.push(frame)?;
            after_atom(alloc, open, term, sign)
        }
        None => after_atom(alloc, open, term, sign),
    }
}

/// A word after a name.
fn after_name(
    alloc: Global,
    stack: Stack<Frame>,
    name: Word,
    sign: Sign,
) -> Result<Step, AllocError>
    ensures { IfOk result (Answers (after_name stack name sign) (end_term stack (term.Named name false))) }
{
    let mut open = stack;
    match sign {
        Sign::Prime => Ok(taken(open, Last::Primed(name))),
        Sign::LeftRound => {
            open.push(Frame::Arguments(name, false, Items::new(alloc)))?;
            Ok(taken(open, Last::WantTerm))
        }
        _ => after_term(alloc, open, TermTree::Named(name, false), sign),
    }
}

/// A word after a name and its prime.
fn after_primed(
    alloc: Global,
    stack: Stack<Frame>,
    name: Word,
    sign: Sign,
) -> Result<Step, AllocError>
    ensures { IfOk result (Answers (after_primed stack name sign) (end_term stack (term.Named name true))) }
{
    let mut open = stack;
    match sign {
        Sign::LeftRound => {
            open.push(Frame::Arguments(name, true, Items::new(alloc)))?;
            Ok(taken(open, Last::WantTerm))
        }
        _ => after_term(alloc, open, TermTree::Named(name, true), sign),
    }
}

/// A word where an operand is wanted.
fn before(alloc: Global, stack: Stack<Frame>, word: Word) -> Result<Step, AllocError>
    ensures { IfOk result (Answers (before stack word word.sign) None) }
{
    let mut open = stack;
    match word.sign {
        Sign::Name => Ok(taken(open, Last::Name(word))),
        Sign::Not => {
            open.push(Frame::Negation)?;
            Ok(taken(open, Last::Want))
        }
        Sign::LeftRound => {
            open.push(Frame::Bracket)?;
            Ok(taken(open, Last::Want))
        }
        Sign::True => Ok(taken(open, Last::Operand(Tree::Constant(true)))),
        Sign::False => Ok(taken(open, Last::Operand(Tree::Constant(false)))),
        Sign::ForAll => Ok(taken(open, Last::Header(true, Items::new(alloc), Stage::Variable))),
        Sign::Exists => Ok(taken(
            open,
            Last::Header(false, Items::new(alloc), Stage::Variable),
        )),
        _ => Ok(refused(open, Last::Want)),
    }
}

/// A word where a term is wanted.
fn before_term(stack: Stack<Frame>, word: Word) -> Result<Step, AllocError>
    ensures { IfOk result (Answers (before_term stack word word.sign) None) }
{
    match word.sign {
        Sign::Name => Ok(taken(stack, Last::Name(word))),
        _ => Ok(refused(stack, Last::WantTerm)),
    }
}

/// A word in the list of a quantifier's binders.
fn in_header(
    stack: Stack<Frame>,
    universal: bool,
    binders: Items<Binder>,
    stage: Stage,
    word: Word,
) -> Result<Step, AllocError>
    ensures { IfOk result (Answers (in_header stack universal binders stage word word.sign) None) }
{
    let mut open = stack;
    match (stage, word.sign) {
        (Stage::Variable, Sign::Name) => {
            Ok(taken(open, Last::Header(universal, binders, Stage::Colon(word))))
        }
        (Stage::Colon(name), Sign::Colon) => {
            Ok(taken(open, Last::Header(universal, binders, Stage::Sort(name))))
        }
        (Stage::Sort(name), Sign::Name) => {
            let binders = with(binders, Binder { name, sort: word })?;
            Ok(taken(open, Last::Header(universal, binders, Stage::Next)))
        }
        (Stage::Next, Sign::Comma) => {
            Ok(taken(open, Last::Header(universal, binders, Stage::Variable)))
        }
        (Stage::Next, Sign::Dot) => {
            open.push(Frame::Body(universal, binders))?;
            Ok(taken(open, Last::Want))
        }
        _ => Ok(refused(open, Last::WantTerm)),
    }
}

impl State {
    pub fn new(alloc: Global) -> State
        ensures { result ≡ start }
    {
        State {
            stack: Stack::new(alloc),
            last: Last::Want,
        }
    }

    /// Reads one word.
    pub fn step(self, alloc: Global, word: Word) -> Result<Step, AllocError>
        ensures { IfOk result (Answers (step self word) (finish self)) }
    {
        let State { stack, last } = self;
        match last {
            Last::Want => before(alloc, stack, word),
            Last::WantTerm => before_term(stack, word),
            Last::Name(name) => after_name(alloc, stack, name, word.sign),
            Last::Primed(name) => after_primed(alloc, stack, name, word.sign),
            Last::Term(term) => after_term(alloc, stack, term, word.sign),
            Last::Operand(operand) => after(alloc, stack, operand, word.sign),
            Last::Header(universal, binders, stage) => {
                in_header(stack, universal, binders, stage, word)
            }
        }
    }

    /// The formula that was read, where it may end here.
    pub fn finish(self, alloc: Global) -> Result<Option<Tree>, AllocError>
        ensures { IfOk result (λ o. o ≡ finish self) }
    {
        let State { stack, last } = self;
        match last {
            Last::Want | Last::WantTerm | Last::Header(_, _, _) => Ok(None),
            Last::Name(name) => { end_term(alloc, stack, TermTree::Named(name, false)) }
            Last::Primed(name) => { end_term(alloc, stack, TermTree::Named(name, true)) }
            Last::Term(term) => end_term(alloc, stack, term),
            Last::Operand(operand) => end(alloc, stack, operand),
        }
    }
}

fn end(alloc: Global, stack: Stack<Frame>, operand: Tree) -> Result<Option<Tree>, AllocError>
    ensures { IfOk result (λ o. o ≡ end stack operand) }
{
    let mut open = stack;
    let whole = reduce(alloc, &mut open, 6, operand)?;
    match open.pop() {
        Some(_) => Ok(None),
        None => Ok(Some(whole)),
    }
}

fn end_term(alloc: Global, stack: Stack<Frame>, term: TermTree) -> Result<Option<Tree>, AllocError>
    ensures { IfOk result (λ o. o ≡ end_term stack term) }
{
    let mut open = stack;
    match open.pop() {
        Some(Frame::Arguments(_, _, _)) => Ok(None),
        Some(Frame::LeftSide(left, negated)) => {
            let whole = equation(alloc, left, negated, term)?;
            end(alloc, open, whole)
        }
        Some(frame) => {
            open.push(frame)?;
            end(alloc, open, Tree::Atom(term))
        }
        None => end(alloc, open, Tree::Atom(term)),
    }
}
