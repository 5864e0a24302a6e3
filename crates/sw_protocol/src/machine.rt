//! The machine that reads declarations, a word at a time.
ghost use Rattle.std.specs.Prelude.{◌≡◌, ◌↔◌, ◌<◌, IfOk, IsTrue};
ghost use Rattle.sw_trees.specs.declared.limits.TheConstants.{NESTINGS};
ghost use Rattle.sw_trees.specs.Machine.{finish};
ghost use Rattle.sw_trees.specs.Measures.{nestings_of};
ghost use Rattle.sw_trees.specs.Limits.{IsWithin, IsCount};
ghost use Rattle.sw_text.specs.Names.{bytes_at};
ghost use Rattle.sw_protocol.specs.Grammar.{is_hidden, with_params};
ghost use Rattle.sw_protocol.specs.Machine.{formula_of, begin, changed, named, in_name, after_relation, after_function, after_transition, in_params, after_params, in_list, after_item, after_typing, typed, in_sort, in_formula, params_of, owned, walk, ended, alone_of, nests, loads_in, next};
ghost use Rattle.sw_protocol.specs.Steps.{Walks, EndsBy, Answers};

use crate::phases::{Listing, Move, Naming, Owner, Phase, Typing};
use crate::tree::{Declaration, Heading, Statement};
use sqlite_items::Items;
use std::alloc::{AllocError, Global};
use sw_logic::variables::VARIABLES;
use sw_trees::{
    Binder, Keyword, NESTINGS, Open, Sign, Stage, State, Step, Tree, Word, bytes_of, is_within,
    nestings_of, with,
};

/// What a word does that is no semicolon: it is read; or it is not, and a formula may end before it.
#[derive(Drop)]
enum Walk {
    Taken(Phase),
    Refused(Option<Tree>),
}

/// A formula begins.
fn formula(alloc: Global, owner: Owner) -> Phase
    ensures { result ≡ formula_of owner }
{
    Phase::Formula(owner, State::new(alloc))
}

/// The first word of a declaration.
fn begin(alloc: Global, sign: Sign) -> Option<Phase>
    ensures { result ≡ begin sign }
{
    let Sign::Keyword(keyword) = sign else {
        return None;
    };
    match keyword {
        Keyword::Sort => Some(Phase::Name(Naming::Sort)),
        Keyword::Mutable => Some(Phase::Change(true)),
        Keyword::Immutable => Some(Phase::Change(false)),
        Keyword::Axiom => Some(formula(alloc, Owner::Stated(Statement::Axiom))),
        Keyword::Init => Some(formula(alloc, Owner::Stated(Statement::Init))),
        Keyword::Safety => Some(formula(alloc, Owner::Stated(Statement::Safety))),
        Keyword::Transition => Some(Phase::Name(Naming::Transition)),
        _ => None,
    }
}

/// The word after `mutable` or `immutable`.
fn changed(mutable: bool, sign: Sign) -> Option<Phase>
    ensures { result ≡ changed mutable sign }
{
    let Sign::Keyword(keyword) = sign else {
        return None;
    };
    match keyword {
        Keyword::Relation => Some(Phase::Name(Naming::Relation(mutable))),
        Keyword::Constant => Some(Phase::Name(Naming::Constant(mutable))),
        Keyword::Function if !mutable => Some(Phase::Name(Naming::Function)),
        _ => None,
    }
}

/// Whether the name begins with an underscore.
fn is_hidden(text: &[u8], word: Word) -> bool
    ensures { result ≡ is_hidden (bytes_at text.now word) }
{
    match bytes_of(text, &word.token).first() {
        Some(byte) => *byte == b'_',
        None => false,
    }
}

/// What follows a new name.
fn named(naming: Naming, word: Word) -> Phase
    ensures { result ≡ named naming word }
{
    match naming {
        Naming::Sort => Phase::End(Declaration::Sort(word)),
        Naming::Relation(mutable) => Phase::Relation(mutable, word),
        Naming::Constant(mutable) => Phase::Colon(Typing::Constant(mutable, word)),
        Naming::Function => Phase::Function(word),
        Naming::Transition => Phase::Transition(word),
    }
}

/// A new name.
fn in_name(text: &[u8], naming: Naming, word: Word) -> Option<Phase>
    ensures { result ≡ in_name text.now naming word word.sign }
{
    match word.sign {
        Sign::Name if !is_hidden(text, word) => Some(named(naming, word)),
        _ => None,
    }
}

/// A word after a relation's name.
fn after_relation(alloc: Global, mutable: bool, name: Word, sign: Sign) -> Option<Phase>
    ensures { result ≡ after_relation mutable name sign }
{
    match sign {
        Sign::LeftRound => Some(Phase::List(Listing::Relation(mutable, name), Items::new(alloc))),
        _ => None,
    }
}

/// A word after a function's name.
fn after_function(alloc: Global, name: Word, sign: Sign) -> Option<Phase>
    ensures { result ≡ after_function name sign }
{
    match sign {
        Sign::LeftRound => Some(Phase::List(Listing::Function(name), Items::new(alloc))),
        _ => None,
    }
}

/// A word after a transition's parameters.
fn after_params(alloc: Global, name: Word, params: Items<Binder>, sign: Sign) -> Option<Phase>
    ensures { result ≡ after_params name params sign }
{
    match sign {
        Sign::Keyword(Keyword::Modifies) => {
            Some(Phase::List(Listing::Modified(name, params), Items::new(alloc)))
        }
        Sign::Colon => {
            let heading = Heading {
                name,
                params,
                modifies: Items::new(alloc),
            };
            Some(formula(alloc, Owner::Transition(heading)))
        }
        _ => None,
    }
}

/// A word after a transition's name.
fn after_transition(alloc: Global, name: Word, sign: Sign) -> Option<Phase>
    ensures { result ≡ after_transition name sign }
{
    match sign {
        Sign::LeftRound => Some(Phase::Params(name, Items::new(alloc), Stage::Variable)),
        _ => after_params(alloc, name, Items::new(alloc), sign),
    }
}

/// A word in the list of a transition's parameters.
fn in_params(
    text: &[u8],
    name: Word,
    params: Items<Binder>,
    stage: Stage,
    word: Word,
) -> Result<Option<Phase>, AllocError>
    ensures { IfOk result (λ o. o ≡ in_params text.now name params stage word word.sign) }
{
    match (stage, word.sign) {
        (Stage::Variable, Sign::Name) if !is_hidden(text, word) => {
            Ok(Some(Phase::Params(name, params, Stage::Colon(word))))
        }
        (Stage::Colon(param), Sign::Colon) => {
            Ok(Some(Phase::Params(name, params, Stage::Sort(param))))
        }
        (Stage::Sort(param), Sign::Name) => {
            let params = with(
                params,
                Binder {
                    name: param,
                    sort: word,
                },
            )?;
            Ok(Some(Phase::Params(name, params, Stage::Next)))
        }
        (Stage::Next, Sign::Comma) => Ok(Some(Phase::Params(name, params, Stage::Variable))),
        (Stage::Next, Sign::RightRound) => Ok(Some(Phase::Heading(name, params))),
        _ => Ok(None),
    }
}

/// A name of a list.
fn in_list(listing: Listing, names: Items<Word>, word: Word) -> Result<Option<Phase>, AllocError>
    ensures { IfOk result (λ o. o ≡ in_list listing names word word.sign) }
{
    match word.sign {
        Sign::Name => Ok(Some(Phase::Listed(listing, with(names, word)?))),
        _ => Ok(None),
    }
}

/// A word after a name of a list.
fn after_item(alloc: Global, listing: Listing, names: Items<Word>, sign: Sign) -> Option<Phase>
    ensures { result ≡ after_item listing names sign }
{
    match (listing, sign) {
        (listing, Sign::Comma) => Some(Phase::List(listing, names)),
        (Listing::Relation(mutable, name), Sign::RightRound) => {
            Some(Phase::End(Declaration::Relation(mutable, name, names)))
        }
        (Listing::Function(name), Sign::RightRound) => {
            Some(Phase::Colon(Typing::Function(name, names)))
        }
        (Listing::Modified(name, params), Sign::Colon) => {
            let heading = Heading {
                name,
                params,
                modifies: names,
            };
            Some(formula(alloc, Owner::Transition(heading)))
        }
        _ => None,
    }
}

/// The colon before a sort.
fn after_typing(typing: Typing, sign: Sign) -> Option<Phase>
    ensures { result ≡ after_typing typing sign }
{
    match sign {
        Sign::Colon => Some(Phase::Sort(typing)),
        _ => None,
    }
}

/// What has the sort.
fn typed(typing: Typing, sort: Word) -> Declaration
    ensures { result ≡ typed typing sort }
{
    match typing {
        Typing::Constant(mutable, name) => Declaration::Constant(mutable, name, sort),
        Typing::Function(name, sorts) => Declaration::Function(name, sorts, sort),
    }
}

/// A sort.
fn in_sort(typing: Typing, word: Word) -> Option<Phase>
    ensures { result ≡ in_sort typing word word.sign }
{
    match word.sign {
        Sign::Name => Some(Phase::End(typed(typing, word))),
        _ => None,
    }
}

/// A word of a formula.
fn in_formula(alloc: Global, owner: Owner, state: State, word: Word) -> Result<Walk, AllocError>
    ensures { IfOk result (Walks (in_formula owner state word word.sign) (alone_of (finish state))) }
{
    match state.step(alloc, word)? {
        Step::Taken(next) => Ok(Walk::Taken(Phase::Formula(owner, next))),
        Step::Refused(last) => Ok(Walk::Refused(last.finish(alloc)?)),
    }
}

/// What a word does outside of formulas.
fn heading_walk(next: Option<Phase>) -> Walk
    ensures { Walks next 0 result }
{
    match next {
        Some(phase) => Walk::Taken(phase),
        None => Walk::Refused(None),
    }
}

/// Whether the canonical text of the formula goes past the nestings.
fn is_deep(tree: &Tree) -> bool
    ensures { IsTrue result ↔ (NESTINGS < (nestings_of tree.now).alone) }
{
    nestings_of(tree).alone > NESTINGS
}

impl Owner {
    /// What is open around the formula.
    fn open(&self) -> Open
        ensures { IsCount (with_params (params_of self.now)) result }
    {
        let variables = match self {
            Owner::Stated(_) => 0,
            Owner::Transition(heading) => u32::try_from(heading.params.len()).unwrap_or(u32::MAX),
        };
        Open {
            nestings: 0,
            iffs: 0,
            variables,
        }
    }

    /// The declaration with its formula.
    fn declare(self, tree: Tree) -> Declaration
        ensures { result ≡ owned self tree }
    {
        match self {
            Owner::Stated(statement) => Declaration::Stated(statement, tree),
            Owner::Transition(heading) => Declaration::Transition(heading, tree),
        }
    }
}

impl Phase {
    /// Whether the word that was read last keeps within the limits.
    fn is_within(&self, word: Word) -> bool
        ensures { IsTrue result ↔ IsWithin (loads_in self.now word) }
    {
        match self {
            Phase::Params(_, params, Stage::Colon(_)) => params.len() < VARIABLES as usize,
            Phase::Formula(owner, state) => is_within(owner.open(), state, word),
            _ => true,
        }
    }

    /// Reads a word that is no semicolon.
    fn walk(self, alloc: Global, text: &[u8], word: Word) -> Result<Walk, AllocError>
        ensures { IfOk result (Walks (walk text.now self word word.sign) (nests self)) }
    {
        let sign = word.sign;
        match self {
            Phase::Begin => Ok(heading_walk(begin(alloc, sign))),
            Phase::Change(mutable) => Ok(heading_walk(changed(mutable, sign))),
            Phase::Name(naming) => Ok(heading_walk(in_name(text, naming, word))),
            Phase::Relation(mutable, name) => {
                Ok(heading_walk(after_relation(alloc, mutable, name, sign)))
            }
            Phase::Function(name) => Ok(heading_walk(after_function(alloc, name, sign))),
            Phase::Transition(name) => Ok(heading_walk(after_transition(alloc, name, sign))),
            Phase::Params(name, params, stage) => {
                Ok(heading_walk(in_params(text, name, params, stage, word)?))
            }
            Phase::Heading(name, params) => {
                Ok(heading_walk(after_params(alloc, name, params, sign)))
            }
            Phase::List(listing, names) => Ok(heading_walk(in_list(listing, names, word)?)),
            Phase::Listed(listing, names) => {
                Ok(heading_walk(after_item(alloc, listing, names, sign)))
            }
            Phase::Colon(typing) => Ok(heading_walk(after_typing(typing, sign))),
            Phase::Sort(typing) => Ok(heading_walk(in_sort(typing, word))),
            Phase::Formula(owner, state) => in_formula(alloc, owner, state, word),
            Phase::End(_) => Ok(Walk::Refused(None)),
        }
    }

    /// What a semicolon does here.
    pub fn end(self, alloc: Global) -> Result<Move, AllocError>
        ensures { IfOk result (EndsBy (ended self) (nests self)) }
    {
        match self {
            Phase::End(declaration) => Ok(Move::Whole(declaration)),
            Phase::Relation(mutable, name) => Ok(Move::Whole(Declaration::Relation(
                mutable,
                name,
                Items::new(alloc),
            ))),
            Phase::Formula(owner, state) => {
                let Some(tree) = state.finish(alloc)? else {
                    return Ok(Move::Refused);
                };
                if is_deep(&tree) {
                    return Ok(Move::Past);
                }
                Ok(Move::Whole(owner.declare(tree)))
            }
            _ => Ok(Move::Refused),
        }
    }

    /// Reads one word.
    pub fn step(self, alloc: Global, text: &[u8], word: Word) -> Result<Move, AllocError>
        ensures { IfOk result (Answers (next text.now self word) (nests self)) }
    {
        if let Sign::Semicolon = word.sign {
            return self.end(alloc);
        }
        match self.walk(alloc, text, word)? {
            Walk::Taken(phase) => {
                if phase.is_within(word) {
                    Ok(Move::Taken(phase))
                } else {
                    Ok(Move::Past)
                }
            }
            Walk::Refused(Some(tree)) => {
                if is_deep(&tree) {
                    Ok(Move::Past)
                } else {
                    Ok(Move::Refused)
                }
            }
            Walk::Refused(None) => Ok(Move::Refused),
        }
    }
}
