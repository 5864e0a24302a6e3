//! Formulas whose names are looked up: a tree of words becomes a formula, or the first rule that a
//! name breaks is told.
ghost use Rattle.std.specs.Prelude.{◌≡◌, [], drop, map, IfOk};
ghost use Rattle.sw_text.specs.Names.{term_faults, term_read, args_faults, head_faults, head_of, term_by, next_wanted};
ghost use Rattle.sw_text.specs.Resolving.{around, Finds, applied_faults, applied_read};

use crate::names::{Head, Names, Violation, Wanted};
use sqlite_items::Items;
use std::alloc::{AllocError, Global};
use sw_logic::{Binder, Term};
use sw_trees::{TermTree, Word};

/// What a tree is, or the first rule that it breaks.
#[derive(Drop)]
pub enum Resolved<T> {
    Found(T),
    Broken(Violation),
}

/// The term of a name and arguments.
fn term_by(head: Option<Head>, primed: bool, args: Items<Term>) -> Term
    ensures { result ≡ term_by head primed args }
{
    match head {
        None => Term::Variable(0),
        Some(Head::Variable(variable)) => Term::Variable(variable),
        Some(Head::Symbol(symbol)) => Term::Apply {
            symbol,
            post: primed,
            args,
        },
    }
}

/// What the argument of this number wants.
fn wanted_at(sorts: &[u32], i: usize) -> Wanted
    ensures { result ≡ next_wanted (drop i sorts.now) }
{
    match sorts.get(i) {
        Some(sort) => Wanted::Sort(*sort),
        None => Wanted::Value,
    }
}

impl Names<'_> {
    /// What the name of a term stands for.
    pub fn head(
        &self,
        scope: &[Binder],
        word: Word,
        primed: bool,
        count: usize,
        wanted: Wanted,
    ) -> Result<Resolved<Option<Head>>, AllocError>
        ensures { IfOk result (Finds (head_faults (around self.now) scope.now word primed count wanted) (head_of (around self.now) scope.now word)) }
    {
        let head = self.head_of(scope, word)?;
        match self.head_rule(scope, head, primed, count, wanted) {
            Some(rule) => Ok(Resolved::Broken(Violation {
                rule,
                at: word.token.at,
            })),
            None => Ok(Resolved::Found(head)),
        }
    }

    /// The term of a name alone.
    fn named(
        &self,
        alloc: Global,
        scope: &[Binder],
        word: Word,
        primed: bool,
        wanted: Wanted,
    ) -> Result<Resolved<Term>, AllocError>
        ensures { IfOk result (Finds (head_faults (around self.now) scope.now word primed 0 wanted) (term_by (head_of (around self.now) scope.now word) primed [])) }
    {
        match self.head(scope, word, primed, 0, wanted)? {
            Resolved::Found(head) => Ok(Resolved::Found(term_by(head, primed, Items::new(alloc)))),
            Resolved::Broken(violation) => Ok(Resolved::Broken(violation)),
        }
    }

    /// The term that a tree is.
    #[cycle(terms)]
    pub fn term(
        &self,
        alloc: Global,
        scope: &[Binder],
        tree: &TermTree,
        wanted: Wanted,
    ) -> Result<Resolved<Term>, AllocError>
        ensures { IfOk result (Finds (term_faults (around self.now) scope.now tree.now wanted) (term_read (around self.now) scope.now tree.now)) }
    {
        match tree {
            TermTree::Named(word, primed) => self.named(alloc, scope, *word, *primed, wanted),
            TermTree::Applied(word, primed, args) => {
                self.applied(alloc, scope, *word, *primed, args.as_slice(), wanted)
            }
        }
    }

    /// The term of a name and arguments.
    #[cycle(terms)]
    fn applied(
        &self,
        alloc: Global,
        scope: &[Binder],
        word: Word,
        primed: bool,
        args: &[TermTree],
        wanted: Wanted,
    ) -> Result<Resolved<Term>, AllocError>
        ensures { IfOk result (Finds (applied_faults (around self.now) scope.now word primed args.now wanted) (applied_read (around self.now) scope.now word primed args.now)) }
    {
        let head = match self.head(scope, word, primed, args.len(), wanted)? {
            Resolved::Found(head) => head,
            Resolved::Broken(violation) => return Ok(Resolved::Broken(violation)),
        };
        match self.terms(alloc, scope, args, self.head_sorts(head))? {
            Resolved::Found(terms) => Ok(Resolved::Found(term_by(head, primed, terms))),
            Resolved::Broken(violation) => Ok(Resolved::Broken(violation)),
        }
    }

    /// The arguments, of these sorts.
    #[cycle(terms)]
    pub fn terms(
        &self,
        alloc: Global,
        scope: &[Binder],
        trees: &[TermTree],
        sorts: &[u32],
    ) -> Result<Resolved<Items<Term>>, AllocError>
        ensures { IfOk result (Finds (args_faults (map (term_faults (around self.now) scope.now) trees.now) sorts.now) (map (term_read (around self.now) scope.now) trees.now)) }
    {
        let mut terms = Items::new(alloc);
        for (i, tree) in trees.iter().enumerate() {
            match self.term(alloc, scope, tree, wanted_at(sorts, i))? {
                Resolved::Found(term) => terms.push(term)?,
                Resolved::Broken(violation) => return Ok(Resolved::Broken(violation)),
            }
        }
        Ok(Resolved::Found(terms))
    }
}
