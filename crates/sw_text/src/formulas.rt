//! Formulas of trees: names are looked up in text order, and variables come into scope and leave it.
ghost use Rattle.std.specs.Prelude.{◌≡◌, ◌||◌, ◌++◌, ◌∷◌, [], map, IfOk};
ghost use Rattle.sw_logic.specs.declared.syntax.Formula.TheVariants as formula;
ghost use Rattle.sw_text.specs.declared.names.Wanted.TheVariants as wanted;
ghost use Rattle.sw_text.specs.Names.{term_faults, term_read, atom_read, atom_by, right_wanted, head_of, is_declared, binder_faults, binders_faults, bound, quantified, faults, formula_read, variable_number, is_some_number};
ghost use Rattle.sw_text.specs.Resolving.{around, Finds, FindsIn, applied_faults, equal_faults, all_faults, all_read, body_faults, body_read, BindsTo};

use crate::lookup::variable_place;
use crate::names::{Head, Names, Rule, Violation, Wanted};
use crate::resolve::Resolved;
use sqlite_items::{Boxed, Items};
use std::alloc::{AllocError, Global};
use sw_logic::{Formula, Name, Term};
use sw_trees::{Binder, TermTree, Tree, Word, bytes_of};

/// The atom of a name and arguments.
fn atom_by(head: Option<Head>, primed: bool, args: Items<Term>) -> Formula
    ensures { result ≡ atom_by head primed args }
{
    match head {
        Some(Head::Symbol(symbol)) => Formula::Holds {
            symbol,
            post: primed,
            args,
        },
        Some(Head::Variable(_)) | None => Formula::True,
    }
}

fn quantified(
    alloc: Global,
    universal: bool,
    binders: Items<sw_logic::Binder>,
    body: Formula,
) -> Result<Formula, AllocError>
    ensures { IfOk result (λ f. f ≡ quantified universal binders body) }
{
    let body = Boxed::new(alloc, body)?;
    if universal {
        Ok(Formula::ForAll(binders, body))
    } else {
        Ok(Formula::Exists(binders, body))
    }
}

fn implies(alloc: Global, left: Formula, right: Formula) -> Result<Formula, AllocError>
    ensures { IfOk result (λ f. f ≡ formula.Implies left right) }
{
    let left = Boxed::new(alloc, left)?;
    let right = Boxed::new(alloc, right)?;
    Ok(Formula::Implies(left, right))
}

fn iff(alloc: Global, left: Formula, right: Formula) -> Result<Formula, AllocError>
    ensures { IfOk result (λ f. f ≡ formula.Iff left right) }
{
    let left = Boxed::new(alloc, left)?;
    let right = Boxed::new(alloc, right)?;
    Ok(Formula::Iff(left, right))
}

/// The bytes as a name.
pub fn name_of(alloc: Global, bytes: &[u8]) -> Result<Name, AllocError>
    ensures { IfOk result (λ name. name ≡ bytes.now) }
{
    match str::from_utf8(bytes) {
        Ok(text) => Ok(Name::new(String::from_str(alloc, text)?)),
        Err(_) => Err(AllocError),
    }
}

fn is_in_scope(scope: &[sw_logic::Binder], name: &[u8]) -> bool
    ensures { result ≡ is_some_number (variable_number scope.now name.now) }
{
    match variable_place(scope, name) {
        Some(_) => true,
        None => false,
    }
}

impl Names<'_> {
    /// The atom that a tree is.
    fn atom(
        &self,
        alloc: Global,
        scope: &[sw_logic::Binder],
        tree: &TermTree,
    ) -> Result<Resolved<Formula>, AllocError>
        ensures { IfOk result (Finds (term_faults (around self.now) scope.now tree.now wanted.Atom) (atom_read (around self.now) scope.now tree.now)) }
    {
        match tree {
            TermTree::Named(word, primed) => {
                match self.head(scope, *word, *primed, 0, Wanted::Atom)? {
                    Resolved::Found(head) => {
                        Ok(Resolved::Found(atom_by(head, *primed, Items::new(alloc))))
                    }
                    Resolved::Broken(violation) => Ok(Resolved::Broken(violation)),
                }
            }
            TermTree::Applied(word, primed, args) => {
                self.applied_atom(alloc, scope, *word, *primed, args.as_slice())
            }
        }
    }

    /// The atom of a name and arguments.
    fn applied_atom(
        &self,
        alloc: Global,
        scope: &[sw_logic::Binder],
        word: Word,
        primed: bool,
        args: &[TermTree],
    ) -> Result<Resolved<Formula>, AllocError>
        ensures { IfOk result (Finds (applied_faults (around self.now) scope.now word primed args.now wanted.Atom) (atom_by (head_of (around self.now) scope.now word) primed (map (term_read (around self.now) scope.now) args.now))) }
    {
        let head = match self.head(scope, word, primed, args.len(), Wanted::Atom)? {
            Resolved::Found(head) => head,
            Resolved::Broken(violation) => return Ok(Resolved::Broken(violation)),
        };
        match self.terms(alloc, scope, args, self.head_sorts(head))? {
            Resolved::Found(terms) => Ok(Resolved::Found(atom_by(head, primed, terms))),
            Resolved::Broken(violation) => Ok(Resolved::Broken(violation)),
        }
    }

    /// What the right side of an equation wants, by the first name of the left side.
    fn right_wanted(
        &self,
        scope: &[sw_logic::Binder],
        left: &TermTree,
    ) -> Result<Wanted, AllocError>
        ensures { IfOk result (λ w. w ≡ right_wanted (around self.now) scope.now left.now) }
    {
        match left {
            TermTree::Named(word, _) | TermTree::Applied(word, _, _) => {
                let head = self.head_of(scope, *word)?;
                Ok(self.head_gives(scope, head))
            }
        }
    }

    /// The equation of two terms.
    fn equal(
        &self,
        alloc: Global,
        scope: &[sw_logic::Binder],
        left: &TermTree,
        right: &TermTree,
    ) -> Result<Resolved<Formula>, AllocError>
        ensures { IfOk result (Finds (equal_faults (around self.now) scope.now left.now right.now) (formula.Equal (term_read (around self.now) scope.now left.now) (term_read (around self.now) scope.now right.now))) }
    {
        let first = match self.term(alloc, scope, left, Wanted::Value)? {
            Resolved::Found(term) => term,
            Resolved::Broken(violation) => return Ok(Resolved::Broken(violation)),
        };
        let wanted = self.right_wanted(scope, left)?;
        match self.term(alloc, scope, right, wanted)? {
            Resolved::Found(second) => Ok(Resolved::Found(Formula::Equal(first, second))),
            Resolved::Broken(violation) => Ok(Resolved::Broken(violation)),
        }
    }

    /// Whether the name is declared, or a variable's in scope.
    fn is_twice(&self, scope: &[sw_logic::Binder], name: &[u8]) -> bool
        ensures { result ≡ (is_declared (around self.now) name.now || is_some_number (variable_number scope.now name.now)) }
    {
        self.is_declared(name) || is_in_scope(scope, name)
    }

    /// Brings a variable into scope, or tells the first rule that its binder breaks.
    fn bind(
        &self,
        alloc: Global,
        scope: &mut Vec<sw_logic::Binder>,
        binder: Binder,
    ) -> Result<Option<Violation>, AllocError>
        ensures { IfOk result (BindsTo (binder_faults (around self.now) scope.old.items binder) (scope.old.items ++ bound (around self.now) binder ∷ []) scope.new.items) }
    {
        let name = bytes_of(self.text, &binder.name.token);
        if self.is_twice(scope.as_slice(), name) {
            return Ok(Some(Violation {
                rule: Rule::Twice,
                at: binder.name.token.at,
            }));
        }
        let Some(sort) = self.sort_number(bytes_of(self.text, &binder.sort.token))? else {
            return Ok(Some(Violation {
                rule: Rule::Unknown,
                at: binder.sort.token.at,
            }));
        };
        let name = name_of(alloc, name)?;
        scope.push(sw_logic::Binder { name, sort })?;
        Ok(None)
    }

    /// Brings the variables into scope, in order, or tells the first rule that their binders break.
    pub fn bind_all(
        &self,
        alloc: Global,
        scope: &mut Vec<sw_logic::Binder>,
        binders: &[Binder],
    ) -> Result<Option<Violation>, AllocError>
        ensures { IfOk result (BindsTo (binders_faults (around self.now) scope.old.items binders.now) (scope.old.items ++ map (bound (around self.now)) binders.now) scope.new.items) }
    {
        for binder in binders {
            if let Some(violation) = self.bind(alloc, scope, *binder)? {
                return Ok(Some(violation));
            }
        }
        Ok(None)
    }

    /// The formula that a tree is. The scope is as before where it is found.
    #[cycle(formulas)]
    pub fn formula(
        &self,
        alloc: Global,
        scope: &mut Vec<sw_logic::Binder>,
        tree: &Tree,
    ) -> Result<Resolved<Formula>, AllocError>
        ensures { IfOk result (FindsIn (faults (around self.now) tree.now scope.old.items) (formula_read (around self.now) tree.now scope.old.items) scope.old.items scope.new.items) }
    {
        match tree {
            Tree::Constant(true) => Ok(Resolved::Found(Formula::True)),
            Tree::Constant(false) => Ok(Resolved::Found(Formula::False)),
            Tree::Atom(term) => self.atom(alloc, scope.as_slice(), term),
            Tree::Equal(left, right) => self.equal(alloc, scope.as_slice(), left, right),
            Tree::Not(part) => match self.formula(alloc, scope, part.get())? {
                Resolved::Found(part) => {
                    Ok(Resolved::Found(Formula::Not(Boxed::new(alloc, part)?)))
                }
                Resolved::Broken(violation) => Ok(Resolved::Broken(violation)),
            },
            Tree::All(parts) => match self.formulas(alloc, scope, parts.as_slice())? {
                Resolved::Found(parts) => Ok(Resolved::Found(Formula::All(parts))),
                Resolved::Broken(violation) => Ok(Resolved::Broken(violation)),
            },
            Tree::Any(parts) => match self.formulas(alloc, scope, parts.as_slice())? {
                Resolved::Found(parts) => Ok(Resolved::Found(Formula::Any(parts))),
                Resolved::Broken(violation) => Ok(Resolved::Broken(violation)),
            },
            Tree::Implies(left, right) => {
                let first = match self.formula(alloc, scope, left.get())? {
                    Resolved::Found(first) => first,
                    Resolved::Broken(violation) => return Ok(Resolved::Broken(violation)),
                };
                match self.formula(alloc, scope, right.get())? {
                    Resolved::Found(second) => Ok(Resolved::Found(implies(alloc, first, second)?)),
                    Resolved::Broken(violation) => Ok(Resolved::Broken(violation)),
                }
            }
            Tree::Iff(left, right) => {
                let first = match self.formula(alloc, scope, left.get())? {
                    Resolved::Found(first) => first,
                    Resolved::Broken(violation) => return Ok(Resolved::Broken(violation)),
                };
                match self.formula(alloc, scope, right.get())? {
                    Resolved::Found(second) => Ok(Resolved::Found(iff(alloc, first, second)?)),
                    Resolved::Broken(violation) => Ok(Resolved::Broken(violation)),
                }
            }
            Tree::Quantified(universal, binders, body) => {
                self.body(alloc, scope, *universal, binders.as_slice(), body.get())
            }
        }
    }

    /// The formulas that trees are, in order.
    #[cycle(formulas)]
    fn formulas(
        &self,
        alloc: Global,
        scope: &mut Vec<sw_logic::Binder>,
        trees: &[Tree],
    ) -> Result<Resolved<Items<Formula>>, AllocError>
        ensures { IfOk result (FindsIn (all_faults (around self.now) trees.now scope.old.items) (all_read (around self.now) trees.now scope.old.items) scope.old.items scope.new.items) }
    {
        let mut parts = Items::new(alloc);
        for tree in trees {
            match self.formula(alloc, scope, tree)? {
                Resolved::Found(part) => parts.push(part)?,
                Resolved::Broken(violation) => return Ok(Resolved::Broken(violation)),
            }
        }
        Ok(Resolved::Found(parts))
    }

    /// The quantified formula of binders and a body.
    #[cycle(formulas)]
    fn body(
        &self,
        alloc: Global,
        scope: &mut Vec<sw_logic::Binder>,
        universal: bool,
        binders: &[Binder],
        tree: &Tree,
    ) -> Result<Resolved<Formula>, AllocError>
        ensures { IfOk result (FindsIn (body_faults (around self.now) binders.now tree.now scope.old.items) (body_read (around self.now) universal binders.now tree.now scope.old.items) scope.old.items scope.new.items) }
    {
        let outer = scope.len();
        if let Some(violation) = self.bind_all(alloc, scope, binders)? {
            return Ok(Resolved::Broken(violation));
        }
        let body = match self.formula(alloc, scope, tree)? {
            Resolved::Found(body) => body,
            Resolved::Broken(violation) => return Ok(Resolved::Broken(violation)),
        };
        let bound = scope.split_off(outer)?;
        let whole = quantified(alloc, universal, Items::from_vec(bound), body)?;
        Ok(Resolved::Found(whole))
    }
}
