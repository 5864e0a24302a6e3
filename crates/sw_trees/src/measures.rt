//! How deep a formula is: paths of `<->`, and the nestings of its canonical text. Numbers go no
//! further than the greatest of their type.
ghost use Rattle.std.specs.Prelude.{◌≡◌, ◌-◌, ◌^◌, ℕ, min, map};
ghost use Rattle.sw_trees.specs.Measures.{greatest, longest_path, term_nestings, nestings_of, operands, bare, bracketed};
ghost use Rattle.sw_trees.specs.Capped.{IsCapped};

use crate::tree::{TermTree, Tree};

/// How many nestings the canonical text of a formula opens at once: by itself, as an operand, and
/// under `!`.
#[derive(Clone, Copy)]
pub struct Nestings {
    pub alone: u32,
    pub operand: u32,
    pub negated: u32,
}

/// The most `<->` of which each lies inside the one before.
#[cycle(paths)]
pub fn longest_path(tree: &Tree) -> u32
    ensures { result ≡ min (2 ^ 32 - 1) (longest_path tree.now) }
{
    match tree {
        Tree::Constant(_) | Tree::Atom(_) | Tree::Equal(_, _) => 0,
        Tree::Not(part) | Tree::Quantified(_, _, part) => longest_path(part.get()),
        Tree::All(parts) | Tree::Any(parts) => longest_of(parts.as_slice()),
        Tree::Implies(left, right) => longest_path(left.get()).max(longest_path(right.get())),
        Tree::Iff(left, right) => longest_path(left.get())
            .max(longest_path(right.get()))
            .saturating_add(1),
    }
}

#[cycle(paths)]
fn longest_of(trees: &[Tree]) -> u32
    ensures { result ≡ min (2 ^ 32 - 1) (greatest (map longest_path trees.now)) }
{
    let mut most = 0;
    for tree in trees {
        most = longest_path(tree).max(most);
    }
    most
}

/// How many nestings the text of a term opens at once.
#[cycle(terms)]
fn term_nestings(term: &TermTree) -> u32
    ensures { result ≡ min (2 ^ 32 - 1) (term_nestings term.now) }
{
    match term {
        TermTree::Named(_, _) => 0,
        TermTree::Applied(_, _, args) => deepest_of(args.as_slice()).saturating_add(1),
    }
}

#[cycle(terms)]
fn deepest_of(terms: &[TermTree]) -> u32
    ensures { result ≡ min (2 ^ 32 - 1) (greatest (map term_nestings terms.now)) }
{
    let mut most = 0;
    for term in terms {
        most = term_nestings(term).max(most);
    }
    most
}

/// Of a text that needs no brackets as an operand.
fn bare(alone: u32) -> Nestings
    ensures { (n : ℕ) → alone ≡ min (2 ^ 32 - 1) n → IsCapped (bare n) result }
{
    Nestings {
        alone,
        operand: alone,
        negated: alone.saturating_add(1),
    }
}

/// Of a text that stands in brackets as an operand.
fn bracketed(alone: u32) -> Nestings
    ensures { (n : ℕ) → alone ≡ min (2 ^ 32 - 1) n → IsCapped (bracketed n) result }
{
    Nestings {
        alone,
        operand: alone.saturating_add(1),
        negated: alone.saturating_add(2),
    }
}

/// The nestings of the canonical text.
#[cycle(nestings)]
pub fn nestings_of(tree: &Tree) -> Nestings
    ensures { IsCapped (nestings_of tree.now) result }
{
    match tree {
        Tree::Constant(_) => bare(0),
        Tree::Atom(term) => bare(term_nestings(term)),
        Tree::Equal(left, right) => {
            let alone = term_nestings(left).max(term_nestings(right));
            Nestings {
                alone,
                operand: alone,
                negated: alone,
            }
        }
        Tree::Not(part) => bare(nestings_of(part.get()).negated),
        Tree::All(parts) | Tree::Any(parts) => bracketed(operands(parts.as_slice())),
        Tree::Implies(left, right) | Tree::Iff(left, right) => {
            let left = nestings_of(left.get()).operand;
            let right = nestings_of(right.get()).operand;
            bracketed(left.max(right.saturating_add(1)))
        }
        Tree::Quantified(_, _, body) => bracketed(nestings_of(body.get()).alone.saturating_add(1)),
    }
}

#[cycle(nestings)]
fn operands(trees: &[Tree]) -> u32
    ensures { result ≡ min (2 ^ 32 - 1) (operands (map nestings_of trees.now)) }
{
    let mut most = 0;
    for tree in trees {
        most = nestings_of(tree).operand.max(most);
    }
    most
}
