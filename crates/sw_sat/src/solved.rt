//! What the solver answers.
use sw_refute::Derived;

/// The answer for a set of clauses.
#[derive(Drop)]
pub enum Solved {
    /// A truth value for each variable, by its number, that makes every clause true.
    Satisfied(Vec<bool>),
    /// Steps of which the last, and no other, has the empty clause.
    Refuted(Vec<Derived>),
    /// The steps that were learnt when the budget was spent, none of them empty.
    Spent(Vec<Derived>),
}
