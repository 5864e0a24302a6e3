//! The five queries.
ghost use Rattle.std.specs.Prelude.{◌≡◌, ◌<◌, ◌++◌, length, IfOk, Some, slice_get};
ghost use Rattle.std.specs.Option.{option_copied};
ghost use Rattle.sw_meaning.specs.declared.protocol.Transition.{Transition};
ghost use Rattle.sw_queries.specs.Queries.{state_query, start_query_of, follow_query_of, safety_start_query_of, step_query_of, join_query_of, step_signature, across_query, with_joined, safe_after};

use sqlite_items::{Boxed, Items};
use std::alloc::{AllocError, Global};
use sw_logic::{Formula, Query, Signature, copy_formula};
use sw_meaning::{Protocol, Transition};
use sw_renaming::{
    Moment, Renaming, constants_for, copy_signature, copy_sorts, copy_symbols, push_formulas,
    symbols_of,
};

/// Asks for a structure with the axioms and the list in which the formula is false.
fn state_query(
    alloc: Global,
    protocol: &Protocol,
    list: &[Formula],
    f: Formula,
) -> Result<Query, AllocError>
    ensures { IfOk result (λ q. q ≡ state_query protocol.now list.now f) }
{
    let denied = Formula::Not(Boxed::new(alloc, f)?);
    let mut sentences = Items::new(alloc);
    push_formulas(alloc, &mut sentences, protocol.axioms.as_slice())?;
    push_formulas(alloc, &mut sentences, list)?;
    sentences.push(denied)?;
    Ok(Query {
        signature: copy_signature(alloc, &protocol.signature)?,
        sentences,
    })
}

/// Asks for a start in which the formula is false.
pub fn start_query(alloc: Global, protocol: &Protocol, f: &Formula) -> Result<Query, AllocError>
    ensures { IfOk result (λ q. q ≡ start_query_of protocol.now f.now) }
{
    state_query(
        alloc,
        protocol,
        protocol.inits.as_slice(),
        copy_formula(alloc, f)?,
    )
}

/// Asks for a structure with the axioms and the list in which the formula is false.
pub fn follow_query(
    alloc: Global,
    protocol: &Protocol,
    list: &[Formula],
    f: &Formula,
) -> Result<Query, AllocError>
    ensures { IfOk result (λ q. q ≡ follow_query_of protocol.now list.now f.now) }
{
    state_query(alloc, protocol, list, copy_formula(alloc, f)?)
}

fn safety(alloc: Global, protocol: &Protocol) -> Result<Formula, AllocError>
    ensures { IfOk result (λ f. f ≡ Formula.All protocol.now.safeties) }
{
    let mut safeties = Items::new(alloc);
    push_formulas(alloc, &mut safeties, protocol.safeties.as_slice())?;
    Ok(Formula::All(safeties))
}

/// Asks for a start without safety.
pub fn safety_start_query(alloc: Global, protocol: &Protocol) -> Result<Query, AllocError>
    ensures { IfOk result (λ q. q ≡ safety_start_query_of protocol.now) }
{
    state_query(
        alloc,
        protocol,
        protocol.inits.as_slice(),
        safety(alloc, protocol)?,
    )
}

fn step_signature(
    alloc: Global,
    protocol: &Protocol,
    transition: &Transition,
) -> Result<Signature, AllocError>
    ensures { IfOk result (λ s. s ≡ step_signature protocol.now transition.now) }
{
    let all = &protocol.signature.symbols;
    let mut symbols = copy_symbols(alloc, all.as_slice())?;
    symbols.append(symbols_of(alloc, all, transition.modifies.as_slice())?)?;
    symbols.append(constants_for(alloc, transition.params.as_slice())?)?;
    Ok(Signature {
        sorts: copy_sorts(alloc, protocol.signature.sorts.as_slice())?,
        symbols,
    })
}

fn across_query(
    alloc: Global,
    protocol: &Protocol,
    transition: &Transition,
    before: &[Formula],
    after: &Formula,
) -> Result<Query, AllocError>
    ensures { IfOk result (λ q. q ≡ across_query protocol.now transition.now before.now after.now) }
{
    let renaming = Renaming {
        protocol,
        transition,
    };
    let mut sentences = renaming.formulas(alloc, Moment::Before, protocol.axioms.as_slice())?;
    sentences.append(renaming.formulas(alloc, Moment::Before, before)?)?;
    sentences.push(renaming.formula(alloc, Moment::Across, &transition.formula)?)?;
    let after = renaming.formula(alloc, Moment::After, after)?;
    sentences.push(Formula::Not(Boxed::new(alloc, after)?))?;
    Ok(Query {
        signature: step_signature(alloc, protocol, transition)?,
        sentences,
    })
}

/// Asks for a step of the transition from the list and the formula to where the formula is false.
pub fn step_query(
    alloc: Global,
    protocol: &Protocol,
    list: &[Formula],
    f: &Formula,
    transition: u32,
) -> Result<Query, AllocError>
    requires { transition < length protocol.now.transitions }
    ensures { IfOk result (λ q. (t : Transition) → slice_get protocol.now.transitions transition ≡ Some t → q ≡ step_query_of protocol.now t list.now f.now) }
{
    let transition = &protocol.transitions.as_slice()[transition as usize];
    let mut before = Items::new(alloc);
    push_formulas(alloc, &mut before, list)?;
    before.push(copy_formula(alloc, f)?)?;
    across_query(alloc, protocol, transition, before.as_slice(), f)
}

fn safe_after(
    alloc: Global,
    protocol: &Protocol,
    f: Option<&Formula>,
) -> Result<Formula, AllocError>
    ensures { IfOk result (λ r. r ≡ safe_after protocol.now (option_copied f.entry)) }
{
    let safe = safety(alloc, protocol)?;
    let Some(f) = f else {
        return Ok(safe);
    };
    let mut both = Items::new(alloc);
    both.push(safe)?;
    both.push(copy_formula(alloc, f)?)?;
    Ok(Formula::All(both))
}

/// Adds a copy of the formula that is joined, if there is one.
fn push_joined(
    alloc: Global,
    formulas: &mut Items<Formula>,
    f: Option<&Formula>,
) -> Result<(), AllocError>
    ensures { IfOk result (λ _. formulas.new ≡ with_joined formulas.old (option_copied f.entry)) }
{
    if let Some(joined) = f {
        formulas.push(copy_formula(alloc, joined)?)?;
    }
    Ok(())
}

fn join(
    alloc: Global,
    protocol: &Protocol,
    list: &[Formula],
    f: Option<&Formula>,
    transition: &Transition,
) -> Result<Query, AllocError>
    ensures { IfOk result (λ q. q ≡ join_query_of protocol.now transition.now list.now (option_copied f.entry)) }
{
    let mut before = Items::new(alloc);
    push_formulas(alloc, &mut before, list)?;
    push_formulas(alloc, &mut before, protocol.safeties.as_slice())?;
    push_joined(alloc, &mut before, f)?;
    let after = safe_after(alloc, protocol, f)?;
    across_query(alloc, protocol, transition, before.as_slice(), &after)
}

/// Asks for a step of the transition from the list, safety and the formula to where safety or the
/// formula is false; without a formula, for one from the list and safety to where safety is false.
pub fn join_query(
    alloc: Global,
    protocol: &Protocol,
    list: &[Formula],
    f: Option<&Formula>,
    transition: u32,
) -> Result<Query, AllocError>
    requires { transition < length protocol.now.transitions }
    ensures { IfOk result (λ q. (t : Transition) → slice_get protocol.now.transitions transition ≡ Some t → q ≡ join_query_of protocol.now t list.now (option_copied f.entry)) }
{
    let chosen = &protocol.transitions.as_slice()[transition as usize];
    join(alloc, protocol, list, f, chosen)
}
