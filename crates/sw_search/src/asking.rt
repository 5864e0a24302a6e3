//! The line of a query that ended a search.
ghost use Rattle.std.specs.Prelude.{◌≡◌, IfOk, string_bytes, Some};
ghost use Rattle.std.specs.Option.{option_copied};
ghost use Rattle.sw_template.specs.Bodies.{Class};
ghost use Rattle.sw_enumerate.specs.Spaces.{formula_in};
ghost use Rattle.sw_report.specs.Words.{asked_of};
ghost use Rattle.sw_search.specs.Searches.{ended_line, told_query, told_safety, named_class};
ghost use Rattle.sw_search.specs.Phases.{ended_of};

use std::alloc::{AllocError, Global};
use sw_enumerate::Space;
use sw_examine::QueryName;
use sw_logic::{Formula, Signature};
use sw_meaning::Protocol;
use sw_report::{Asked, spent_line, too_large_line};
use sw_template::Body;
use sw_universe::Size;
use sw_verdict::SafetyQuery;

/// How a query ended a search: it spent its budget of so many steps, or it is too large.
#[derive(Clone, Copy)]
pub enum Ending {
    Spent(u64),
    TooLarge(Size),
}

/// The class that a query asks about.
fn body_of(query: &QueryName) -> Option<&Body>
    ensures { option_copied result ≡ named_class query.now }
{
    match query {
        QueryName::Start(body) => Some(body),
        QueryName::Follow(body) => Some(body),
        QueryName::Step(_, body) => Some(body),
        QueryName::Join(_, body) => Some(body),
        QueryName::SafetyStart => None,
        QueryName::SafetyStep(_) => None,
    }
}

/// The formula of that class.
fn formula_asked(space: &Space, query: &QueryName) -> Result<Formula, AllocError>
    ensures { IfOk result (λ f. (c : Class) → named_class query.now ≡ Some c → f ≡ formula_in space.now c.cubes) }
{
    match body_of(query) {
        Some(body) => space.formula(body),
        None => Ok(Formula::True),
    }
}

/// The query, as it is told, about a class of this formula.
fn asked<'a>(protocol: &'a Protocol, query: &QueryName, formula: &'a Formula) -> Asked<'a>
    ensures { asked_of result ≡ told_query protocol.now query.now formula.now }
{
    match query {
        QueryName::Start(_) => Asked::Start(formula),
        QueryName::Follow(_) => Asked::Follow(formula),
        QueryName::Step(number, _) => match protocol.transitions.get(*number as usize) {
            Some(transition) => Asked::Step(transition, formula),
            None => Asked::SafetyStart,
        },
        QueryName::Join(number, _) => match protocol.transitions.get(*number as usize) {
            Some(transition) => Asked::Join(transition, formula),
            None => Asked::SafetyStart,
        },
        QueryName::SafetyStart => Asked::SafetyStart,
        QueryName::SafetyStep(number) => match protocol.transitions.get(*number as usize) {
            Some(transition) => Asked::SafetyStep(transition),
            None => Asked::SafetyStart,
        },
    }
}

/// The query of safety, as it is told.
fn safety_asked(protocol: &Protocol, query: SafetyQuery) -> Asked<'_>
    ensures { asked_of result ≡ told_safety protocol.now query }
{
    match query {
        SafetyQuery::Start => Asked::SafetyStart,
        SafetyQuery::Step(number) => match protocol.transitions.get(number as usize) {
            Some(transition) => Asked::SafetyStep(transition),
            None => Asked::SafetyStart,
        },
    }
}

fn line_of(
    alloc: Global,
    signature: &Signature,
    asked: Asked,
    ending: Ending,
) -> Result<String, AllocError>
    ensures { IfOk result (λ line. string_bytes line ≡ ended_line signature.now (asked_of asked.entry) (ended_of ending)) }
{
    match ending {
        Ending::Spent(most) => spent_line(alloc, signature, asked, most),
        Ending::TooLarge(size) => {
            too_large_line(alloc, signature, asked, size.terms, size.instances)
        }
    }
}

/// The line of a query about a class of the space that ended so.
pub fn class_line(
    alloc: Global,
    protocol: &Protocol,
    space: &Space,
    query: &QueryName,
    ending: Ending,
) -> Result<String, AllocError>
    ensures { IfOk result (λ line. (c : Class) → named_class query.now ≡ Some c → string_bytes line ≡ ended_line protocol.now.signature (told_query protocol.now query.now (formula_in space.now c.cubes)) (ended_of ending)) }
{
    let formula = formula_asked(space, query)?;
    line_of(
        alloc,
        &protocol.signature,
        asked(protocol, query, &formula),
        ending,
    )
}

/// The line of a query of safety that ended so.
pub fn safety_line(
    alloc: Global,
    protocol: &Protocol,
    query: SafetyQuery,
    ending: Ending,
) -> Result<String, AllocError>
    ensures { IfOk result (λ line. string_bytes line ≡ ended_line protocol.now.signature (told_safety protocol.now query) (ended_of ending)) }
{
    line_of(
        alloc,
        &protocol.signature,
        safety_asked(protocol, query),
        ending,
    )
}
