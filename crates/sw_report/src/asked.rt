//! The lines of a query that was spent or is too large, and of a text that is too long.
ghost use Rattle.std.specs.Prelude.{◌≡◌, ◌++◌, [], string_bytes, IfOk, OnOk, codes};
ghost use Rattle.std.specs.Fmt.{decimal};
ghost use Rattle.sw_logic.specs.Canonical.{text_of};
ghost use Rattle.sw_report.specs.Words.{asked_of, query_text, spent_line, too_large_line, text_over_line};

use std::alloc::{AllocError, Global};
use sw_logic::{Formula, Signature};
use sw_meaning::Transition;
use sw_print::push_formula;

/// A query by what it asks.
#[derive(Clone, Copy)]
pub enum Asked<'a> {
    /// A start in which the formula is false.
    Start(&'a Formula),
    /// A state of the list in which it is false.
    Follow(&'a Formula),
    /// A step that leaves it.
    Step(&'a Transition, &'a Formula),
    /// A step that leaves safety or it.
    Join(&'a Transition, &'a Formula),
    /// A start without safety.
    SafetyStart,
    /// A step that leaves safety.
    SafetyStep(&'a Transition),
}

/// Appends words and a formula.
fn push_of(
    text: &mut String,
    words: &str,
    signature: &Signature,
    formula: &Formula,
) -> Result<(), AllocError>
    ensures { OnOk result (string_bytes text.new ≡ string_bytes text.old ++ (words.now ++ text_of signature.now [] formula.now)) }
{
    text.push_str(words)?;
    push_formula(text, signature, &[], formula)
}

/// Appends words and a transition's name.
fn push_named(text: &mut String, words: &str, transition: &Transition) -> Result<(), AllocError>
    ensures { OnOk result (string_bytes text.new ≡ string_bytes text.old ++ (words.now ++ transition.now.name)) }
{
    text.push_str(words)?;
    text.push_str(transition.name.as_str())
}

/// Appends words and a number.
fn push_number(
    alloc: Global,
    text: &mut String,
    words: &str,
    number: u128,
) -> Result<(), AllocError>
    ensures { OnOk result (string_bytes text.new ≡ string_bytes text.old ++ (words.now ++ decimal number)) }
{
    text.push_str(words)?;
    let told = format!(in alloc; "{number}")?;
    text.push_str(told.as_str())
}

fn push_query(text: &mut String, signature: &Signature, asked: Asked) -> Result<(), AllocError>
    ensures { OnOk result (string_bytes text.new ≡ string_bytes text.old ++ query_text signature.now (asked_of asked.entry)) }
{
    match asked {
        Asked::Start(formula) => push_of(text, "start of ", signature, formula),
        Asked::Follow(formula) => push_of(text, "follow of ", signature, formula),
        Asked::Step(transition, formula) => {
            push_named(text, "step ", transition)?;
            push_of(text, " of ", signature, formula)
        }
        Asked::Join(transition, formula) => {
            push_named(text, "join ", transition)?;
            push_of(text, " of ", signature, formula)
        }
        Asked::SafetyStart => text.push_str("safety at start"),
        Asked::SafetyStep(transition) => push_named(text, "safety step ", transition),
    }
}

/// The line of a query on which a budget was spent.
pub fn spent_line(
    alloc: Global,
    signature: &Signature,
    asked: Asked,
    budget: u64,
) -> Result<String, AllocError>
    ensures { IfOk result (λ text. string_bytes text ≡ spent_line signature.now (asked_of asked.entry) budget) }
{
    let mut text = String::new(alloc);
    text.push_str("swiss: Spent on ")?;
    push_query(&mut text, signature, asked)?;
    push_number(alloc, &mut text, ": ", budget as u128)?;
    text.push_str("\n")?;
    Ok(text)
}

/// The line of a query that is too large.
pub fn too_large_line(
    alloc: Global,
    signature: &Signature,
    asked: Asked,
    terms: u128,
    instances: u128,
) -> Result<String, AllocError>
    ensures { IfOk result (λ text. string_bytes text ≡ too_large_line signature.now (asked_of asked.entry) terms instances) }
{
    let mut text = String::new(alloc);
    text.push_str("swiss: TooLarge on ")?;
    push_query(&mut text, signature, asked)?;
    push_number(alloc, &mut text, ": terms ", terms)?;
    push_number(alloc, &mut text, ", instances ", instances)?;
    text.push_str("\n")?;
    Ok(text)
}

/// The line of a text with more bytes than are written.
pub fn text_over_line(alloc: Global, bytes: usize) -> Result<String, AllocError>
    ensures { IfOk result (λ text. string_bytes text ≡ text_over_line bytes) }
{
    format!(in alloc; "swiss: TextOver {bytes}\n")
}
