//! Formulas as canonical text.
ghost use Rattle.std.specs.Prelude.{◌≡◌, ◌+◌, ◌++◌, [], ◌==◌, if◌then◌else◌, length, map, string_bytes, slice_get, unwrap_or, Some, MatchResult, IfOk, OnOk, codes};
ghost use Rattle.sw_logic.specs.Canonical.{joined, name_or_none, symbol_text, arguments_text, term_text, binder_text, quantifier_text, shown, text_of, names_of};
ghost use Rattle.sw_print.specs.Printing.{names_in, needs_brackets};

use std::alloc::{AllocError, Global};
use sw_logic::{Binder, Formula, Name, Signature, Term};

/// The variables in scope: those around a formula, or those of an outer scope with the binders inside
/// it.
#[derive(Clone, Copy)]
enum Variables<'a> {
    Free(&'a [Binder]),
    Bound(&'a Variables<'a>, &'a [Binder]),
}

impl Variables<'_> {
    /// The name of the variable in a place, or how far the place is past the scope.
    fn locate(&self, place: usize) -> Result<&Name, usize>
        ensures { MatchResult result (λ name. slice_get (names_in self.now) place ≡ Some name.now) (λ past. place ≡ length (names_in self.now) + past) }
    {
        match self {
            Variables::Free(binders) => name_in(binders, place),
            Variables::Bound(outer, binders) => {
                match outer.locate(place) {
                    Ok(name) => Ok(name),
                    Err(past) => name_in(binders, past),
                }
            }
        }
    }

    fn name_of(&self, place: u32) -> &str
        ensures { result.now ≡ unwrap_or (slice_get (names_in self.now) place) [] }
    {
        match self.locate(place as usize) {
            Ok(name) => name.as_str(),
            Err(_) => "",
        }
    }
}

/// The name of the binder in a place, or how far the place is past them.
fn name_in(binders: &[Binder], place: usize) -> Result<&Name, usize>
    ensures { MatchResult result (λ name. slice_get (names_of binders.now) place ≡ Some name.now) (λ past. place ≡ length (names_of binders.now) + past) }
{
    match binders.get(place) {
        Some(binder) => Ok(&binder.name),
        None => Err(place - binders.len()),
    }
}

/// The name of the symbol of this number; of none the empty text.
pub fn symbol_name(signature: &Signature, symbol: u32) -> &str
    ensures { result.now ≡ name_or_none (slice_get signature.now.symbols symbol) }
{
    match signature.symbols.get(symbol as usize) {
        Some(symbol) => symbol.name.as_str(),
        None => "",
    }
}

/// The name of the sort of this number; of none the empty text.
pub fn sort_name(signature: &Signature, sort: u32) -> &str
    ensures { result.now ≡ unwrap_or (slice_get signature.now.sorts sort) [] }
{
    match signature.sorts.get(sort as usize) {
        Some(name) => name.as_str(),
        None => "",
    }
}

fn push_symbol(
    text: &mut String,
    signature: &Signature,
    symbol: u32,
    post: bool,
) -> Result<(), AllocError>
    ensures { OnOk result (string_bytes text.new ≡ string_bytes text.old ++ symbol_text signature.now symbol post) }
{
    text.push_str(symbol_name(signature, symbol))?;
    text.push_str(if post { "'" } else { "" })
}

/// Appends what stands before the piece of this number.
fn push_between(text: &mut String, number: usize, between: &str) -> Result<(), AllocError>
    ensures { OnOk result (string_bytes text.new ≡ string_bytes text.old ++ (if number == 0 then [] else between.now)) }
{
    if number == 0 {
        Ok(())
    } else {
        text.push_str(between)
    }
}

#[cycle(terms)]
fn push_term(
    text: &mut String,
    signature: &Signature,
    scope: &Variables,
    term: &Term,
) -> Result<(), AllocError>
    ensures { OnOk result (string_bytes text.new ≡ string_bytes text.old ++ term_text signature.now (names_in scope.now) term.now) }
{
    match term {
        Term::Variable(place) => text.push_str(scope.name_of(*place)),
        Term::Apply { symbol, post, args } => {
            push_symbol(text, signature, *symbol, *post)?;
            push_arguments(text, signature, scope, args.as_slice())
        }
    }
}

#[cycle(terms)]
fn push_arguments(
    text: &mut String,
    signature: &Signature,
    scope: &Variables,
    args: &[Term],
) -> Result<(), AllocError>
    ensures { OnOk result (string_bytes text.new ≡ string_bytes text.old ++ arguments_text (map (term_text signature.now (names_in scope.now)) args.now)) }
{
    if args.is_empty() {
        return Ok(());
    }
    text.push_str("(")?;
    push_terms(text, signature, scope, args)?;
    text.push_str(")")
}

#[cycle(terms)]
fn push_terms(
    text: &mut String,
    signature: &Signature,
    scope: &Variables,
    terms: &[Term],
) -> Result<(), AllocError>
    ensures { OnOk result (string_bytes text.new ≡ string_bytes text.old ++ joined (codes ", ") (map (term_text signature.now (names_in scope.now)) terms.now)) }
{
    for (i, term) in terms.iter().enumerate() {
        push_between(text, i, ", ")?;
        push_term(text, signature, scope, term)?;
    }
    Ok(())
}

fn push_binder(text: &mut String, signature: &Signature, binder: &Binder) -> Result<(), AllocError>
    ensures { OnOk result (string_bytes text.new ≡ string_bytes text.old ++ binder_text signature.now binder.now) }
{
    text.push_str(binder.name.as_str())?;
    text.push_str(": ")?;
    text.push_str(sort_name(signature, binder.sort))
}

/// Appends binders as they stand in a list.
pub fn push_binders(
    text: &mut String,
    signature: &Signature,
    binders: &[Binder],
) -> Result<(), AllocError>
    ensures { OnOk result (string_bytes text.new ≡ string_bytes text.old ++ joined (codes ", ") (map (binder_text signature.now) binders.now)) }
{
    for (i, binder) in binders.iter().enumerate() {
        push_between(text, i, ", ")?;
        push_binder(text, signature, binder)?;
    }
    Ok(())
}

/// Appends what stands before the body of a quantifier.
fn push_quantifier(
    text: &mut String,
    signature: &Signature,
    word: &str,
    binders: &[Binder],
) -> Result<(), AllocError>
    ensures { OnOk result (string_bytes text.new ≡ string_bytes text.old ++ (word.now ++ codes " " ++ joined (codes ", ") (map (binder_text signature.now) binders.now) ++ codes ". ")) }
{
    text.push_str(word)?;
    text.push_str(" ")?;
    push_binders(text, signature, binders)?;
    text.push_str(". ")
}

/// Appends two terms and the sign between them.
fn push_sides(
    text: &mut String,
    signature: &Signature,
    scope: &Variables,
    left: &Term,
    sign: &str,
    right: &Term,
) -> Result<(), AllocError>
    ensures { let scope = names_in scope.now in OnOk result (string_bytes text.new ≡ string_bytes text.old ++ (term_text signature.now scope left.now ++ sign.now ++ term_text signature.now scope right.now)) }
{
    push_term(text, signature, scope, left)?;
    text.push_str(sign)?;
    push_term(text, signature, scope, right)
}

/// Whether a formula stands in brackets as an operand.
fn needs_brackets(formula: &Formula) -> bool
    ensures { result ≡ needs_brackets formula.now }
{
    match formula {
        Formula::True
        | Formula::False
        | Formula::Holds { .. }
        | Formula::Equal(_, _)
        | Formula::Not(_) => false,
        Formula::All(_)
        | Formula::Any(_)
        | Formula::Implies(_, _)
        | Formula::Iff(_, _)
        | Formula::ForAll(_, _)
        | Formula::Exists(_, _) => true,
    }
}

/// Appends a formula's text by itself.
#[cycle(formulas)]
fn push_alone(
    text: &mut String,
    signature: &Signature,
    scope: &Variables,
    formula: &Formula,
) -> Result<(), AllocError>
    ensures { OnOk result (string_bytes text.new ≡ string_bytes text.old ++ (shown signature.now (names_in scope.now) formula.now).text) }
{
    match formula {
        Formula::True => text.push_str("true"),
        Formula::False => text.push_str("false"),
        Formula::Holds { symbol, post, args } => {
            push_symbol(text, signature, *symbol, *post)?;
            push_arguments(text, signature, scope, args.as_slice())
        }
        Formula::Equal(a, b) => push_sides(text, signature, scope, a, " = ", b),
        Formula::Not(part) => push_negated(text, signature, scope, part.get()),
        Formula::All(parts) => push_operands(text, signature, scope, parts.as_slice(), " & "),
        Formula::Any(parts) => push_operands(text, signature, scope, parts.as_slice(), " | "),
        Formula::Implies(a, b) => {
            push_operand(text, signature, scope, a.get())?;
            text.push_str(" -> ")?;
            push_operand(text, signature, scope, b.get())
        }
        Formula::Iff(a, b) => {
            push_operand(text, signature, scope, a.get())?;
            text.push_str(" <-> ")?;
            push_operand(text, signature, scope, b.get())
        }
        Formula::ForAll(binders, body) => {
            push_quantified(
                text,
                signature,
                scope,
                "forall",
                binders.as_slice(),
                body.get(),
            )
        }
        Formula::Exists(binders, body) => {
            push_quantified(
                text,
                signature,
                scope,
                "exists",
                binders.as_slice(),
                body.get(),
            )
        }
    }
}

/// Appends a formula's text as an operand.
#[cycle(formulas)]
fn push_operand(
    text: &mut String,
    signature: &Signature,
    scope: &Variables,
    formula: &Formula,
) -> Result<(), AllocError>
    ensures { OnOk result (string_bytes text.new ≡ string_bytes text.old ++ (shown signature.now (names_in scope.now) formula.now).operand) }
{
    if !needs_brackets(formula) {
        return push_alone(text, signature, scope, formula);
    }
    text.push_str("(")?;
    push_alone(text, signature, scope, formula)?;
    text.push_str(")")
}

/// Appends the text of a formula's negation.
#[cycle(formulas)]
fn push_negated(
    text: &mut String,
    signature: &Signature,
    scope: &Variables,
    formula: &Formula,
) -> Result<(), AllocError>
    ensures { OnOk result (string_bytes text.new ≡ string_bytes text.old ++ (shown signature.now (names_in scope.now) formula.now).negated) }
{
    if let Formula::Equal(a, b) = formula {
        return push_sides(text, signature, scope, a, " != ", b);
    }
    text.push_str("!")?;
    push_operand(text, signature, scope, formula)
}

/// Appends a quantifier with its body.
#[cycle(formulas)]
fn push_quantified(
    text: &mut String,
    signature: &Signature,
    scope: &Variables,
    word: &str,
    binders: &[Binder],
    body: &Formula,
) -> Result<(), AllocError>
    ensures { let inner = shown signature.now (names_in scope.now ++ names_of binders.now) body.now in OnOk result (string_bytes text.new ≡ string_bytes text.old ++ (quantifier_text signature.now word.now binders.now inner.text).text) }
{
    push_quantifier(text, signature, word, binders)?;
    push_alone(text, signature, &Variables::Bound(&*scope, binders), body)
}

#[cycle(formulas)]
fn push_operands(
    text: &mut String,
    signature: &Signature,
    scope: &Variables,
    parts: &[Formula],
    sign: &str,
) -> Result<(), AllocError>
    ensures { OnOk result (string_bytes text.new ≡ string_bytes text.old ++ joined sign.now (map (λ f. (shown signature.now (names_in scope.now) f).operand) parts.now)) }
{
    for (i, part) in parts.iter().enumerate() {
        push_between(text, i, sign)?;
        push_operand(text, signature, scope, part)?;
    }
    Ok(())
}

/// Appends the canonical text of the formula. `variables` are those in scope, outermost first.
pub fn push_formula(
    text: &mut String,
    signature: &Signature,
    variables: &[Binder],
    formula: &Formula,
) -> Result<(), AllocError>
    ensures { OnOk result (string_bytes text.new ≡ string_bytes text.old ++ text_of signature.now (names_of variables.now) formula.now) }
{
    push_alone(text, signature, &Variables::Free(variables), formula)
}

/// The canonical text of the formula, where these variables are in scope, outermost first.
pub fn print_named(
    alloc: Global,
    signature: &Signature,
    variables: &[Binder],
    formula: &Formula,
) -> Result<String, AllocError>
    ensures { IfOk result (λ t. string_bytes t ≡ text_of signature.now (names_of variables.now) formula.now) }
{
    let mut text = String::new(alloc);
    push_formula(&mut text, signature, variables, formula)?;
    Ok(text)
}
