//! The canonical text of a protocol.
ghost use Rattle.std.specs.Prelude.{◌≡◌, ◌++◌, IfOk, OnOk, string_bytes, Some};
ghost use Rattle.sw_meaning.specs.ProtocolText.{protocol_text, declaration_text, change_text, sort_text, arguments_text, name_text, kind_text, symbol_text, statement_text, params_text, modifies_text, heading_text, transition_text};
ghost use Rattle.sw_protocol.specs.Printing.{others_text, declaration_line};

use std::alloc::{AllocError, Global};
use sw_logic::{Binder, Formula, Signature, Symbol, SymbolKind};
use sw_meaning::{Decl, Protocol, Transition};
use sw_print::{push_binders, push_formula, sort_name, symbol_name};

/// The sorts after the first.
fn push_other_sorts(
    text: &mut String,
    signature: &Signature,
    sorts: &[u32],
) -> Result<(), AllocError>
    ensures { OnOk result (string_bytes text.new ≡ string_bytes text.old ++ others_text (sort_text signature.now) sorts.now) }
{
    for sort in sorts {
        text.push_str(", ")?;
        text.push_str(sort_name(signature, *sort))?;
    }
    Ok(())
}

/// The sorts of arguments in brackets, if there are any.
fn push_arguments(text: &mut String, signature: &Signature, sorts: &[u32]) -> Result<(), AllocError>
    ensures { OnOk result (string_bytes text.new ≡ string_bytes text.old ++ arguments_text signature.now sorts.now) }
{
    let Some((first, others)) = sorts.split_first() else {
        return Ok(());
    };
    text.push_str("(")?;
    text.push_str(sort_name(signature, *first))?;
    push_other_sorts(text, signature, others)?;
    text.push_str(")")
}

fn push_change(text: &mut String, mutable: bool) -> Result<(), AllocError>
    ensures { OnOk result (string_bytes text.new ≡ string_bytes text.old ++ change_text mutable) }
{
    if mutable {
        text.push_str("mutable ")
    } else {
        text.push_str("immutable ")
    }
}

/// A symbol without what may change of it.
fn push_kind(text: &mut String, signature: &Signature, symbol: &Symbol) -> Result<(), AllocError>
    ensures { OnOk result (string_bytes text.new ≡ string_bytes text.old ++ kind_text signature.now symbol.now symbol.now.kind) }
{
    match symbol.kind {
        SymbolKind::Relation => {
            text.push_str("relation ")?;
            text.push_str(symbol.name.as_str())?;
            push_arguments(text, signature, symbol.args.as_slice())
        }
        SymbolKind::Constant => {
            text.push_str("constant ")?;
            text.push_str(symbol.name.as_str())?;
            text.push_str(": ")?;
            text.push_str(sort_name(signature, symbol.gives))
        }
        SymbolKind::Function => {
            text.push_str("function ")?;
            text.push_str(symbol.name.as_str())?;
            push_arguments(text, signature, symbol.args.as_slice())?;
            text.push_str(": ")?;
            text.push_str(sort_name(signature, symbol.gives))
        }
    }
}

fn push_symbol(text: &mut String, signature: &Signature, symbol: &Symbol) -> Result<(), AllocError>
    ensures { OnOk result (string_bytes text.new ≡ string_bytes text.old ++ symbol_text signature.now (Some symbol.now)) }
{
    push_change(text, symbol.mutable)?;
    push_kind(text, signature, symbol)
}

fn push_statement(
    text: &mut String,
    signature: &Signature,
    keyword: &str,
    formula: &Formula,
) -> Result<(), AllocError>
    ensures { OnOk result (string_bytes text.new ≡ string_bytes text.old ++ statement_text signature.now keyword.now (Some formula.now)) }
{
    text.push_str(keyword)?;
    push_formula(text, signature, &[], formula)
}

/// Parameters in brackets, if there are any.
fn push_params(
    text: &mut String,
    signature: &Signature,
    params: &[Binder],
) -> Result<(), AllocError>
    ensures { OnOk result (string_bytes text.new ≡ string_bytes text.old ++ params_text signature.now params.now) }
{
    if params.is_empty() {
        return Ok(());
    }
    text.push_str("(")?;
    push_binders(text, signature, params)?;
    text.push_str(")")
}

/// The symbols after the first.
fn push_other_symbols(
    text: &mut String,
    signature: &Signature,
    symbols: &[u32],
) -> Result<(), AllocError>
    ensures { OnOk result (string_bytes text.new ≡ string_bytes text.old ++ others_text (name_text signature.now) symbols.now) }
{
    for symbol in symbols {
        text.push_str(", ")?;
        text.push_str(symbol_name(signature, *symbol))?;
    }
    Ok(())
}

/// What is modified, if anything is.
fn push_modifies(
    text: &mut String,
    signature: &Signature,
    symbols: &[u32],
) -> Result<(), AllocError>
    ensures { OnOk result (string_bytes text.new ≡ string_bytes text.old ++ modifies_text signature.now symbols.now) }
{
    let Some((first, others)) = symbols.split_first() else {
        return Ok(());
    };
    text.push_str(" modifies ")?;
    text.push_str(symbol_name(signature, *first))?;
    push_other_symbols(text, signature, others)
}

/// A transition up to the colon.
fn push_heading(
    text: &mut String,
    signature: &Signature,
    transition: &Transition,
) -> Result<(), AllocError>
    ensures { OnOk result (string_bytes text.new ≡ string_bytes text.old ++ heading_text signature.now transition.now) }
{
    text.push_str("transition ")?;
    text.push_str(transition.name.as_str())?;
    push_params(text, signature, transition.params.as_slice())?;
    push_modifies(text, signature, transition.modifies.as_slice())
}

fn push_transition(
    text: &mut String,
    signature: &Signature,
    transition: &Transition,
) -> Result<(), AllocError>
    ensures { OnOk result (string_bytes text.new ≡ string_bytes text.old ++ transition_text signature.now (Some transition.now)) }
{
    push_heading(text, signature, transition)?;
    text.push_str(": ")?;
    push_formula(
        text,
        signature,
        transition.params.as_slice(),
        &transition.formula,
    )
}

/// A declaration without its semicolon.
fn push_declaration(
    text: &mut String,
    protocol: &Protocol,
    declaration: Decl,
) -> Result<(), AllocError>
    ensures { OnOk result (string_bytes text.new ≡ string_bytes text.old ++ declaration_text protocol.now declaration) }
{
    let signature = &protocol.signature;
    match declaration {
        Decl::Sort(sort) => {
            text.push_str("sort ")?;
            text.push_str(sort_name(signature, sort))
        }
        Decl::Symbol(k) => match signature.symbols.get(k as usize) {
            Some(symbol) => push_symbol(text, signature, symbol),
            None => Ok(()),
        },
        Decl::Axiom(k) => match protocol.axioms.get(k as usize) {
            Some(formula) => push_statement(text, signature, "axiom ", formula),
            None => Ok(()),
        },
        Decl::Init(k) => match protocol.inits.get(k as usize) {
            Some(formula) => push_statement(text, signature, "init ", formula),
            None => Ok(()),
        },
        Decl::Transition(k) => match protocol.transitions.get(k as usize) {
            Some(transition) => push_transition(text, signature, transition),
            None => Ok(()),
        },
        Decl::Safety(k) => match protocol.safeties.get(k as usize) {
            Some(formula) => push_statement(text, signature, "safety ", formula),
            None => Ok(()),
        },
    }
}

/// A declaration with its semicolon, on a line.
fn push_line(text: &mut String, protocol: &Protocol, declaration: Decl) -> Result<(), AllocError>
    ensures { OnOk result (string_bytes text.new ≡ string_bytes text.old ++ declaration_line protocol.now declaration) }
{
    push_declaration(text, protocol, declaration)?;
    text.push_str(";\n")
}

/// The canonical text of the protocol: a declaration a line, in the order in which they were declared.
pub fn print_protocol(alloc: Global, protocol: &Protocol) -> Result<String, AllocError>
    ensures { IfOk result (λ t. string_bytes t ≡ protocol_text protocol.now) }
{
    let mut text = String::new(alloc);
    for declaration in protocol.order.as_slice() {
        push_line(&mut text, protocol, *declaration)?;
    }
    Ok(text)
}
