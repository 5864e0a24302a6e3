//! The report on a list and a word.
ghost use Rattle.std.specs.Prelude.{◌≡◌, ◌≤◌, ◌++◌, [], string_bytes, length, IfOk, IfErr, OnOk, codes};
ghost use Rattle.std.specs.List.{flat_map};
ghost use Rattle.std.specs.Fmt.{decimal};
ghost use Rattle.std.specs.Option.{option_copied};
ghost use Rattle.sw_meaning.specs.Report.{line, word_text, class_count, closed_line, report_text};
ghost use Rattle.sw_report.specs.Words.{word_of, word_status, invariant_line, IsOver};

use std::alloc::{AllocError, Global};
use sw_logic::{Formula, Signature};
use sw_meaning::{Protocol, Template};
use sw_print::push_formula;

/// The most bytes of a text that is written.
pub const OUTPUT_LIMIT: usize = 268_435_456;

/// What a list shows of safety.
#[derive(Clone, Copy)]
pub enum Word<'a> {
    Violated,
    Safe,
    /// With this formula safety is kept.
    SafeWith(&'a Formula),
    /// No formula of the template serves so.
    Exhausted,
    Open,
}

/// Why there is no report: its text would have so many bytes, more than are written; or want of memory.
#[derive(Drop)]
pub enum ReportError {
    TextOver(usize),
    Memory,
}

impl From<AllocError> for ReportError {
    ghost use Rattle.sw_report.specs.declared.report.ReportError.TheVariants.{Memory};

    ghost from_gives = { λ _ e. e ≡ Memory };

    fn from(_error: AllocError) -> ReportError {
        ReportError::Memory
    }
}

/// The status of a run that ends with this word.
pub fn status_of(word: Word) -> u8
    ensures { result ≡ word_status (word_of word.entry) }
{
    match word {
        Word::Safe | Word::SafeWith(_) => 0,
        Word::Exhausted | Word::Open => 10,
        Word::Violated => 11,
    }
}

fn classes_line(alloc: Global, classes: u64) -> Result<String, AllocError>
    ensures { IfOk result (λ text. string_bytes text ≡ line (codes "classes " ++ decimal classes)) }
{
    format!(in alloc; "classes {classes}\n")
}

fn push_invariant(
    text: &mut String,
    signature: &Signature,
    formula: &Formula,
) -> Result<(), AllocError>
    ensures { OnOk result (string_bytes text.new ≡ string_bytes text.old ++ invariant_line signature.now formula.now) }
{
    text.push_str("invariant ")?;
    push_formula(text, signature, &[], formula)?;
    text.push_str("\n")
}

fn push_invariants(
    text: &mut String,
    signature: &Signature,
    list: &[Formula],
) -> Result<(), AllocError>
    ensures { OnOk result (string_bytes text.new ≡ string_bytes text.old ++ flat_map (invariant_line signature.now) list.now) }
{
    for formula in list {
        push_invariant(text, signature, formula)?;
    }
    Ok(())
}

fn push_closed(text: &mut String, template: Option<&Template>) -> Result<(), AllocError>
    ensures { OnOk result (string_bytes text.new ≡ string_bytes text.old ++ closed_line (option_copied template.entry)) }
{
    match template {
        Some(_) => text.push_str("closed under single formulas\n"),
        None => Ok(()),
    }
}

fn push_word(text: &mut String, signature: &Signature, word: Word) -> Result<(), AllocError>
    ensures { OnOk result (string_bytes text.new ≡ string_bytes text.old ++ word_text signature.now (word_of word.entry)) }
{
    match word {
        Word::Violated => text.push_str("violated"),
        Word::Safe => text.push_str("safe"),
        Word::SafeWith(formula) => {
            text.push_str("safe with ")?;
            push_formula(text, signature, &[], formula)
        }
        Word::Exhausted => text.push_str("exhausted"),
        Word::Open => text.push_str("open"),
    }
}

fn whole_text(
    alloc: Global,
    signature: &Signature,
    template: Option<&Template>,
    classes: u64,
    list: &[Formula],
    word: Word,
) -> Result<String, AllocError>
    ensures { IfOk result (λ text. string_bytes text ≡ line (codes "classes " ++ decimal classes) ++ flat_map (invariant_line signature.now) list.now ++ closed_line (option_copied template.entry) ++ line (codes "verdict " ++ word_text signature.now (word_of word.entry))) }
{
    let mut text = classes_line(alloc, classes)?;
    push_invariants(&mut text, signature, list)?;
    push_closed(&mut text, template)?;
    text.push_str("verdict ")?;
    push_word(&mut text, signature, word)?;
    text.push_str("\n")?;
    Ok(text)
}

/// The text of the report on a list and its word. `classes` is the number of classes of the template,
/// 0 without one.
pub fn report_text(
    alloc: Global,
    protocol: &Protocol,
    template: Option<&Template>,
    classes: u64,
    list: &[Formula],
    word: Word,
) -> Result<String, ReportError>
    requires counted { classes ≡ class_count protocol.now.signature (option_copied template) }
    ensures text { IfOk result (λ text. string_bytes text ≡ report_text protocol.now (option_copied template.entry) list.now (word_of word.entry)) }
    ensures within { IfOk result (λ text. length (string_bytes text) ≤ OUTPUT_LIMIT) }
    ensures over { IfErr result (IsOver (report_text protocol.now (option_copied template.entry) list.now (word_of word.entry))) }
{
    let text = whole_text(alloc, &protocol.signature, template, classes, list, word)?;
    if text.len() > OUTPUT_LIMIT {
        return Err(ReportError::TextOver(text.len()));
    }
    Ok(text)
}
