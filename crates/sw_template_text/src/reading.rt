//! Reading the text of a template.
ghost use Rattle.std.specs.Prelude.{◌≡◌, ◌≤◌, ◌<◌, ◌^◌, length, slice_get, Result, Ok, IfOk, IfErr, IfSome};
ghost use Rattle.sw_meaning.specs.declared.template.Template.{Template};
ghost use Rattle.sw_template_text.specs.declared.errors.TemplateError.{TemplateError};
ghost use Rattle.std.specs.List.{AllByRecursion};
ghost use Rattle.sw_scan.specs.Scans.{Scans};
ghost use Rattle.sw_template_text.specs.Texts.{IsKind, IsUncut, HasTemplate, IsTemplate, Resolves, answer_of, words_of, place};

use crate::errors::TemplateError;
use crate::laws::{one_template, texts_are_templates};
use crate::naming::word_of;
use crate::parse::parse;
use crate::resolving::{count_variables, sort_of};
use crate::words::{NamedRun, Numbers, Parsed, Word};
use sqlite_items::Items;
use std::alloc::{AllocError, Global};
use sw_logic::Signature;
use sw_meaning::{Run, Template};
use sw_scan::{ScanError, Token, scan};

/// The most variables of a template, and the most literals of a formula.
const MOST: u128 = 6;

/// Reads a template in a signature. Blanks and comments are those of protocols, and their keywords
/// are no names here either. A sort is the first one of its name.
pub fn read_template(alloc: Global, text: &[u8], sig: &Signature) -> Result<Template, TemplateError>
    requires sorts { length sig.now.sorts < 2 ^ 32 }
    ensures has { IfSome (answer_of result) (HasTemplate sig.now text.now) }
    ensures no_other { (r : Result Template TemplateError) → HasTemplate sig.now text.now r → IfSome (answer_of result) (λ s. s ≡ r) }
    ensures template { IfOk result (IsTemplate sig.now) }
{
    one_template();
    texts_are_templates();
    read(alloc, text, sig)
}

fn read(alloc: Global, text: &[u8], sig: &Signature) -> Result<Template, TemplateError>
    requires sorts { length sig.now.sorts < 2 ^ 32 }
    ensures { IfSome (answer_of result) (HasTemplate sig.now text.now) }
{
    let tokens = match cut(alloc, text) {
        Ok(tokens) => tokens,
        Err(error) => return Err(error),
    };
    let Ok(words) = words_in(alloc, text, tokens.as_slice()) else {
        return Err(TemplateError::Memory);
    };
    match parse(alloc, words.as_slice()) {
        Ok(Parsed::Syntax(number)) => Err(TemplateError::Syntax {
            at: place_of(text, tokens.as_slice(), number),
        }),
        Ok(Parsed::Template(runs, numbers)) => resolve(alloc, text, sig, runs.as_slice(), numbers),
        Err(_) => Err(TemplateError::Memory),
    }
}

/// The tokens of the text.
fn cut(alloc: Global, text: &[u8]) -> Result<Vec<Token>, TemplateError>
    ensures tokens { IfOk result (λ ts. Scans text.now 0 (Ok ts.items)) }
    ensures fits { IfOk result (λ ts. length text.now < 2 ^ 32) }
    ensures refused { IfErr result (IsUncut text.now) }
{
    if text.len() > u32::MAX as usize {
        return Err(TemplateError::Memory);
    }
    match scan(alloc, text) {
        Ok(tokens) => Ok(tokens),
        Err(ScanError::BadByte { at }) => Err(TemplateError::BadByte { at }),
        Err(ScanError::Memory) => Err(TemplateError::Memory),
    }
}

/// The words of the tokens.
fn words_in(alloc: Global, text: &[u8], tokens: &[Token]) -> Result<Vec<Word>, AllocError>
    requires { AllByRecursion (IsKind text.now) tokens.now }
    ensures { IfOk result (λ ws. ws.items ≡ words_of text.now tokens.now) }
{
    let mut words = Vec::new(alloc);
    for token in tokens {
        words.push(word_of(text, token))?;
    }
    Ok(words)
}

/// Where the word of a number stands, or where the text ends.
fn place_of(text: &[u8], tokens: &[Token], number: usize) -> u32
    requires { length text.now < 2 ^ 32 }
    ensures { result ≡ place text.now (slice_get tokens.now number) }
{
    match tokens.get(number) {
        Some(token) => token.at,
        None => text.len() as u32,
    }
}

/// The template of the runs that were read, whose names are looked up.
fn resolve(
    alloc: Global,
    text: &[u8],
    sig: &Signature,
    runs: &[NamedRun],
    numbers: Numbers,
) -> Result<Template, TemplateError>
    requires sorts { length sig.now.sorts < 2 ^ 32 }
    ensures { IfSome (answer_of result) (Resolves sig.now text.now runs.now numbers) }
{
    let mut prefix = Items::new(alloc);
    for named in runs {
        let Some(sort) = sort_of(text, sig, named) else {
            return Err(TemplateError::UnknownSort { at: named.at });
        };
        let Ok(()) = prefix.push(Run {
            universal: named.universal,
            count: named.count,
            sort,
        }) else {
            return Err(TemplateError::Memory);
        };
    }
    let n = count_variables(prefix.as_slice());
    if n > MOST {
        return Err(TemplateError::VariablesOver { n });
    }
    let literals = u128::from(numbers.literals);
    if literals > MOST {
        return Err(TemplateError::LiteralsOver { n: literals });
    }
    Ok(Template {
        prefix,
        literals: numbers.literals,
        depth: numbers.depth,
        terms: numbers.terms,
    })
}
