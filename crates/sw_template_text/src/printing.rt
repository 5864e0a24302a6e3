//! Writing a template canonically.
ghost use Rattle.std.specs.Prelude.{◌≡◌, ◌++◌, IfOk, OnOk, string_bytes};
ghost use Rattle.std.specs.Fmt.{decimal};
ghost use Rattle.std.specs.List.{flat_map};
ghost use Rattle.sw_meaning.specs.ProtocolText.{sort_text};
ghost use Rattle.sw_template_text.specs.Canonical.{quantifier_text, run_text, bounds_text, template_text};

use std::alloc::{AllocError, Global};
use sw_logic::Signature;
use sw_meaning::{Run, Template};

fn quantifier(universal: bool) -> &'static str
    ensures { result.now ≡ quantifier_text universal }
{
    if universal { "forall " } else { "exists " }
}

fn sort_name(sig: &Signature, sort: u32) -> &str
    ensures { result.now ≡ sort_text sig.now sort }
{
    match sig.sorts.get(sort as usize) {
        Some(name) => name.as_str(),
        None => "",
    }
}

fn push_number(alloc: Global, text: &mut String, number: u32) -> Result<(), AllocError>
    ensures { OnOk result (string_bytes text.new ≡ string_bytes text.old ++ decimal number) }
{
    let digits = format!(in alloc; "{number}")?;
    text.push_str(digits.as_str())
}

fn push_run(alloc: Global, text: &mut String, sig: &Signature, run: &Run) -> Result<(), AllocError>
    ensures { OnOk result (string_bytes text.new ≡ string_bytes text.old ++ run_text sig.now run.now) }
{
    text.push_str(quantifier(run.universal))?;
    push_number(alloc, text, run.count)?;
    text.push_str(" ")?;
    text.push_str(sort_name(sig, run.sort))?;
    text.push_str(" ")
}

fn push_runs(
    alloc: Global,
    text: &mut String,
    sig: &Signature,
    runs: &[Run],
) -> Result<(), AllocError>
    ensures { OnOk result (string_bytes text.new ≡ string_bytes text.old ++ flat_map (run_text sig.now) runs.now) }
{
    for run in runs {
        push_run(alloc, text, sig, run)?;
    }
    Ok(())
}

fn push_bounds(
    alloc: Global,
    text: &mut String,
    literals: u32,
    depth: u32,
    terms: u32,
) -> Result<(), AllocError>
    ensures { OnOk result (string_bytes text.new ≡ string_bytes text.old ++ bounds_text literals depth terms) }
{
    text.push_str("literals ")?;
    push_number(alloc, text, literals)?;
    text.push_str(" depth ")?;
    push_number(alloc, text, depth)?;
    text.push_str(" terms ")?;
    push_number(alloc, text, terms)
}

/// The canonical text of a template: every word stands, with one blank between each two.
pub fn print_template(
    alloc: Global,
    template: &Template,
    sig: &Signature,
) -> Result<String, AllocError>
    ensures { IfOk result (λ text. string_bytes text ≡ template_text sig.now template.now) }
{
    let mut text = String::new(alloc);
    push_runs(alloc, &mut text, sig, template.prefix.as_slice())?;
    push_bounds(
        alloc,
        &mut text,
        template.literals,
        template.depth,
        template.terms,
    )?;
    Ok(text)
}
