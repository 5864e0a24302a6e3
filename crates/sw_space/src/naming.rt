//! The space that a template's text names over a protocol.
ghost use Rattle.std.specs.Prelude.{◌≡◌, ◌⊎◌, ◌<◌, ◌^◌, ◌++◌, true, length, Result, IfOk, IfErr, IfSome};
ghost use Rattle.std.specs.Option.{option_copied};
ghost use Rattle.sw_logic.specs.Signatures.{is_signature};
ghost use Rattle.sw_logic.specs.Strata.{FirstOnCycle};
ghost use Rattle.sw_meaning.specs.Edges.{protocol_edges, IsStratifiedWith};
ghost use Rattle.sw_meaning.specs.ProtocolText.{sort_text};
ghost use Rattle.sw_meaning.specs.WellFormed.{IsWellFormed};
ghost use Rattle.sw_meaning.specs.declared.template.Template.{Template};
ghost use Rattle.sw_cover.specs.Laws.{IsOver};
ghost use Rattle.sw_template.specs.Edges.{template_edges};
ghost use Rattle.sw_template_text.specs.Texts.{IsTemplate};
ghost use Rattle.sw_enumerate.specs.Spaces.{IsSpaceOf};
ghost use Rattle.sw_space.specs.declared.faults.SpaceFault.{SpaceFault};
ghost use Rattle.sw_space.specs.Named.{HasSpace, Fits, answer_of, edges_with};

use crate::faults::{NoSpace, SpaceFault};
use crate::laws::one_space;
use sqlite_items::Items;
use std::alloc::{AllocError, Global};
use sw_enumerate::Space;
use sw_logic::{Edge, Name, copy_name};
use sw_meaning::{Protocol, Template};
use sw_protocol::strata_with;
use sw_strata::StrataError;
use sw_template::edges;
use sw_template_text::read_template;

/// What is told of the sort of this number, where it lies on a cycle.
fn not_stratified(alloc: Global, protocol: &Protocol, sort: u32) -> NoSpace
    ensures { (result ≡ NoSpace.Faulty (SpaceFault.NotStratified (sort_text protocol.now.signature sort))) ⊎ (result ≡ NoSpace.Memory) }
{
    let copied = match protocol.signature.sorts.get(sort as usize) {
        Some(name) => copy_name(alloc, name),
        None => Ok(Name::new(String::new(alloc))),
    };
    match copied {
        Ok(name) => NoSpace::Faulty(SpaceFault::NotStratified(name)),
        Err(_) => NoSpace::Memory,
    }
}

/// The edges of a template, after those of the one beside it.
fn edges_with(
    alloc: Global,
    beside: Option<&Template>,
    template: &Template,
) -> Result<Items<Edge>, AllocError>
    ensures { IfOk result (λ es. es ≡ edges_with (option_copied beside.entry) template.now) }
{
    match beside {
        Some(other) => {
            let mut both = edges(alloc, other)?;
            both.append(edges(alloc, template)?)?;
            Ok(both)
        }
        None => edges(alloc, template),
    }
}

/// The space of a template over a protocol, beside another template.
fn fitted(
    alloc: Global,
    template: Template,
    protocol: &Protocol,
    beside: Option<&Template>,
) -> Result<Space, NoSpace>
    requires well_formed { IsWellFormed protocol.now }
    requires over { IfSome (option_copied beside) (IsOver protocol.now.signature) }
    requires template { IsTemplate protocol.now.signature template }
    requires sorts { length protocol.now.signature.sorts < 2 ^ 32 }
    requires symbols { length protocol.now.signature.symbols < 2 ^ 32 }
    ensures fits { IfSome (answer_of result) (Fits protocol.now (option_copied beside.entry) template) }
    ensures space { IfOk result (IsSpaceOf protocol.now.signature template) }
{
    let edges = edges_with(alloc, beside, &template)?;
    match strata_with(alloc, protocol, &edges) {
        Ok(_) => {}
        Err(StrataError::Cycle { sort }) => return Err(not_stratified(alloc, protocol, sort)),
        Err(StrataError::Memory) => return Err(NoSpace::Memory),
    }
    let space = Space::new(alloc, template, &protocol.signature)?;
    Ok(space)
}

fn read(
    alloc: Global,
    text: &[u8],
    protocol: &Protocol,
    beside: Option<&Template>,
) -> Result<Space, NoSpace>
    requires well_formed { IsWellFormed protocol.now }
    requires over { IfSome (option_copied beside) (IsOver protocol.now.signature) }
    ensures has { IfSome (answer_of result) (HasSpace protocol.now (option_copied beside.entry) text.now) }
    ensures space { IfOk result (λ s. IsSpaceOf protocol.now.signature s.template s) }
{
    let signature = &protocol.signature;
    if signature.sorts.len() > u32::MAX as usize || signature.symbols.len() > u32::MAX as usize {
        return Err(NoSpace::Memory);
    }
    let template = read_template(alloc, text, signature)?;
    let space = fitted(alloc, template, protocol, beside)?;
    Ok(space)
}

/// The space that the text of a template names over a protocol, or the first fault in order: of the
/// text by itself, a cycle of the template's edges with the protocol's, a count over its limit. The
/// edges of a template `beside` it, as of the one that the search starts with, count among them.
pub fn space_of(
    alloc: Global,
    text: &[u8],
    protocol: &Protocol,
    beside: Option<&Template>,
) -> Result<Space, NoSpace>
    requires well_formed { IsWellFormed protocol.now }
    requires over { IfSome (option_copied beside) (IsOver protocol.now.signature) }
    ensures has { IfSome (answer_of result) (HasSpace protocol.now (option_copied beside.entry) text.now) }
    ensures no_other { (r : Result Template SpaceFault) → HasSpace protocol.now (option_copied beside.entry) text.now r → IfSome (answer_of result) (λ s. s ≡ r) }
    ensures space { IfOk result (λ s. IsSpaceOf protocol.now.signature s.template s) }
{
    one_space();
    read(alloc, text, protocol, beside)
}
