//! Formulas in a scope whose variables are named by their number: `_1`, `_2` and on.
ghost use Rattle.std.specs.Prelude.{◌≡◌, [], ◌+◌, ◌++◌, Result, IfOk, OnOk, IfSome, codes, string_bytes};
ghost use Rattle.std.specs.Fmt.{decimal};
ghost use Rattle.sw_logic.specs.Canonical.{text_of, names_of};
ghost use Rattle.sw_logic.specs.declared.syntax.Formula.{Formula};
ghost use Rattle.sw_text.specs.declared.texts.TextError.{TextError};
ghost use Rattle.sw_text.specs.Texts.{HasFormula, answer_of};
ghost use Rattle.sw_text.specs.Scoped.{variables_of, listed_by, mutable_from, place_by, in_scope};

use crate::lookup::number_of;
use crate::names::{Names, Place};
use crate::tables::Tables;
use crate::texts::{TextError, read_named};
use sqlite_items::Items;
use std::alloc::{AllocError, Global};
use sw_logic::{Binder, Formula, Name, Scope, Signature, Symbol};
use sw_print::print_named;
use sw_table::Table;

/// The name of the variable of this number, from 0.
fn name_of(alloc: Global, number: usize) -> Result<Name, AllocError>
    ensures { IfOk result (λ n. n ≡ codes "_" ++ decimal (number + 1)) }
{
    let Some(next) = number.checked_add(1) else {
        return Err(AllocError);
    };
    Ok(Name::new(format!(in alloc; "_{next}")?))
}

/// The variables of the scope, outermost first.
fn variables_of(alloc: Global, scope: &Scope) -> Result<Vec<Binder>, AllocError>
    ensures { IfOk result (λ vs. vs.items ≡ variables_of scope.now) }
{
    let mut variables = Vec::new(alloc);
    for (i, sort) in scope.sorts.as_slice().iter().enumerate() {
        variables.push(Binder {
            name: name_of(alloc, i)?,
            sort: *sort,
        })?;
    }
    Ok(variables)
}

/// Lists the symbol of this number, where it may change.
fn list_mutable(listed: &mut Items<u32>, symbol: &Symbol, number: usize) -> Result<(), AllocError>
    ensures { OnOk result (listed.new ≡ listed.old ++ listed_by symbol.now.mutable number) }
{
    if !symbol.mutable {
        return Ok(());
    }
    listed.push(number_of(number)?)
}

/// The numbers of the symbols that may change.
fn mutable_symbols(alloc: Global, signature: &Signature) -> Result<Items<u32>, AllocError>
    ensures { IfOk result (λ ks. ks ≡ mutable_from 0 signature.now.symbols) }
{
    let mut listed = Items::new(alloc);
    for (i, symbol) in signature.symbols.as_slice().iter().enumerate() {
        list_mutable(&mut listed, symbol, i)?;
    }
    Ok(listed)
}

/// Where a formula stands in which post symbols may be read, or not.
fn place_by(alloc: Global, signature: &Signature, post: bool) -> Result<Place, AllocError>
    ensures { IfOk result (λ p. p ≡ place_by signature.now post) }
{
    if post {
        Ok(Place::Step(mutable_symbols(alloc, signature)?))
    } else {
        Ok(Place::OneState)
    }
}

/// The formula that the whole text is. The variables of the scope are `_1`, `_2` and on; where post
/// symbols may be read, each symbol that may change may have a prime.
pub fn read_formula(
    alloc: Global,
    signature: &Signature,
    scope: &Scope,
    text: &[u8],
) -> Result<Formula, TextError>
    ensures has { IfSome (answer_of result) (HasFormula (in_scope signature.now scope.now text.now) (variables_of scope.now)) }
    ensures no_other { (r : Result Formula TextError) → HasFormula (in_scope signature.now scope.now text.now) (variables_of scope.now) r → IfSome (answer_of result) (λ s. s ≡ r) }
{
    let Ok(place) = place_by(alloc, signature, scope.post) else {
        return Err(TextError::Memory);
    };
    let Ok(variables) = variables_of(alloc, scope) else {
        return Err(TextError::Memory);
    };
    let Ok(tables) = Tables::of(alloc, signature) else {
        return Err(TextError::Memory);
    };
    let names = Names {
        text,
        signature,
        tables: &tables,
        declared_too: &Table::new(alloc),
        place: &place,
    };
    read_named(alloc, &names, variables)
}

/// The canonical text of the formula. The variables of the scope are `_1`, `_2` and on.
pub fn print_formula(
    alloc: Global,
    signature: &Signature,
    scope: &Scope,
    formula: &Formula,
) -> Result<String, AllocError>
    ensures { IfOk result (λ t. string_bytes t ≡ text_of signature.now (names_of (variables_of scope.now)) formula.now) }
{
    let variables = variables_of(alloc, scope)?;
    print_named(alloc, signature, variables.as_slice(), formula)
}
