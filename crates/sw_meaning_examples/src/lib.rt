//! Worked examples of the definitions of `sw_meaning`. Each function does nothing, and its contract
//! is a row of examples; nothing stands on this crate.
#![tactic(auto)]

ghost use Rattle.sw_meaning_examples.specs.Examples.{ClassesAreCounted, FormulasAreWritten, AxiomsAreGiven, AtomsAreBounded, ListsServe, WordsAreTold};

/// How many atoms, cubes, classes and parts some templates have, and which.
pub fn classes_are_counted()
    ensures { ClassesAreCounted }
{}

/// What the formulas of some classes are, their binders and their terms.
pub fn formulas_are_written()
    ensures { FormulasAreWritten }
{}

/// The axioms are true in every start, before every step, and wherever something follows.
pub fn axioms_are_given()
    ensures { AxiomsAreGiven }
{}

/// What no atom of a template is.
pub fn atoms_are_bounded()
    ensures { AtomsAreBounded }
{}

/// A list that no state satisfies lets every formula join that is true in every start.
pub fn lists_serve()
    ensures { ListsServe }
{}

/// Reports that end with the words of a finish template.
pub fn words_are_told()
    ensures { WordsAreTold }
{}
