//! Laws about the definitions: each is the contract of a function that does nothing.
ghost use Rattle.sw_formula_readback.specs.Laws.{TextsHaveDeclaredNames, TemplateFormulasReadBack, TextsTellFormulas};

/// Two formulas of templates over one protocol with one text are one.
pub fn texts_tell_formulas()
    ensures { TextsTellFormulas }
{}

/// The canonical text of a formula of a template reads back as this formula.
pub fn template_formulas_read_back()
    ensures { TemplateFormulasReadBack }
{}

/// The names of a protocol that was read are names that the other laws ask for.
pub fn texts_have_declared_names()
    ensures { TextsHaveDeclaredNames }
{}
