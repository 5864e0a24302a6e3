//! The laws of template texts. Each function does nothing, and its contract is a law.
ghost use Rattle.sw_template_text.specs.Texts.{OneTemplate, TextsAreTemplates};

/// A text has one answer in a signature.
pub fn one_template()
    ensures { OneTemplate }
{}

/// A template that a text has is within the bounds, and over sorts that there are.
pub fn texts_are_templates()
    ensures { TextsAreTemplates }
{}
