//! That the text of a template reads back as the same template.
#![tactic(auto)]

ghost use Rattle.sw_template_readback.specs.Laws.{TemplatesReadBack, TextsTellTemplates};

/// The canonical text of a template is a text of that template.
pub fn templates_read_back()
    ensures { TemplatesReadBack }
{}

/// Two templates of one text are one.
pub fn texts_tell_templates()
    ensures { TextsTellTemplates }
{}
