//! Laws of the text, each the contract of a function that does nothing.
ghost use Rattle.sw_models.specs.Reading.{OneAnswer, PrintedReadsBack};

/// The law that a text has one answer.
pub fn one_answer()
    ensures { OneAnswer }
{}

/// The law that the text of a structure that fits has that structure.
pub fn printed_reads_back()
    ensures { PrintedReadsBack }
{}
