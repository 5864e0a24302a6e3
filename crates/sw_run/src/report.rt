// A report.

/// A report: the status that the program ends with, and the whole text.
#[derive(Drop)]
pub struct Report {
    pub status: u8,
    pub text: String,
}
