// The files of a command line.

use jm_job::InputFile;
use jm_page::Source;

/// What was read for a command line.
#[derive(Drop)]
pub struct FilesRead {
    /// The schedule, record, text or class that is named beside the program's files, if one is.
    pub named: Option<InputFile>,
    /// The files of the program, in their order.
    pub program: Vec<InputFile>,
    /// The sources that stand on a film's page.
    pub sources: Vec<Source>,
}
