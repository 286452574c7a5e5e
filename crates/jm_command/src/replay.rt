// What `jm replay` asks for.

ghost use Rattle.jm_command.specs.Commands.{IsReplayJob};

use crate::copiers::copiers;
use jm_job::{InputFile, ReplayJob};
use jm_options::ReplayOptions;

pub fn replay_job(
    asked: &ReplayOptions,
    record_file: InputFile,
    program: Vec<InputFile>,
) -> ReplayJob
    ensures { IsReplayJob asked.now record_file program result }
{
    ReplayJob {
        heap: asked.heap,
        copiers: copiers(asked.copiers),
        record_file,
        program,
        show_heap: asked.show_heap,
    }
}
