// What `jm explore` asks for.

ghost use Rattle.jm_command.specs.Commands.{IsExploreJob};

use jm_explore::Bounds;
use jm_job::{ExploreJob, InputFile};
use jm_options::ExploreOptions;

pub fn explore_job(asked: &ExploreOptions, program: Vec<InputFile>) -> ExploreJob
    ensures { IsExploreJob asked.now program result }
{
    ExploreJob {
        heap: asked.heap,
        bounds: Bounds {
            switches: asked.switches as usize,
            slice: asked.slice as usize,
            steps: asked.steps as usize,
            runs: u64::from(asked.runs),
        },
        outcome: asked.outcome,
        program,
    }
}
