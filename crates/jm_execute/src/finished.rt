// What comes of a job.

ghost use Rattle.std.specs.Prelude.{◌≡◌, None};

use jm_explain::Status;

/// What comes of a job.
pub struct Finished {
    pub status: Status,
    /// The record of a run: a line for each of its events, in order. There is one where one was wanted
    /// and the events were all made.
    pub record_text: Option<Vec<u8>>,
}

// Written out, so that whoever lets go of one makes a call (docs/DECISIONS.md).
impl Drop for Finished {
    fn drop(self) {
        let Finished {
            status: _,
            record_text: _,
        } = self;
    }
}

impl Finished {
    /// With this status, and without a record.
    pub fn without_record(status: Status) -> Finished
        ensures status { result.status ≡ status }
        ensures none { result.record_text ≡ None }
    {
        Finished {
            status,
            record_text: None,
        }
    }
}
