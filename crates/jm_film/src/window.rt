// Which of a run's events are shown.

/// Which of a run's events a film shows.
#[derive(Clone, Copy)]
pub struct Window {
    /// How many events are made before the first that is shown.
    pub from: u32,
    /// The most events that are shown.
    pub steps: u32,
}
