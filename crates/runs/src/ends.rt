//! How steps and runs end.

/// How a step ended.
#[derive(Clone, Copy, Debug, PartialEq, Eq)]
pub enum StepEnd {
    /// The next step follows.
    Next,
    /// The function returned.
    Return,
    /// An access or a return was not allowed.
    Fault,
    /// A flag was read that is not set.
    Unset,
}

/// How a run ended, with the number of the step that ended it, counted from 1.
#[derive(Clone, Copy, Debug, PartialEq, Eq)]
pub enum RunEnd {
    Returned(u64),
    Faulted(u64),
    Unset(u64),
    /// It has not ended yet.
    Running,
}
