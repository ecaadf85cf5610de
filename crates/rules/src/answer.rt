use crate::refusal::Refusal;

// What a call on a live or closed bench returns, all of it.
#[derive(Clone, Copy, PartialEq, Eq)]
pub enum Answer {
    // A post was taken.
    Done,
    // An admission or a run was taken: the script's figure.
    Figure(u32),
    // The cell that was looked at.
    Cell(u32),
    // The rows of a lot, and how many it lost.
    Rows(u32, u32),
    // The steps of the newest run.
    Steps(u32),
    // The call was sent back.
    Refused(Refusal),
}
