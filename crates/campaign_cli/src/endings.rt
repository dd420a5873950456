//! How a command ends: the cause of the status, and the text that is printed before.

/// Why the program ends with a status: each cause has one, and each status one cause.
#[derive(Clone, Copy, Debug, PartialEq, Eq)]
pub(crate) enum Cause {
    Done,
    Usage,
    Input,
    File,
    Disk,
    Door,
    Memory,
    Output,
    Damaged,
    Link,
    Cut,
    Keeper,
    Unpublished,
    Differs,
    Unknown,
}

/// What a command comes to: its cause, and what is printed for it, a line of the program's or a
/// text that was made.
#[derive(Drop)]
pub(crate) enum Outcome {
    Silent(Cause),
    Line(Cause, &'static [u8]),
    Text(Cause, Vec<u8>),
}
