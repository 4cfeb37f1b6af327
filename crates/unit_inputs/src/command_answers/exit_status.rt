// Defines the exit status of a run.

/// The exit status of a run, with its reason.
#[derive(Clone, Copy)]
pub enum ExitStatus {
    /// The whole text was printed.
    Done,
    /// The whole text was printed, and the exposure is above the threshold.
    AboveThreshold,
    /// The words are no command, and the program printed that.
    NoCommand,
    /// An input is refused, and the program printed that.
    Refused,
    /// A read failed, and nothing was printed.
    ReadFault,
    /// A write failed, and a prefix of the text was printed.
    WriteFault,
    /// Memory ran out, and a prefix of the text was printed.
    OutOfMemory,
    /// The launch is refused, and the program printed that.
    LaunchRefused,
    /// Two filters differ, and the program printed that.
    Differs,
}
