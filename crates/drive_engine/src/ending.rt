//! How a command ends.

ghost use Rattle.std.specs.Prelude.{◌≡◌};
ghost use Rattle.drive_engine.specs.Ending.{status, fixed_report};

use crate::words::USAGE;
use crash_base::RowId;

/// How a command ended.
#[derive(Clone, Copy)]
pub enum Ending {
    /// All of its input was done.
    Done,
    /// The words spell no command.
    UnknownCommand,
    /// The line of this number was refused.
    LineRefused(u64),
    /// The input failed.
    ReadFailed,
    /// The output failed.
    WriteFailed,
    /// The keeper failed while a boot was to be started.
    KeeperFailed,
    /// A boot was not started, since the keeper gave this row, which may not be loaded.
    BadRow(RowId),
    /// The line of this number has more bytes than a line may have, or the descriptor text has, which is line 1.
    LineTooLong(u64),
    /// Memory ran out.
    OutOfMemory,
    /// The descriptor text describes no deployment.
    DescriptorsRefused,
    /// A boot was not started, since the number of the last one is the greatest that there is.
    BootsSpent,
    /// The scenario has more bytes than one may have.
    ScenarioTooLong,
}

impl Ending {
    /// The exit status.
    pub(crate) fn status(self) -> u8
        ensures { result ≡ status self }
    {
        match self {
            Ending::Done => 0,
            Ending::UnknownCommand => 2,
            Ending::LineRefused(_) => 3,
            Ending::ReadFailed => 4,
            Ending::WriteFailed => 5,
            Ending::KeeperFailed => 6,
            Ending::BadRow(_) => 7,
            Ending::LineTooLong(_) => 8,
            Ending::OutOfMemory => 9,
            Ending::DescriptorsRefused => 10,
            Ending::BootsSpent => 11,
            Ending::ScenarioTooLong => 12,
        }
    }

    /// What is reported of an ending without a number, as one line.
    pub(crate) fn fixed_report(self) -> &'static str
        ensures { result.now ≡ fixed_report self }
    {
        match self {
            Ending::Done | Ending::LineRefused(_) | Ending::BadRow(_) | Ending::LineTooLong(_) =>
                "",
            Ending::UnknownCommand => USAGE,
            Ending::ReadFailed => "read failed\n",
            Ending::WriteFailed => "write failed\n",
            Ending::KeeperFailed => "keeper failed\n",
            Ending::OutOfMemory => "out of memory\n",
            Ending::DescriptorsRefused => "descriptors refused\n",
            Ending::BootsSpent => "boots spent\n",
            Ending::ScenarioTooLong => "input too long\n",
        }
    }
}
