// Why a session stopped.
use call_form::CallFault;

/// Why a session stopped.
#[derive(Debug, Clone, Copy, PartialEq, Eq)]
pub enum Stop {
    /// The input ended after a whole message.
    End,
    /// The input ended with so many bytes after the last NUL.
    Cut { bytes: u64 },
    /// The message of this index is no call.
    NotCall { index: u64, fault: CallFault },
    /// The message of this index has more bytes than a call may have.
    TooLong { index: u64 },
    /// The input ended after an accepted upgrade.
    Upgraded,
    /// 2^40 bytes were taken.
    Long,
    /// The history of the service is full, at so many units of weight.
    Full { bytes: u64 },
    /// The connection's steps are used up.
    Worn,
    /// The source failed.
    ReadFault,
    /// The sink failed.
    WriteFault,
    /// Memory was asked for and not granted.
    Memory,
}
