// How a call on a link ends.
use caller_form::ReplyFault;
use link_port::Text;

/// How a call on a link ends. Replies are numbered from 0 on.
#[derive(Debug, Drop)]
pub enum AskEnd {
    /// The last reply came, and it is no error.
    Done {
        /// How many replies came.
        replies: u64,
    },
    /// An error came.
    ErrorReply {
        /// The name of the error.
        name: Text,
    },
    /// The message of this index is no reply.
    NotReply {
        /// The index.
        index: u64,
        /// Its first fault, which is not `Memory`.
        fault: ReplyFault,
    },
    /// The reply of this index says that another follows, though it is an error or the call did not
    /// ask for more.
    Continues {
        /// The index.
        index: u64,
    },
    /// The link ended before the reply of this index was whole.
    Ended {
        /// The index.
        index: u64,
    },
    /// The message of this index has more bytes than a reply may have.
    TooLong {
        /// The index.
        index: u64,
    },
    /// The reply of this index, which is no error, does not read by what replies are asked to be.
    IllTyped {
        /// The index.
        index: u64,
        /// Its first field that does not read.
        field: Text,
    },
    /// 2^40 bytes were taken from the link.
    Long,
    /// The reach failed.
    LinkFault,
    /// The sink failed.
    WriteFault,
    /// Memory was asked for and not granted.
    Memory,
}
