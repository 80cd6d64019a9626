// Laws of the definitions that the contracts cite. The functions do nothing.
ghost use Rattle.std.specs.Prelude.{◌≡◌};
ghost use Rattle.caller_form.specs.ReplyRules.{RepliesAre};
ghost use Rattle.caller_form.specs.MessagesBack.{CallTextsReadBack, ReplyTextsReadBack};

use crate::REPLY_LIMIT;

/// The payload of a reply that is read has at most 4 MiB.
pub fn reply_limit()
    ensures { REPLY_LIMIT ≡ 4194304 }
{}

/// A payload is read as a reply exactly where the standard's rules say that it is this reply.
pub fn replies_are()
    ensures { RepliesAre }
{}

/// The text of a call is one payload and its NUL, and where the parameters have at most 126 levels
/// this payload is read as this call.
pub fn call_texts_read_back()
    ensures { CallTextsReadBack }
{}

/// The payload of a reply's text is read as this reply where its parameters have at most 126
/// levels.
pub fn reply_texts_read_back()
    ensures { ReplyTextsReadBack }
{}
