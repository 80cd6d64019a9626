//! Laws of the definitions that the contracts cite. The functions do nothing.
ghost use Rattle.std.specs.Prelude.{◌≡◌};
ghost use Rattle.call_form.specs.CallRules.{CallsAre, OneMessage};
ghost use Rattle.call_form.specs.TextsBack.{TreesReadBack, TextsAreUtf8, RepliesReadBack, CallsReadBack, NoNulInCalls};

use crate::CALL_LIMIT;

/// The payload of a call has at most 4 MiB.
pub fn call_limit()
    ensures { CALL_LIMIT ≡ 4194304 }
{}

/// A payload is read as a call exactly where the standard's rules say that it is this call.
pub fn calls_are()
    ensures { CallsAre }
{}

/// The text of a reply has its one NUL at its end.
pub fn one_message()
    ensures { OneMessage }
{}

/// The text of a call holds no NUL.
pub fn one_call()
    ensures { NoNulInCalls }
{}

/// The compact text of a sound tree is read as this tree.
pub fn trees_read_back()
    ensures { TreesReadBack }
{}

/// The compact text of a tree whose strings are UTF-8 is UTF-8.
pub fn texts_are_utf8()
    ensures { TextsAreUtf8 }
{}

/// The text of a reply that can be written is UTF-8, and is read as this reply's tree.
pub fn replies_read_back()
    ensures { RepliesReadBack }
{}

/// The text of a call that can be written is read as this call.
pub fn calls_read_back()
    ensures { CallsReadBack }
{}
