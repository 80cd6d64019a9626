//! Laws of the definitions that the contracts of `Frames` cite. The functions do nothing.
ghost use Rattle.message_frame.specs.Pieces.{OneCut};
ghost use Rattle.message_frame.specs.Runs.{NothingLost};

/// A stream is cut into payloads and a rest in exactly one way.
pub fn one_cut()
    ensures { OneCut }
{}

/// Over every list of calls of a new `Frames`, the payloads given, each with its NUL, and then
/// what `rest` lends are all bytes taken since the beginning or the last `clear`.
pub fn nothing_lost()
    ensures { NothingLost }
{}
