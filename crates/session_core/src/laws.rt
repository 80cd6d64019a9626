//! What holds of every run of the session machine.
ghost use Rattle.session_core.specs.Streams.{LooksNoFurther, OnlyAdds};
ghost use Rattle.session_core.specs.Tells.{TellsAll};

/// What stands behind a message that is no call, or is too long, is not looked at: so the replies to
/// a whole stream are those to the bytes that were taken.
pub fn looks_no_further()
    ensures { LooksNoFurther }
{}

/// What was written for the first bytes of a stream is the front of what is written for all of it.
pub fn only_adds()
    ensures { OnlyAdds }
{}

/// Answers that are a function of the state and the call are, over calls in a row, that function
/// over the list, and nothing else.
pub fn tells_all<A>()
    ensures { TellsAll A }
{}
