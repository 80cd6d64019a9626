// Laws of the definitions that the contracts cite. The functions do nothing.
ghost use Rattle.resolver_core.specs.Laws.{WordsAre, NowhereIsNoDot, UpgradesAreRefused};

/// A word is cut at its last dot, and is not cut exactly where it has none.
pub fn words_are()
    ensures { WordsAre }
{}

/// A call goes nowhere exactly where its word has no dot.
pub fn nowhere_is_no_dot()
    ensures { NowhereIsNoDot }
{}

/// Each call that asks for an upgrade has an error as its reply.
pub fn upgrades_are_refused()
    ensures { UpgradesAreRefused }
{}
