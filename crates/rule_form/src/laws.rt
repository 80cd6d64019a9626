// Laws of rules that are formed. The functions do nothing.
ghost use Rattle.rule_form.specs.Laws.{FormedIsTyped, FormedHasOneWay, FormedHasNoFloat, FloatsAreTold};

/// The law that a rule that is formed is typed.
pub fn formed_rules_are_typed()
    ensures { FormedIsTyped }
{}

/// The law that the last branch alone of a rule that is formed has no condition, where that is so of
/// its draft.
pub fn formed_rules_have_one_way()
    ensures { FormedHasOneWay }
{}

/// The law that neither the method of a rule that is formed reaches `float`, nor an error that the rule
/// tells.
pub fn formed_rules_have_no_float()
    ensures { FormedHasNoFloat }
{}

/// The law that the test for `float` tells whether it is reached in finitely many steps.
pub fn floats_are_told()
    ensures { FloatsAreTold }
{}
