// Laws of typed rules, of which contracts can make use. The functions do nothing.
ghost use Rattle.step_laws.specs.Laws.{LeadsToValues, RefersToValues, FitsValues, GivesValues};
ghost use Rattle.step_laws.specs.Laws.{TellsConditions, StepsKeepTypes, BeginsOfTypes, DoesAsBranch};
ghost use Rattle.step_laws.specs.Laws.{Runs, KeepsTypes, KeepsLevels, ComesToFit};

/// The law that a path of fields leads from a value of a type to a value of the type to which it leads
/// from there.
pub fn paths_lead_to_values()
    ensures { LeadsToValues }
{}

/// The law that what a typed reference refers to is there, and of the reference's type.
pub fn references_have_values()
    ensures { RefersToValues }
{}

/// The law that a value of a type is a value of each type that it fits: of one that is the same, and of
/// `?U` where it is one of U.
pub fn fitting_types_have_the_values()
    ensures { FitsValues }
{}

/// The law that an expression has a value of each type that it gives.
pub fn expressions_have_values()
    ensures { GivesValues }
{}

/// The law that a typed condition holds or does not.
pub fn conditions_are_told()
    ensures { TellsConditions }
{}

/// The law that typed steps can be done one after another, and leave registers with values of their
/// types.
pub fn steps_keep_types()
    ensures { StepsKeepTypes }
{}

/// The law that the initial values are values of the registers' types, where each register's is.
pub fn initial_values_are_of_types()
    ensures { BeginsOfTypes }
{}

/// The law that a rule of one branch without condition, as each of a sheet of version 1, does what the
/// branch does.
pub fn sole_branches_are_the_rule()
    ensures { DoesAsBranch }
{}

/// The law that a typed rule runs: of its branches one is taken, and all that it refers to is there.
pub fn typed_rules_run()
    ensures { Runs }
{}

/// The law that each register has a value of its type after a rule.
pub fn registers_keep_their_types()
    ensures { KeepsTypes }
{}

/// The law that no register has more levels after a rule than it may, where none has before it.
pub fn registers_keep_their_levels()
    ensures { KeepsLevels }
{}

/// The law that what a rule comes to fits it: its kind, the method's reply and the interface's errors.
pub fn outcomes_fit_their_rules()
    ensures { ComesToFit }
{}
