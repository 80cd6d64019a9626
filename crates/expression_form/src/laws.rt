// Laws of what is formed. The functions do nothing.
ghost use Rattle.expression_form.specs.Laws.{RefsHaveTypes, MadeGives};

/// The law that a reference that is formed has the type that was found with it.
pub fn references_have_types()
    ensures { RefsHaveTypes }
{}

/// The law that an expression that is formed by a type gives it.
pub fn expressions_made_give()
    ensures { MadeGives }
{}
