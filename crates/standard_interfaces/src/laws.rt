// Laws of the two interfaces. The functions do nothing.
ghost use Rattle.standard_interfaces.specs.Laws.{TextsAreAccepted, StandardErrorsRead};

/// The text of each of the two interfaces is the canonical text of its tree; it is accepted as that
/// tree, and as no other.
pub fn texts_are_accepted()
    ensures { TextsAreAccepted }
{}

/// The parameters of each error reply of the standard read by the error of that name that
/// `org.varlink.service` declares.
pub fn standard_errors_read()
    ensures { StandardErrorsRead }
{}
