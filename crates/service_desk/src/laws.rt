//! What holds of every run of calls over a seat.
ghost use Rattle.service_desk.specs.Gains.{GainsInARow, GainsWhatItHears};

/// The law that what a seat gains over calls, and then over more calls, it gains over all of them.
pub fn gains_in_a_row()
    ensures { GainsInARow }
{}

/// The law that the entries and the outcomes of a seat that hears calls one after another are those of
/// the whole list of calls.
pub fn gains_what_it_hears()
    ensures { GainsWhatItHears }
{}
