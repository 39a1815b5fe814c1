//! Laws of the definitions, each the contract of a function with an empty body.
ghost use Rattle.ir_trace.specs.Judged.{PlansRouteAlike, SoundFindsNothing, FindingIsOnly};
ghost use Rattle.ir_trace.specs.Leaving.{DepartureIsDetermined};

/// Any two lists of plans that installs may have route alike, whatever the kinds and the orders of
/// labels. The two plans of an epoch have the same labels, the same port at each node for each
/// destination, and the same rows.
pub fn plans_of_installs_route_alike()
    ensures { PlansRouteAlike }
{}

/// A check has one right answer, want of memory aside, whichever plans of the installs it goes by.
/// Rows are sound, and then nothing is found in them; or one line has a finding, of one kind, and then
/// they are not sound.
pub fn check_is_determined()
    ensures sound { SoundFindsNothing }
    ensures finding { FindingIsOnly }
{}

/// By the plans of its epochs a row leaves their walks first at one place, or at none. So a row that
/// follows them leaves them nowhere.
pub fn departure_is_determined()
    ensures { DepartureIsDetermined }
{}
