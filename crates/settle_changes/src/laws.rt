// What is settled, and what changed since.
ghost use Rattle.settle_changes.specs.Rest.{NothingIsAtRest, RestIsKept, RestIsTracked, TrackingGoesOn};

/// What is held at rest is what is kept.
pub fn rest_is_kept()
    ensures { RestIsKept }
{}

/// Nothing at all is at rest; at rest nothing changed yet; and the list of changed inputs may grow with the changes.
pub fn changes_are_tracked()
    ensures nothing { NothingIsAtRest }
    ensures rest { RestIsTracked }
    ensures goes_on { TrackingGoesOn }
{}
