//! Laws of scripts of the bench whose devices a host has.

ghost use Rattle.lab_serving.specs.Laws.{HeldBackActionsWait};

/// An expectation changes nothing of what is served: where it holds actions back, each turn sends what it would send without it, does
/// the action that it would do, or waits.
pub fn expectations_only_delay()
    ensures { HeldBackActionsWait }
{}
