// The worked plans hold, as the contract of one function.
ghost use Rattle.worked_plans.specs.WorkedPlans.{EveryRowHolds};

// States that each worked plan comes to its verdict line and leaves its book: the statement is this contract.
pub fn worked_plans_hold()
    ensures { EveryRowHolds }
{}
