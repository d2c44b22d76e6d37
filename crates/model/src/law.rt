// The law of every run, as the contract of one function.
ghost use Rattle.model.specs.Law.{LawOfEveryRun};

use gates::GateKind;

// States the law for every gate kind, and for every meaning that a book can have: the law is this contract.
pub fn law_of_every_run<G: GateKind>()
    ensures { LawOfEveryRun G.GateKind.kind }
{}
