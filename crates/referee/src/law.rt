// The law of every run on dockets, as the contract of one function.
ghost use Rattle.referee.specs.LawOfDockets.{LawOfDockets};

use books::ClauseBook;
use gates::GateKind;

// States the law for every gate kind and every clause book: the law is this contract.
pub fn law_of_dockets<G: GateKind, B: ClauseBook>()
    ensures { LawOfDockets G.GateKind B.ClauseBook }
{}
