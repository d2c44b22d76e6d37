// The story of one operator: 'if the heater is on, then the cooler valve is shut'.
ghost use Rattle.std.specs.Prelude.{◌<◌};

use crate::gate_clauses::fill_clause;
use crate::kinds::GateKind;
use crate::records::NodeRecord;
use crate::two_input::TwoInput;

const IF_THEN: u8 = 13;

#[test]
fn false_only_at_heater_on_and_valve_open(rt: HostRuntime) {
    for heater in [false, true] {
        for shut in [false, true] {
            assert_eq!(rt;
                TwoInput::value(IF_THEN, &[heater, shut]),
                !(heater && !shut)
            );
        }
    }
}

// A clause of the rule, which is signal 3: the heater is signal 1, 'the valve is shut' signal 2.
fn rule_clause(index: u8) -> ([u32; 18], Option<usize>)
    requires { index < 3 }
{
    let rule = NodeRecord::new(IF_THEN, &[1, 2]);
    let mut clause = [0; 18];
    let length = fill_clause::<TwoInput>(&rule, 3, index, &mut clause);
    (clause, length)
}

// 1 3 | -2 3 | -1 2 -3: at heater on, valve open and the rule true, the last one fails.
#[test]
fn its_clauses_say_so(rt: HostRuntime) {
    for (index, literals) in [(0, [2, 6, 0]), (1, [5, 6, 0]), (2, [3, 4, 7])] {
        let (clause, length) = rule_clause(index);
        assert_eq!(rt; [clause[0], clause[1], clause[2]], literals);
        assert_eq!(rt; length, Some(if index < 2 { 2 } else { 3 }));
    }
}
