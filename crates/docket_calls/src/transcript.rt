// Goes through calls on a docket, and says what each answered.
use books::ClauseBook;
use clauses::{Answer, Refusal};
use gates::GateKind;
use plans::Plan;
use referee::{Call, Docket};
use std::alloc::{AllocError, Global};
use std::fmt::{Display, Write};

// A blank before each number, and a colon behind the last.
fn put_list<T: Display>(text: &mut String, numbers: &[T]) -> Result<(), AllocError> {
    for number in numbers {
        write!(text, " {number}")?;
    }
    text.push_str(": ")
}

fn put_call(text: &mut String, call: Call) -> Result<(), AllocError> {
    match call {
        Call::Define(signal, code, operands) => {
            write!(text, "define {signal} by code {code} on")?;
            put_list(text, operands)
        }
        Call::Resolve(left, right) => write!(text, "resolve {left} {right}: "),
        Call::Strike(number) => write!(text, "strike {number}: "),
        Call::Settle(number) => write!(text, "settle {number}: "),
        Call::Show(setting) => {
            text.push_str("show")?;
            put_list(text, setting)
        }
    }
}

fn put_state<G: GateKind, B: ClauseBook>(
    text: &mut String,
    docket: &Docket<G, B>,
) -> Result<(), AllocError> {
    let standing = docket.standing();
    let signals = docket.in_use();
    let given = docket.book().given();
    writeln!(text, "{standing}; {signals} signals, {given} numbers given")
}

fn put_calls<G: GateKind, B: ClauseBook>(
    text: &mut String,
    docket: &mut Docket<G, B>,
    calls: &[Call],
) -> Result<(), AllocError> {
    put_state(text, docket)?;
    for call in calls {
        put_call(text, *call)?;
        let answer = Answer(docket.make(*call));
        writeln!(text, "{answer}")?;
        put_state(text, docket)?;
    }
    Ok(())
}

// Opens a docket, makes the calls in order, and gives the book back.
pub fn transcript<G: GateKind, B: ClauseBook>(
    heap: Global,
    plan: &Plan<G>,
    book: B,
    calls: &[Call],
) -> Result<(String, B), (Refusal, B)> {
    let mut docket = Docket::<G, B>::open(heap, plan, book)?;
    let mut text = String::new(heap);
    let put = put_calls(&mut text, &mut docket, calls);
    let book = docket.close();
    match put {
        Ok(()) => Ok((text, book)),
        Err(error) => Err((Refusal::from(error), book)),
    }
}
