// Writes, questions and strikes on a book, and what it answered.
use books::ClauseBook;
use clauses::few::Few;
use clauses::{Answer, Refusal};
use std::alloc::{AllocError, Global};
use std::fmt::Write;

// A step as data, so that steps stand in a table.
#[derive(Clone, Copy)]
enum Step {
    // A clause of so many literals, which count up from the second number.
    Write(usize, u32),
    // Clauses of so many literals until one is refused.
    Fill(usize),
    Length(u32),
    Literal(u32, u32),
    Strike(u32),
    Sizes,
}

// The empty clause, 64 and 65 literals, places past the end, struck numbers, filling to the last cell and number, and again after a strike in the middle.
const STEPS: [Step; 42] = [
    Step::Sizes,
    Step::Write(3, 10),
    Step::Write(0, 0),
    Step::Write(64, 100),
    Step::Write(65, 200),
    Step::Sizes,
    Step::Length(0),
    Step::Length(1),
    Step::Length(2),
    Step::Length(3),
    Step::Length(4),
    Step::Length(4294967295),
    Step::Literal(1, 0),
    Step::Literal(1, 2),
    Step::Literal(1, 3),
    Step::Literal(1, 4294967295),
    Step::Literal(2, 0),
    Step::Literal(3, 63),
    Step::Literal(3, 64),
    Step::Literal(0, 0),
    Step::Strike(0),
    Step::Strike(2),
    Step::Strike(2),
    Step::Length(2),
    Step::Sizes,
    Step::Strike(1),
    Step::Literal(1, 0),
    Step::Literal(3, 5),
    Step::Sizes,
    Step::Fill(5),
    Step::Sizes,
    Step::Fill(1),
    Step::Sizes,
    Step::Strike(3),
    Step::Literal(4, 0),
    Step::Write(2, 300),
    Step::Fill(1),
    Step::Strike(5),
    Step::Fill(0),
    Step::Sizes,
    Step::Literal(5, 0),
    Step::Literal(6, 1),
];

// The literals first, first + 1, .., at most one more than a clause may have.
fn literals(count: usize, first: u32) -> Few<u32, 65> {
    let mut clause = Few::new();
    for place in 0..count.min(65) {
        clause.push(first.wrapping_add(place as u32));
    }
    clause
}

// Writes clauses until one is refused: says how many were granted, and why the last was not.
fn fill<B: ClauseBook>(book: &mut B, count: usize) -> (u32, Option<Refusal>) {
    let clause = literals(count, 7);
    for granted in 0..2049 {
        if let Err(refusal) = book.write(clause.as_slice()) {
            return (granted, Some(refusal));
        }
    }
    (2049, None)
}

fn put_answer(text: &mut String, answer: Result<u32, Refusal>) -> Result<(), AllocError> {
    let shown = Answer(answer);
    writeln!(text, "{shown}")
}

fn put_step<B: ClauseBook>(text: &mut String, book: &mut B, step: Step) -> Result<(), AllocError> {
    match step {
        Step::Write(count, first) => {
            let clause = literals(count, first);
            write!(text, "write {count} literals: ")?;
            put_answer(text, book.write(clause.as_slice()))
        }
        Step::Fill(count) => put_fill(text, book, count),
        Step::Length(number) => {
            write!(text, "length of {number}: ")?;
            put_answer(text, book.length(number))
        }
        Step::Literal(number, place) => {
            write!(text, "literal {place} of {number}: ")?;
            put_answer(text, book.literal(number, place))
        }
        Step::Strike(number) => put_strike(text, book, number),
        Step::Sizes => put_sizes(text, book),
    }
}

fn put_fill<B: ClauseBook>(
    text: &mut String,
    book: &mut B,
    count: usize,
) -> Result<(), AllocError> {
    let (granted, refusal) = fill(book, count);
    write!(
        text,
        "fill with clauses of {count} literals: {granted} granted, then "
    )?;
    match refusal {
        Some(reason) => put_answer(text, Err(reason)),
        None => text.push_str("no end\n"),
    }
}

fn put_strike<B: ClauseBook>(
    text: &mut String,
    book: &mut B,
    number: u32,
) -> Result<(), AllocError> {
    write!(text, "strike {number}: ")?;
    match book.strike(number) {
        Ok(()) => text.push_str("struck\n"),
        Err(reason) => put_answer(text, Err(reason)),
    }
}

fn put_sizes<B: ClauseBook>(text: &mut String, book: &B) -> Result<(), AllocError> {
    let given = book.given();
    let numbers = book.free_numbers();
    let cells = book.free_cells();
    writeln!(
        text,
        "given {given}, free numbers {numbers}, free cells {cells}"
    )
}

// A line for each step.
pub fn transcript<B: ClauseBook + Drop>(heap: Global, mut book: B) -> Result<String, AllocError> {
    let mut text = String::new(heap);
    for step in STEPS {
        put_step(&mut text, &mut book, step)?;
    }
    Ok(text)
}
