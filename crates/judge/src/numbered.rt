// The lines of a text with their numbers.
ghost use Rattle.std.specs.Prelude.{◌+◌, ◌≤◌, length};
ghost use Rattle.texts.specs.Readers.{rest_of};
ghost use Rattle.judge.specs.Judging.{forms_of};

use texts::Reader;

mod taking;

// `number` is the number of the line that was last taken. A text has at most 32,768 lines, read or left.
#[derive(Drop)]
pub struct NumberedLines<'a> {
    reader: Reader<'a>,
    number: u16,
    ghost counted: { number + length (forms_of (rest_of reader)) ≤ 32768 },
}
