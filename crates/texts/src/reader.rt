// A reader over a text, which keeps its place.
ghost use Rattle.std.specs.Prelude.{◌≡◌, ◌≤◌, length, take, drop};

mod digits;
mod parts;
mod steps;

// Contracts see the two fields, by `rest_of`: a model with what is left for its value would forget the place, which `Field` promises.
#[derive(Drop)]
pub struct Reader<'a> {
    text: &'a [u8],
    at: usize,
    ghost within: { at ≤ length text.now },
}

// A part of a text, with its place.
#[derive(Clone, Copy)]
pub struct Field<'a> {
    pub text: &'a [u8],
    pub at: usize,
}

impl<'a> Reader<'a> {
    ghost use Rattle.texts.specs.Readers.{rest_of};

    // What is left of the text.
    fn rest(&self) -> &'a [u8]
        ensures { result.now ≡ rest_of self.now }
    {
        &self.text[self.at..]
    }

    // Goes past so many bytes, and hands them out.
    fn take(&mut self, count: usize) -> &'a [u8]
        requires { count ≤ length (rest_of self.old) }
        ensures part { result.now ≡ take count (rest_of self.old) }
        ensures left { rest_of self.new ≡ drop count (rest_of self.old) }
    {
        let part = &self.rest()[..count];
        self.at += count;
        part
    }
}
