// One character after another.
ghost use Rattle.std.specs.Prelude.{◌≡◌};
ghost use Rattle.texts.specs.Characters.{first, behind};
ghost use Rattle.texts.specs.Readers.{rest_of};

use super::Reader;

impl<'a> Reader<'a> {
    // A reader at the start of a text.
    pub fn new(text: &'a [u8]) -> Reader<'a>
        ensures { rest_of result ≡ text.now }
    {
        Reader { text, at: 0 }
    }

    // The next character, if one is left.
    pub fn peek(&self) -> Option<char>
        ensures { result ≡ first (rest_of self.now) }
    {
        self.rest().first().map(|byte| *byte as char)
    }

    // Goes past the next character, if one is left.
    #[tactic(auto, using(crate::proofs::Parting::behind_drop))]
    pub fn skip(&mut self)
        ensures { rest_of self.new ≡ behind (rest_of self.old) }
    {
        if self.at < self.text.len() {
            self.at += 1;
        }
    }
}
