// The digits that come next.
ghost use Rattle.std.specs.Prelude.{◌≡◌, take, drop};
ghost use Rattle.std.specs.Char.{is_ascii_digit};
ghost use Rattle.std.specs.List.{prefix_len};
ghost use Rattle.texts.specs.Readers.{rest_of};

use super::Reader;

impl<'a> Reader<'a> {
    // How many digits come next.
    fn digit_count(&self) -> usize
        ensures { result ≡ prefix_len is_ascii_digit (rest_of self.now) }
    {
        self.rest()
            .iter()
            .take_while(|byte| byte.is_ascii_digit())
            .count()
    }

    // Goes past the digits that come next, and hands them out.
    #[tactic(auto, using(crate::proofs::Parting::digits_within))]
    pub fn digits(&mut self) -> &'a [u8]
        ensures digits { result.now ≡ take (prefix_len is_ascii_digit (rest_of self.old)) (rest_of self.old) }
        ensures rest { rest_of self.new ≡ drop (prefix_len is_ascii_digit (rest_of self.old)) (rest_of self.old) }
    {
        let count = self.digit_count();
        self.take(count)
    }
}
