// How a docket stands.
ghost use Rattle.std.specs.Prelude.{◌≡◌, Some};
ghost use Rattle.model.specs.Standings.{standing_words};

use std::fmt;

// A docket is open until a settle or a show is granted; `Runs` has how many switches are on in the setting shown.
#[derive(Clone, Copy)]
pub enum Standing {
    Open,
    CannotRun,
    Runs(u16),
}

impl Standing {
    // The words that a verdict line begins with.
    pub fn words(self) -> &'static str
        ensures { result.now ≡ standing_words self }
    {
        match self {
            Standing::Open => "open",
            Standing::CannotRun => "cannot run",
            Standing::Runs(_) => "runs",
        }
    }
}

// Prints the words.
impl fmt::Display for Standing {
    ghost output = { λ s. Some (standing_words s) };

    fn fmt<W: fmt::Write>(&self, f: &mut fmt::Formatter<W>) -> fmt::Result {
        f.write_str(self.words())
    }
}
