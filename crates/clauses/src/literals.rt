// Literals as codes: 2 s for the signal s, 2 s + 1 for its negation.
ghost use Rattle.std.specs.Prelude.{◌≡◌};
ghost use Rattle.clauses.specs.Literals.{signal, negated, literal_of, flip};

// The signal that a literal is about.
pub fn signal(literal: u32) -> u32
    ensures { result ≡ signal literal }
{
    literal / 2
}

// Whether a literal is the negation of its signal.
pub fn negated(literal: u32) -> bool
    ensures { result ≡ negated literal }
{
    literal % 2 == 1
}

// The literal of a signal, plain or negated: a signal and a flag, since a literal is no more than these two.
pub fn literal_of(subject: u16, minus: bool) -> u32
    ensures { result ≡ literal_of subject minus }
{
    let plain = 2 * u32::from(subject);
    if minus { plain + 1 } else { plain }
}

// The literal of the same signal the other way round.
pub fn flip(literal: u32) -> u32
    ensures { result ≡ flip literal }
{
    if negated(literal) {
        literal - 1
    } else {
        literal + 1
    }
}
