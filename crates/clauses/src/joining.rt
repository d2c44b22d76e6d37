// Joining two clauses: find the signal on which they clash, then merge all other literals.
ghost use Rattle.std.specs.Prelude.{◌≡◌, ◌+◌, ◌≤◌, [], ◌∷◌, ◌++◌, length, take, drop};
ghost use Rattle.clauses.specs.Buffers.{written_over};
ghost use Rattle.clauses.specs.Literals.{signal};
ghost use Rattle.clauses.specs.Joining.{meeting, kept, used, clashes, merged, listed, only, joined_length, joined_buffer};
ghost use Rattle.clauses.specs.JoiningLaw.{JoiningLaw};

use crate::buffers::copy_at;
use crate::literals::signal;
use crate::refusals::Refusal;

// How the front literals of two lists stand to each other.
#[derive(Clone, Copy)]
pub enum Meeting {
    Same,
    Clash,
    LeftFirst,
    RightFirst,
}

impl Meeting {
    // The literal that a merge keeps of the two; of a clash, none.
    fn kept(self, left: u32, right: u32) -> Option<u32>
        ensures { result ≡ kept self left right }
    {
        match self {
            Meeting::Same | Meeting::LeftFirst => Some(left),
            Meeting::RightFirst => Some(right),
            Meeting::Clash => None,
        }
    }

    // What is left of the two lists behind the literals that are read with it.
    fn behind<'a>(self, left: &'a [u32], right: &'a [u32]) -> (&'a [u32], &'a [u32])
        requires left { 1 ≤ length left.now }
        requires right { 1 ≤ length right.now }
        ensures left { result.0.now ≡ drop (used self).0 left.now }
        ensures right { result.1.now ≡ drop (used self).1 right.now }
    {
        match self {
            Meeting::Same | Meeting::Clash => (&left[1..], &right[1..]),
            Meeting::LeftFirst => (&left[1..], right),
            Meeting::RightFirst => (left, &right[1..]),
        }
    }
}

fn compare(left: u32, right: u32) -> Meeting
    ensures { result ≡ meeting left right }
{
    if left == right {
        Meeting::Same
    } else if signal(left) == signal(right) {
        Meeting::Clash
    } else if left < right {
        Meeting::LeftFirst
    } else {
        Meeting::RightFirst
    }
}

// The signal of a clash, if none was found before it.
fn first_clash(found: Option<u32>, literal: u32) -> Result<u32, Refusal>
    ensures { result ≡ only (listed found ++ signal literal ∷ []) }
{
    match found {
        None => Ok(signal(literal)),
        Some(_) => Err(Refusal::SecondClash),
    }
}

// The one signal on which two lists clash.
pub fn pivot(left: &[u32], right: &[u32]) -> Result<u32, Refusal>
    ensures { result ≡ only (clashes left.now right.now) }
{
    let mut found = None;
    let (mut lefts, mut rights) = (left, right);
    while let (Some(l), Some(r)) = (lefts.first(), rights.first()) {
        let meeting = compare(*l, *r);
        if let Meeting::Clash = meeting {
            found = Some(first_clash(found, *l)?);
        }
        (lefts, rights) = meeting.behind(lefts, rights);
    }
    found.ok_or(Refusal::NoClash)
}

// Writes the literals of both lists that do not clash to the front of `out`, each once; answers how many. The
// buffer is a caller's slice, as clauses are everywhere.
pub fn merge(left: &[u32], right: &[u32], out: &mut [u32]) -> usize
    requires { length left.now + length right.now ≤ length out.old }
    ensures count { result ≡ length (merged left.now right.now) }
    ensures buffer { out.new ≡ written_over (merged left.now right.now) out.old }
{
    let mut count = 0;
    let (mut lefts, mut rights) = (left, right);
    while let (Some(l), Some(r)) = (lefts.first(), rights.first()) {
        let meeting = compare(*l, *r);
        if let Some(literal) = meeting.kept(*l, *r) {
            out[count] = literal;
            count += 1;
        }
        (lefts, rights) = meeting.behind(lefts, rights);
    }
    count = copy_at(lefts, out, count);
    copy_at(rights, out, count)
}

// Joins two clauses that clash on exactly one signal; refused, `out` stays as it was.
pub fn join(left: &[u32], right: &[u32], out: &mut [u32]) -> Result<usize, Refusal>
    requires { length left.now + length right.now ≤ length out.old }
    ensures answer { result ≡ joined_length left.now right.now }
    ensures buffer { out.new ≡ joined_buffer left.now right.now out.old }
{
    pivot(left, right)?;
    Ok(merge(left, right, out))
}

// States what joining means for clauses: the law is this contract.
pub fn joining_law()
    ensures { JoiningLaw }
{}
