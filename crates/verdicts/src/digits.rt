// The digits of a line that shows a setting, packed.
ghost use Rattle.std.specs.Prelude.{◌≡◌, ◌≤◌, length};
ghost use Rattle.clauses.specs.Few.{items_of};
ghost use Rattle.verdicts.specs.Digits.{byte_of, packed_digits, DigitsLaw};

use clauses::few::Few;

// The byte of at most eight digits, the first in the lowest bit.
fn byte_of(digits: &[u8]) -> u8
    requires { length digits.now ≤ 8 }
    ensures { result ≡ byte_of digits.now }
{
    let mut byte = 0;
    for digit in digits.iter().rev() {
        byte = 2 * byte + u8::from(*digit == b'1');
    }
    byte
}

// Packs one digit 0 or 1 for each switch; nothing if there are not as many digits as switches.
pub fn pack(switches: u16, digits: &[u8]) -> Few<u8, 32>
    requires { switches ≤ 256 }
    ensures { items_of result ≡ packed_digits switches digits.now }
{
    let mut packed = Few::new();
    if digits.len() == usize::from(switches) {
        for eight in digits.chunks(8) {
            packed.push(byte_of(eight));
        }
    }
    packed
}

// States that packed digits are a well packed setting, and read back as they were written: the law is this contract.
pub fn digits_law()
    ensures { DigitsLaw }
{}
