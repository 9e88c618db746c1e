// Numbers of digits.
ghost use Rattle.std.specs.Prelude.{◌≡◌, Some, None, nat_le, if◌then◌else◌};
ghost use Rattle.mp_tokens.specs.Literals.{number_of};

/// The number that digits write, where it is at most this one (modpath's own). No digits write 0; a byte below '0' counts
/// as 0.
pub fn number_up_to(most: u64, digits: &[u8]) -> Option<u64>
    ensures { result ≡ (if nat_le (number_of digits.now) most then Some (number_of digits.now) else None) }
{
    let mut number: u128 = 0;
    for digit in digits {
        number = 10 * number + digit.saturating_sub(b'0') as u128;
        if number > most as u128 {
            return None;
        }
    }
    Some(number as u64)
}
