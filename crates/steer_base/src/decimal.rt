//! Numbers in decimal digits.
ghost use Rattle.std.specs.Prelude.{◌≡◌, ◌<◌, ◌≤◌, ◌^◌, IfSome};
ghost use Rattle.steer_base.specs.Decimals.{decimal_number as number_of};

/// The number that a text is, where it is 1 to `most` decimal digits without a sign and nothing
/// else; leading zeros are digits as others.
#[tactic(auto, unfolding(crate::specs::Decimals::decimal_number))]
pub fn decimal_number(text: &[u8], most: u8) -> Option<u128>
    requires { most ≤ 20 }
    ensures value { result ≡ number_of most text.now }
    ensures within { IfSome result (λ number. number < 10 ^ most) }
{
    if text.is_empty() || text.len() > usize::from(most) {
        return None;
    }
    let mut number = 0u128;
    for digit in text {
        if !digit.is_ascii_digit() {
            return None;
        }
        number = number * 10 + u128::from(*digit - b'0');
    }
    Some(number)
}
