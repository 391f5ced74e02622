//! A number of any length against a multiple of another.

ghost use Rattle.std.specs.Prelude.{◌≡◌, ◌≤◌, ◌<◌, ◌+◌, ◌-◌, ◌*◌, length, nat_lt, take, true};
ghost use Rattle.std.specs.List.{list_all};
ghost use Rattle.fab_lines.specs.Numbers.{is_digit, number_of};

/// The digit at a place of a number that is as wide as this, with zeros in front.
fn digit_at(digits: &[u8], width: usize, place: usize) -> u32
    requires digits { list_all is_digit digits.now ≡ true }
    requires wide { length digits.now ≤ width }
    requires within { place < width }
    ensures digit { result ≤ 9 }
    ensures more { number_of (take (place + 1 - (width - length digits.now)) digits.now)
        ≡ number_of (take (place - (width - length digits.now)) digits.now) * 10 + result }
{
    let gap = width - digits.len();
    if place < gap {
        return 0;
    }
    u32::from(digits[place - gap] - b'0')
}

/// Whether the number of these digits is below a small multiple of a count.
pub fn is_below(digits: &[u8], factor: u32, count: &[u8]) -> bool
    requires digits { list_all is_digit digits.now ≡ true }
    requires count { list_all is_digit count.now ≡ true }
    requires small { factor ≤ 31 }
    ensures { result ≡ nat_lt (number_of digits.now) (factor * number_of count.now) }
{
    let width = count.len().max(digits.len());
    // by how much the front of the multiple is above that of the digits, and 31 more; 0 and 32 stand for all that is beyond
    let mut lead: u32 = 31;
    for place in 0..width {
        let gained = 10 * lead + factor * digit_at(count, width, place) + 31;
        let lost = 310 + digit_at(digits, width, place);
        lead = gained.saturating_sub(lost).min(32);
    }
    lead == 32
}
