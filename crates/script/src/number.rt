// The numbers of a line: each is one space and one to five digits.
ghost use Rattle.std.specs.Prelude.{◌≡◌, ℕ, ◌≤◌, List, All, length, map, slice_index, take, drop, MatchOption, MatchResult};
ghost use Rattle.std.specs.Char.{IsAsciiDigit};
ghost use Rattle.std.specs.List.{range_with_len};
ghost use Rattle.script.specs.Spelling.{Number, Past, Next, Numbers};

use crate::fault::Fault;

const MOST_DIGITS: usize = 5;

// How many digits stand at the front of `s`.
fn digit_count(s: &[u8]) -> usize
    ensures within { result ≤ length s.now }
    ensures all { All IsAsciiDigit (take result s.now) }
    ensures past { Past (drop result s.now) }
{
    s.iter()
        .position(|b| !b.is_ascii_digit())
        .unwrap_or(s.len())
}

// The number that the digits write, if they are few enough and it fits.
fn value(digits: &[u8]) -> Option<u16>
    requires { All IsAsciiDigit digits.now }
    ensures { MatchOption result ((n : ℕ) → Number digits.now n → ⊥) (λ n. Number digits.now n) }
{
    if digits.len() > MOST_DIGITS {
        return None;
    }
    str::from_utf8(digits).ok()?.parse().ok()
}

// The number at the front of `s`, with its space, and what comes after its digits.
fn number(s: &[u8]) -> Option<(u16, &[u8])>
    ensures { MatchOption result ((n : ℕ) (after : List ℕ) → Next s.now n after → ⊥) (λ x. Next s.now x.0 x.1.now) }
{
    let tail = s.strip_prefix(b" ")?;
    let (digits, after) = tail.split_at(digit_count(tail));
    Some((value(digits)?, after))
}

// The `N` numbers that `s` is, if it is just those.
pub(crate) fn numbers<const N: usize>(s: &[u8]) -> Result<[u16; N], Fault>
    ensures { MatchResult result (λ a. Numbers s.now (map (slice_index a) (range_with_len 0 N))) (λ e. (e ≡ Fault.Malformed) × ((ns : List ℕ) → length ns ≡ N → Numbers s.now ns → ⊥)) }
{
    let mut found = [0; N];
    let mut rest = s;
    for slot in &mut found {
        let (n, after) = number(rest).ok_or(Fault::Malformed)?;
        *slot = n;
        rest = after;
    }
    if rest.is_empty() {
        Ok(found)
    } else {
        Err(Fault::Malformed)
    }
}
