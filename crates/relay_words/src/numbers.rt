//! Numbers in words.
ghost use Rattle.std.specs.Prelude.{◌≡◌, ◌==◌, ◌≤◌, true, IfSome, slice_index};
ghost use Rattle.std.specs.List.{list_all};
ghost use Rattle.relay_words.specs.Numbers.{adjustment, decimal, is_digit, is_number, number, number_in};

pub(crate) fn is_digit(b: u8) -> bool
    ensures { result ≡ is_digit b }
{
    b'0' <= b && b <= b'9'
}

fn are_digits(w: &[u8]) -> bool
    ensures { result ≡ list_all is_digit w.now }
{
    w.iter().all(|b| is_digit(*b))
}

fn has_leading_zero(w: &[u8]) -> bool
    ensures { result ≡ (slice_index w.now 0 == 48) }
{
    !w.is_empty() && w[0] == b'0'
}

fn is_number(w: &[u8]) -> bool
    ensures { result ≡ is_number w.now }
{
    are_digits(w) && !w.is_empty() && w.len() <= 13 && (w.len() == 1 || !has_leading_zero(w))
}

// It can't wrap: 13 digits are below 2^44.
fn decimal(w: &[u8]) -> u64
    requires { is_number w.now ≡ true }
    ensures { result ≡ decimal w.now }
{
    let mut n = 0;
    for d in w {
        n = n * 10 + u64::from(*d - b'0');
    }
    n
}

/// `0`, or at most 13 digits of which the first isn't `0`.
pub(crate) fn number(w: &[u8]) -> Option<u64>
    ensures { result ≡ number w.now }
{
    if !is_number(w) {
        return None;
    }
    Some(decimal(w))
}

pub(crate) fn number_in(w: &[u8], least: u64, greatest: u64) -> Option<u64>
    ensures value { result ≡ number_in least greatest w.now }
    ensures most { IfSome result (λ n. n ≤ greatest) }
{
    let n = number(w)?;
    if least <= n && n <= greatest {
        Some(n)
    } else {
        None
    }
}

/// A number from -65,536 to 65,536.
pub(crate) fn adjustment(w: &[u8]) -> Option<i32>
    ensures { result ≡ adjustment w.now }
{
    match w {
        [] => None,
        [b'-', size @ ..] => {
            let n = number_in(size, 0, 65_536)?;
            Some(0 - n as i32)
        }
        _ => {
            let n = number_in(w, 0, 65_536)?;
            Some(n as i32)
        }
    }
}
