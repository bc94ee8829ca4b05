ghost use Rattle.std.specs.Prelude.{◌≡◌, ℕ, ◌<◌, List, ◌++◌, Some, length, nat_eq, slice_get};
ghost use Rattle.std.specs.List.{ends_with};
ghost use Rattle.std.specs.Option.{option_map};
ghost use Rattle.memchr.specs.Find.{IsFirstByte};
ghost use Rattle.frame_head.specs.Endings.{longest_ending};
ghost use Rattle.frame_rule.specs.Endings.{FindsEnding, Unended};
ghost use Rattle.frame_delim.specs.Marks.{NoneEmpty, last_byte, longer_size, may_end};
ghost use Rattle.frame_delim.specs.Tails.{Tells};

use frame_head::Marks;
use frame_rule::Ending;
use memchr::{memchr, memchr2, memchr3};

// The first delimiter in bytes that come behind open ones, of which `tail` are the last. It looks at each byte once,
// and at the 64 before one that may end a delimiter.
pub(crate) fn find_ending(list: &Marks, tail: &[u8], bytes: &[u8]) -> Option<Ending>
    requires { NoneEmpty list.now }
    ensures { (r : List ℕ) → Unended list.now r → Tells list.now tail.now r → FindsEnding list.now r bytes.now result }
{
    let mut at = 0;
    'candidates: while let Some(n) = next_candidate(list, &bytes[at..]) {
        let place = at + n;
        if let Some(size) = longest_at(list, tail, &bytes[..place + 1]) {
            return Some(Ending { place, size });
        }
        at = place + 1;
    }
    None
}

// The first byte with which a delimiter may end.
fn next_candidate(list: &Marks, bytes: &[u8]) -> Option<usize>
    requires { NoneEmpty list.now }
    ensures { IsFirstByte (may_end list.now) bytes.now result }
{
    match list.len() {
        1 => memchr(last_of(list, 0), bytes),
        2 => memchr2(last_of(list, 0), last_of(list, 1), bytes),
        3 => memchr3(last_of(list, 0), last_of(list, 1), last_of(list, 2), bytes),
        _ => { if bytes.is_empty() { None } else { Some(0) } }
    }
}

fn last_of(list: &Marks, i: usize) -> u8
    requires some { NoneEmpty list.now }
    requires within { i < length list.now }
    ensures { (m : List ℕ) → slice_get list.now i ≡ Some m → result ≡ last_byte m }
{
    let bytes = list.mark(i).bytes();
    bytes[bytes.len() - 1]
}

// The size of the longest delimiter that stands at the end of some bytes, which are in two parts.
fn longest_at(list: &Marks, tail: &[u8], front: &[u8]) -> Option<usize>
    ensures { result ≡ option_map (λ m. length m) (longest_ending list.now (tail.now ++ front.now)) }
{
    let mut longest = None;
    let mut i = list.len();
    while i > 0 {
        i -= 1;
        let mark = list.mark(i).bytes();
        if ends_here(tail, front, mark) {
            longest = Some(longer(mark.len(), longest));
        }
    }
    longest
}

fn longer(size: usize, other: Option<usize>) -> usize
    ensures { result ≡ longer_size size other }
{
    match other {
        Some(n) if n > size => n,
        _ => size,
    }
}

// Whether bytes in two parts end with a delimiter.
fn ends_here(tail: &[u8], front: &[u8], mark: &[u8]) -> bool
    ensures { result ≡ ends_with nat_eq (tail.now ++ front.now) mark.now }
{
    if mark.len() <= front.len() {
        return front.ends_with(mark);
    }
    let split = mark.len() - front.len();
    if split > tail.len() {
        return false;
    }
    tail.ends_with(&mark[..split]) && &mark[split..] == front
}
