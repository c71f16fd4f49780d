//! The limit on the size of a file, as the system tells it.

ghost use Rattle.std.specs.Prelude.{◌≡◌, ℕ, IfSome, IsSomeAnd, List, Some};
ghost use Rattle.cob_program_runtime.specs.Limits.{SaysLimit, StandsBehind, TellsLimit, TellsLimitInFront, size_name};

use std::fs::File;
use std::io::Read;
use std::rt::Files;
use std::str;

/// The file in which the system tells a process its limits, a line for each.
const LIMITS: &str = "/proc/self/limits";

/// How many bytes of that file are read: more than it has.
const FRONT: usize = 4096;

/// What stands behind the first place of the name of the limit on the size of a file.
fn behind_name(limits: &str) -> Option<&str>
    ensures found { IfSome result (λ behind. StandsBehind size_name limits.now behind.now) }
    ensures only { (behind : List ℕ) → StandsBehind size_name limits.now behind
        → IsSomeAnd result (λ found. found.now ≡ behind) }
{
    match limits.split_once("\nMax file size") {
        Some((_, behind)) => Some(behind),
        None => None,
    }
}

/// The number behind white space, where a space stands behind it.
fn size_said(words: &str) -> Option<u64>
    ensures found { IfSome result (SaysLimit words.now) }
    ensures only { (size : ℕ) → SaysLimit words.now size → result ≡ Some size }
{
    match words.trim_start().split_once(' ') {
        Some((word, _)) => word.parse().ok(),
        None => None,
    }
}

/// The greatest size of a file that the text of a process's limits tells: the soft one, in bytes. `None` where it tells no number, as where it says
/// `unlimited`.
pub fn size_limit(limits: &str) -> Option<u64>
    ensures found { IfSome result (TellsLimit limits.now) }
    ensures only { (size : ℕ) → TellsLimit limits.now size → result ≡ Some size }
{
    match behind_name(limits) {
        Some(behind) => size_said(behind),
        None => None,
    }
}

/// The limit that the front of such a text tells.
fn size_in(front: &[u8]) -> Option<u64>
    ensures { IfSome result (TellsLimit front.now) }
{
    match str::from_utf8(front) {
        Ok(limits) => size_limit(limits),
        Err(_) => None,
    }
}

/// The limit that a file tells whose text is that of a process's limits, as far as one read gives it.
fn limit_in<F: Read>(file: &mut F) -> Option<u64>
    ensures { IfSome (F.remaining file.old) (λ text. IfSome result (TellsLimitInFront text)) }
{
    let mut front = [0; FRONT];
    match file.read(&mut front) {
        Ok(length) => size_in(&front[..length]),
        Err(_) => None,
    }
}

/// The greatest size that this process may give a file, where the system tells one.
pub(crate) fn limit_of_process<R: Files>(rt: &R) -> Option<u64> {
    let mut file = File::open(rt, LIMITS).ok()?;
    limit_in(&mut file)
}
