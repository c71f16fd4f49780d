//! What is left of a source, or the first bytes of it.

ghost use Rattle.std.specs.Prelude.{◌≡◌, ◌⊎◌, ◌<◌, ◌≤◌, Some, length, take, IfOk, IfSome, OnErr, is_err};
ghost use Rattle.std.specs.Io.KnownBytes.{IsAtEnd, prepend_known};
ghost use Rattle.cob_records.specs.Device.{counted};
ghost use Rattle.cob_records_parts.specs.Parts.{less_by};

use crate::part::less_by;
use cob_records::{DeviceFault, Source};

/// A source that gives what is left of another, or its first bytes, and reads no further.
#[derive(Drop)]
pub struct Rest<R> {
    pub(crate) inner: R,
    pub(crate) bytes: Option<u64>,
}

impl<R> Rest<R> {
    // How many of so many bytes it may give now.
    fn most(&self, room: usize) -> usize
        ensures room { result ≤ room }
        ensures within { IfSome self.now.bytes (λ bytes. result ≤ bytes) }
        ensures none { result ≡ 0 → (room ≡ 0) ⊎ (self.now.bytes ≡ Some 0) }
    {
        match self.bytes {
            Some(bytes) if bytes < room as u64 => bytes as usize,
            _ => room,
        }
    }
}

impl<R: Source> Source for Rest<R> {
    ghost use Rattle.cob_records_parts.specs.Rests.{rest_coming, rest_inner};

    ghost coming = { λ rest. rest_coming R.coming rest };

    ghost failures = { λ rest. R.failures (rest_inner rest) };

    fn read(&mut self, piece: &mut [u8]) -> Result<usize, DeviceFault>
        ensures count { IfOk result (λ n. n ≤ length piece.new) }
        ensures bytes { IfOk result (λ n. rest_coming R.coming self.old
            ≡ prepend_known (take n piece.new) (rest_coming R.coming self.new)) }
        ensures end { IfOk result (λ n. n ≡ 0 → 0 < length piece.new
            → IsAtEnd (rest_coming R.coming self.old)) }
        ensures kept { OnErr result
            (rest_coming R.coming self.new ≡ rest_coming R.coming self.old) }
        ensures cause { R.failures (rest_inner self.new)
            ≡ counted (is_err result) (R.failures (rest_inner self.old)) }
    {
        let most = self.most(piece.len());
        if most == 0 {
            return Ok(0);
        }
        let count = self.inner.read(&mut piece[..most])?;
        self.bytes = less_by(count as u64, self.bytes);
        Ok(count)
    }
}
