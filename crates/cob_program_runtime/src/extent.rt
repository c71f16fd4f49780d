//! How far a file may be written.

ghost use Rattle.std.specs.Prelude.{◌≡◌, ◌<◌, ◌≤◌, ◌↔◌, length, IfErr, IfOk, IsTrue, MatchResult, OnErr};
ghost use Rattle.cob_program_runtime.specs.Extents.{AtLimit, IsTooLarge, front_that_fits, room_left, advanced_by};

use std::io;

/// The system's number of the error that a file would be too large.
const TOO_LARGE: i32 = 27;

/// The error that a file would be too large.
pub fn too_large() -> io::Error
    ensures { IsTooLarge result }
{
    io::Error::from_raw_os_error(TOO_LARGE)
}

/// Where the next byte of a file is written, and from where on it takes none.
#[derive(Clone, Copy)]
pub struct Extent {
    /// The most bytes that the file may have.
    limit: u64,
    /// How many bytes stand before the next one that is written.
    position: u64,
}

impl Extent {
    /// The extent of a file that may have so many bytes, where so many stand before the next one.
    pub fn new(limit: u64, position: u64) -> Extent
        ensures limit { result.limit ≡ limit }
        ensures position { result.position ≡ position }
    {
        Extent { limit, position }
    }

    /// Whether a file of this size would be larger than it may be.
    pub fn is_below(&self, size: u64) -> bool
        ensures { IsTrue result ↔ self.now.limit < size }
    {
        self.limit < size
    }

    /// How many bytes there is room for.
    pub fn room(&self) -> u64
        ensures { result ≡ room_left self.now }
    {
        self.limit.saturating_sub(self.position)
    }

    /// As many of these bytes as there is room for.
    ///
    /// # Errors
    ///
    /// Where there are some, and there is room for none.
    pub fn front_of<'a>(&self, bytes: &'a [u8]) -> io::Result<&'a [u8]>
        ensures { MatchResult result (λ front. (front.now ≡ front_that_fits self.now bytes.now)
            × (AtLimit self.now → length bytes.now ≡ 0))
            (λ error. IsTooLarge error × AtLimit self.now × (0 < length bytes.now)) }
    {
        match usize::try_from(self.room()) {
            Ok(0) if !bytes.is_empty() => Err(too_large()),
            Ok(room) if room < bytes.len() => Ok(&bytes[..room]),
            _ => Ok(bytes),
        }
    }

    /// Whether there is room for so many bytes.
    ///
    /// # Errors
    ///
    /// Where there is not.
    pub fn fits(&self, bytes: u64) -> io::Result<()>
        ensures room { IfOk result (λ _. bytes ≤ room_left self.now) }
        ensures full { OnErr result (room_left self.now < bytes) }
        ensures error { IfErr result IsTooLarge }
    {
        if bytes <= self.room() {
            Ok(())
        } else {
            Err(too_large())
        }
    }

    /// The extent behind so many bytes more.
    pub fn moved_by(&self, bytes: usize) -> Extent
        ensures { result ≡ advanced_by bytes self.now }
    {
        Extent {
            position: self.position.saturating_add(bytes as u64),
            ..*self
        }
    }

    /// The extent at this position.
    pub fn moved_to(&self, position: u64) -> Extent
        ensures limit { result.limit ≡ self.now.limit }
        ensures position { result.position ≡ position }
    {
        Extent { position, ..*self }
    }
}
