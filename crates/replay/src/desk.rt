// What stands between the calls of a script.
use levels::Book;
use outage::Log;
use year::Year;

// The most bytes that are kept, and that a call lends.
pub(crate) const KEPT: usize = 262_144;

// A log, a book, five years, and bytes that are kept: the first so many of a buffer.
#[derive(Drop)]
pub(crate) struct Desk {
    pub(crate) log: Log,
    pub(crate) book: Book,
    pub(crate) years: [Year; 5],
    pub(crate) buffer: [u8; KEPT],
    pub(crate) bytes: usize,
}

impl Desk {
    // The bytes that are kept.
    pub(crate) fn kept(&self) -> &[u8] {
        &self.buffer[..self.bytes.min(KEPT)]
    }

    // Keeps bytes behind these, as far as there is room.
    pub(crate) fn keep(&mut self, s: &[u8]) {
        let start = self.bytes.min(KEPT);
        let n = s.len().min(KEPT - start);
        self.buffer[start..start + n].copy_from_slice(&s[..n]);
        self.bytes = start + n;
    }
}
