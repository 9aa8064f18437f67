//! The tag of ID3v2 that may precede a file.

use std::alloc::Global;
use std::io;
use std::io::Read;

/// The number of bytes of the header of a tag, and of its footer.
const HEADER: u64 = 10;

/// The number of bytes that are skipped at once.
const PIECE: u64 = 16384;

/// A reader of the bytes after the ID3v2 tag with which they may begin.
#[derive(Drop)]
pub struct AfterTag<R: Read> {
    reader: R,
    // The first bytes, if no tag begins with them. The first `taken` of them were read.
    head: Vec<u8>,
    taken: usize,
    // The number of bytes of the tag.
    tag: u64,
}

impl<R: Read> AfterTag<R> {
    /// Reads the tag, if there is one, or else the first ten bytes, which are then read again.
    ///
    /// # Errors
    ///
    /// The errors of the reader, and `OutOfMemory` if an allocation fails.
    pub fn new(alloc: Global, reader: R) -> io::Result<AfterTag<R>>
    where
        R: Drop,
    {
        let mut reader = reader;
        let mut head = Vec::new(alloc);
        reader.by_ref().take(HEADER).read_to_end(&mut head)?;
        let tag = tag_size(head.as_slice());
        if tag > 0 {
            head.clear();
            skip(&mut reader, tag.saturating_sub(HEADER), &mut head)?;
        }
        Ok(AfterTag {
            reader,
            head,
            taken: 0,
            tag,
        })
    }

    /// Returns the number of bytes of the tag, or 0 if there is none.
    pub fn tag_size(&self) -> u64 {
        self.tag
    }

    /// Returns the first bytes, ten or all, if there is no tag.
    pub fn head(&self) -> &[u8] {
        self.head.as_slice()
    }
}

impl<R: Read> Read for AfterTag<R> {
    fn read(&mut self, buf: &mut [u8]) -> io::Result<usize> {
        let mut rest = self.head.get(self.taken..).unwrap_or(&[]);
        if rest.is_empty() {
            return self.reader.read(buf);
        }
        let count = rest.read(buf)?;
        self.taken = self.taken.saturating_add(count);
        Ok(count)
    }
}

/// Returns the number of bytes of the tag that begins with this header, or 0 if none does.
fn tag_size(header: &[u8]) -> u64 {
    let [b'I', b'D', b'3', _, _, flags, a, b, c, d] = header else {
        return 0;
    };
    let mut size = 0u64;
    for byte in [*a, *b, *c, *d] {
        size = (size & 0xf_ffff_ffff) << 7 | (byte & 127) as u64;
    }
    let footer = if *flags & 0x10 == 0 { 0 } else { HEADER };
    size.saturating_add(HEADER).saturating_add(footer)
}

/// Skips `count` bytes, or all bytes if there are fewer. `piece` is empty before and after.
fn skip<R: Read>(reader: &mut R, count: u64, piece: &mut Vec<u8>) -> io::Result<()> {
    let mut rest = count;
    for _ in 0..count {
        let read = reader.by_ref().take(rest.min(PIECE)).read_to_end(piece)?;
        piece.clear();
        rest = rest.saturating_sub(read as u64);
        if read == 0 {
            break;
        }
    }
    Ok(())
}
