//! Bytes that are kept as a log writes them.

ghost use Rattle.std.specs.Prelude.{◌≡◌, ◌+◌, ◌++◌, ◌≤◌, [], IfOk, OnOk, OnErr, length};
ghost use Rattle.pc_base.specs.Frame.{framed, content_of, filled, IsFrame};

use crate::failure::Memory;
use std::alloc::Global;
use std::marker::Model;

/// How many bytes stand before the content in its frame.
const HEAD: usize = 4;

/// A list of bytes. It is kept with its frame round it, so that a log can write it as it stands.
#[derive(Drop)]
pub struct Bytes {
    // the whole frame, or nothing as long as no content was put in
    frame: Vec<u8>,
}

impl Model for Bytes {
    ghost use Rattle.std.specs.Prelude.{ℕ, List};
    ghost use Rattle.pc_base.specs.Frame.{content_of, IsFrame};

    ghost Value = { List ℕ };

    ghost view = { λ b. content_of b.frame.items };

    ghost invariant = { λ b. IsFrame b.frame.items };
}

impl Bytes {
    /// No bytes.
    pub fn new(alloc: Global) -> Bytes
        ensures { result ≡ [] }
    {
        Bytes {
            frame: Vec::new(alloc),
        }
    }

    /// No bytes, with room for so many.
    pub fn with_capacity(alloc: Global, capacity: usize) -> Result<Bytes, Memory>
        ensures { IfOk result (λ bytes. bytes ≡ []) }
    {
        Ok(Bytes {
            frame: Vec::with_capacity(alloc, capacity.saturating_add(HEAD + 1))?,
        })
    }

    /// A copy of these bytes.
    pub fn copy_of(alloc: Global, bytes: &[u8]) -> Result<Bytes, Memory>
        ensures { IfOk result (λ copy. copy ≡ bytes.now) }
    {
        let mut copy = Bytes::new(alloc);
        copy.append(bytes)?;
        Ok(copy)
    }

    /// Appends these bytes. After `Err` nothing has changed.
    pub fn append(&mut self, bytes: &[u8]) -> Result<(), Memory>
        ensures ok { OnOk result (self.new ≡ self.old ++ bytes.now) }
        ensures err { OnErr result (self.new ≡ self.old) }
    {
        append_framed(&mut self.frame, bytes)
    }

    /// The bytes.
    pub fn as_slice(&self) -> &[u8]
        ensures { result.now ≡ self.now }
    {
        if self.frame.is_empty() {
            return &[];
        }
        &self.frame[HEAD..self.frame.len() - 1]
    }

    /// The bytes in their frame: four bytes of length, the highest first, the bytes, and a closed
    /// gate. Of a length that four bytes can't hold the lowest four stand.
    pub fn framed(&self) -> &[u8]
        ensures { result.now ≡ framed self.now }
    {
        if self.frame.is_empty() {
            return &[0, 0, 0, 0, 0];
        }
        self.frame.as_slice()
    }
}

/// Puts bytes behind the content of a frame. After `Err` nothing has changed.
fn append_framed(frame: &mut Vec<u8>, bytes: &[u8]) -> Result<(), Memory>
    requires { IsFrame frame.old.items }
    ensures ok { OnOk result (frame.new.items ≡ framed (content_of frame.old.items ++ bytes.now)) }
    ensures err { OnErr result (frame.new.items ≡ frame.old.items) }
{
    let end = frame.len().max(HEAD + 1) - 1;
    frame.resize(end + bytes.len() + 1, 0)?;
    fill(frame, end, bytes);
    Ok(())
}

/// Writes the bytes from a place on to the last byte but one, and the length of what stands there
/// then.
fn fill(frame: &mut [u8], at: usize, bytes: &[u8])
    requires head { 4 ≤ at }
    requires room { at + length bytes.now + 1 ≡ length frame.old }
    ensures { frame.new ≡ filled at bytes.now frame.old }
{
    let end = at + bytes.len();
    let count = ((end - HEAD) as u64).to_be_bytes();
    frame[at..end].copy_from_slice(bytes);
    frame[..HEAD].copy_from_slice(&count[HEAD..]);
}
