ghost use Rattle.std.specs.Prelude.{◌≡◌, ◌<◌, ◌≤◌, ◌↔◌, [], ◌∷◌, ◌++◌, length, map, take, IsTrue, IfErr, IfNone, IfOk, IfSome, OnOk, OnErr};
ghost use Rattle.outboxes.specs.Backlogs.{size_of};
ghost use Rattle.std.specs.List.{concat};
ghost use Rattle.outboxes.specs.Handles.{handles};

use crate::outbox::size_within;
use crate::refused::PushRefused;
use bytes::Bytes;
use std::alloc::{AllocError, Global};
use std::marker::Model;
use std::slice::from_ref;
use std::sync::Arc;

/// Handles of lines. Most batches are one line, and another handle of it takes no memory.
#[derive(Drop)]
enum Lines {
    /// No line.
    Nothing,
    /// One line.
    One(Arc<Bytes>),
    /// A list of lines, which lies elsewhere, so that a batch of one line is small.
    Many(Box<Vec<Arc<Bytes>>>),
}

/// Lines that one call owes to one connection: an outbox is given all of them or none.
pub struct Batch {
    alloc: Global,
    lines: Lines,
}

impl Drop for Batch {
    fn drop(self) {
        let Batch { alloc: _, lines } = self;
        drop(lines);
    }
}

impl Model for Batch {
    ghost use Rattle.std.specs.Prelude.{ℕ, List, map};
    ghost use Rattle.outboxes.specs.Handles.{handles};

    ghost Value = { List (List ℕ) };

    ghost view = { λ b. map (λ line. line.value) (handles b.lines) };
}

impl Lines {
    fn as_slice(&self) -> &[Arc<Bytes>]
        ensures { result.now ≡ handles self.now }
    {
        match self {
            Lines::Nothing => &[],
            Lines::One(line) => from_ref(line),
            Lines::Many(lines) => lines,
        }
    }

    /// Makes other handles of the same lines. Of one line that takes no memory.
    fn share(&self, alloc: Global) -> Result<Lines, AllocError>
        ensures { IfOk result (λ lines. map (λ line. line.value) (handles lines) ≡ map (λ line. line.value) (handles self.now)) }
    {
        Ok(match self {
            Lines::Nothing => Lines::Nothing,
            Lines::One(line) => Lines::One(line.clone()?),
            Lines::Many(lines) => Lines::Many(joined(alloc, lines, &[])?),
        })
    }
}

impl Batch {
    /// Makes a batch of no line. It takes no memory.
    pub fn new(alloc: Global) -> Batch
        ensures { result ≡ [] }
    {
        Batch {
            alloc,
            lines: Lines::Nothing,
        }
    }

    /// Adds one line, with its line feed, at the end. The bytes are shared and not copied.
    ///
    /// `Memory` where it runs out; the batch is then as before.
    pub fn push(&mut self, line: Bytes) -> Result<(), PushRefused>
        ensures ok { OnOk result (self.new ≡ self.old ++ line ∷ []) }
        ensures err { OnErr result (self.new ≡ self.old) }
    {
        let line = Arc::new(self.alloc, line)?;
        match &mut self.lines {
            Lines::Nothing => self.lines = Lines::One(line),
            Lines::One(first) => {
                let lines = joined(self.alloc, from_ref(first), from_ref(&line))?;
                self.lines = Lines::Many(lines);
            }
            Lines::Many(lines) => lines.push(line)?,
        }
        Ok(())
    }

    /// Adds all lines of another batch at the end, in order. The bytes are shared and not copied.
    ///
    /// `Memory` where it runs out; the batch is then as before. One line added to none takes no memory.
    pub fn push_all(&mut self, other: &Batch) -> Result<(), PushRefused>
        ensures ok { OnOk result (self.new ≡ self.old ++ other.now) }
        ensures err { OnErr result (self.new ≡ self.old) }
    {
        if other.is_empty() {
            return Ok(());
        }
        match &mut self.lines {
            Lines::Nothing => self.lines = other.lines.share(self.alloc)?,
            Lines::One(first) => {
                let lines = joined(self.alloc, from_ref(first), other.lines.as_slice())?;
                self.lines = Lines::Many(lines);
            }
            Lines::Many(lines) => push_copies(lines, other.lines.as_slice())?,
        }
        Ok(())
    }

    /// Makes another batch of the same lines. The bytes are shared and not copied.
    pub fn share(&self) -> Result<Batch, AllocError>
        ensures { IfOk result (λ batch. batch ≡ self.now) }
    {
        Ok(Batch {
            alloc: self.alloc,
            lines: self.lines.share(self.alloc)?,
        })
    }

    /// Tests whether it has no line.
    pub fn is_empty(&self) -> bool
        ensures { IsTrue result ↔ self.now ≡ [] }
    {
        self.lines.as_slice().is_empty()
    }

    /// Counts its lines.
    pub fn count(&self) -> usize
        ensures { result ≡ length self.now }
    {
        self.lines.as_slice().len()
    }

    /// Counts the bytes of its lines, line feeds included, where these are no more than there is room for.
    pub fn size_within(&self, room: usize) -> Option<usize>
        ensures some { IfSome result (λ size. (size ≡ size_of self.now) × (size ≤ room)) }
        ensures none { IfNone result (room < size_of self.now) }
    {
        size_within(self.lines.as_slice(), room)
    }

    /// Appends its lines.
    ///
    /// `AllocError` where memory runs out; `out` is then as before.
    pub fn write(&self, out: &mut Vec<u8>) -> Result<(), AllocError>
        ensures ok { OnOk result (out.new.items ≡ out.old.items ++ concat self.now) }
        ensures err { OnErr result (out.new.items ≡ out.old.items) }
    {
        write_handles(self.lines.as_slice(), out)
    }

    /// Gives its only line, or a list of its lines, where they are none or many.
    pub(crate) fn into_only_line(self) -> Result<Arc<Bytes>, Vec<Arc<Bytes>>>
        ensures one { IfOk result (λ line. self ≡ line.value ∷ []) }
        ensures list { IfErr result (λ lines. self ≡ map (λ line. line.value) lines.items) }
    {
        let Batch { alloc, lines } = self;
        match lines {
            Lines::Nothing => Err(Vec::new(alloc)),
            Lines::One(line) => Ok(line),
            Lines::Many(lines) => Err(Box::into_inner(lines)),
        }
    }
}

fn write_handles(lines: &[Arc<Bytes>], out: &mut Vec<u8>) -> Result<(), AllocError>
    ensures ok { OnOk result (out.new.items ≡ out.old.items ++ concat (map (λ line. line.value) lines.now)) }
    ensures err { OnErr result (out.new.items ≡ out.old.items) }
{
    let start = out.len();
    for line in lines {
        if out.extend_from_slice(line.as_slice()).is_err() {
            out.truncate(start);
            return Err(AllocError);
        }
    }
    Ok(())
}

/// Makes a list of a handle of each of these lines, and then of each of those.
fn joined(
    alloc: Global,
    these: &[Arc<Bytes>],
    those: &[Arc<Bytes>],
) -> Result<Box<Vec<Arc<Bytes>>>, AllocError>
    ensures { IfOk result (λ lines. map (λ line. line.value) lines.value.items ≡ map (λ line. line.value) these.now ++ map (λ line. line.value) those.now) }
{
    let mut lines = Vec::new(alloc);
    push_copies(&mut lines, these)?;
    push_copies(&mut lines, those)?;
    Ok(Box::new(alloc, lines)?)
}

/// Adds a handle of each line.
fn push_copies(lines: &mut Vec<Arc<Bytes>>, more: &[Arc<Bytes>]) -> Result<(), AllocError>
    ensures ok { OnOk result (map (λ line. line.value) lines.new.items ≡ map (λ line. line.value) lines.old.items ++ map (λ line. line.value) more.now) }
    ensures err { OnErr result (lines.new.items ≡ lines.old.items) }
{
    let start = lines.len();
    for line in more {
        if push_copy(lines, line).is_err() {
            lines.truncate(start);
            return Err(AllocError);
        }
    }
    Ok(())
}

fn push_copy(lines: &mut Vec<Arc<Bytes>>, line: &Arc<Bytes>) -> Result<(), AllocError>
    ensures ok { OnOk result (map (λ line. line.value) lines.new.items ≡ map (λ line. line.value) lines.old.items ++ line.now.value ∷ []) }
    ensures prefix { OnOk result (take (length lines.old.items) lines.new.items ≡ lines.old.items) }
    ensures err { OnErr result (lines.new.items ≡ lines.old.items) }
{
    lines.push(line.clone()?)?;
    Ok(())
}
