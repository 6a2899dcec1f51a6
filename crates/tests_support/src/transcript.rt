use crate::{Deed, GREETED, GREETS, Step, append, spell, steps_of};
use std::alloc::Global;

/// The bytes that one says in a conversation, and those that it hears.
#[derive(Drop)]
pub struct Transcript {
    pub said: Vec<u8>,
    pub heard: Vec<u8>,
}

/// Gives what `who` says and hears in a conversation, each line with its line feed; but for what it `hears a part` of, which has none. Nothing
/// where its steps are of other kinds, or spell words that mean nothing.
pub fn transcript_of(alloc: Global, text: &str, who: &str) -> Option<Transcript> {
    let (said, heard) = (Vec::new(alloc), Vec::new(alloc));
    let mut all = Transcript { said, heard };
    for step in &steps_of(alloc, text)? {
        if step.who == who {
            all.add(alloc, *step)?;
        }
    }
    Some(all)
}

impl Transcript {
    fn add(&mut self, alloc: Global, step: Step<'_>) -> Option<()> {
        let line = spell(alloc, step.line, 0)?;
        match step.deed {
            Deed::Says => append_line(&mut self.said, &line),
            Deed::Hears => append_line(&mut self.heard, &line),
            Deed::HearsAPart => append(&mut self.heard, &line).ok(),
            Deed::IsGreeted => {
                append_line(&mut self.said, GREETS.as_bytes())?;
                self.is_greeted(&line)
            }
            _ => None,
        }
    }

    fn is_greeted(&mut self, sid: &[u8]) -> Option<()> {
        let [support, identifier, hub] = GREETED;
        append_line(&mut self.heard, support.as_bytes())?;
        append(&mut self.heard, identifier.as_bytes()).ok()?;
        append_line(&mut self.heard, sid)?;
        append_line(&mut self.heard, hub.as_bytes())
    }
}

fn append_line(bytes: &mut Vec<u8>, line: &[u8]) -> Option<()> {
    append(bytes, line).ok()?;
    append(bytes, b"\n").ok()
}
