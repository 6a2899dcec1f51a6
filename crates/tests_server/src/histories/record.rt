// The history of a hub as it is recorded, and as text.
use crate::histories::clock::StillClock;
use adc_base32::encode24;
use history_check::{LineCount, Verdict, WrittenCall, WrittenEntry, WrittenReply};
use hub_core::Taken;
use std::alloc::{AllocError, Global};
use std::net::Ipv4Addr;
use std::sync::atomic::{AtomicUsize, Ordering};
use std::sync::{Mutex, MutexGuard, Wait};

const DIGITS: [u8; 16] = *b"0123456789ABCDEF";

/// The calls that a hub took, each with its reply, in the order in which it took them.
#[derive(Drop)]
pub(crate) struct Record {
    alloc: Global,
    entries: Vec<WrittenEntry>,
    joins: u64,
    // A note was refused memory, or a session.
    pub(crate) is_lost: bool,
}

/// The things that the clients of a hub share: its clock, its record, and how far their conversation may go.
#[derive(Drop)]
pub(crate) struct Desk<R> {
    pub(crate) clock: StillClock<R>,
    record: Mutex<Record>,
    turn: AtomicUsize,
}

impl Record {
    /// Notes a call with its reply.
    pub(crate) fn note(&mut self, caller: u64, call: WrittenCall, reply: WrittenReply) {
        let entry = WrittenEntry {
            caller,
            call,
            reply,
        };
        if self.entries.push(entry).is_err() {
            self.is_lost = true;
        }
    }

    /// Notes a join that was accepted, and gives the number of its connection.
    pub(crate) fn note_join(&mut self, caller: u64, join: WrittenCall) -> u64 {
        self.joins = self.joins.wrapping_add(1);
        self.note(caller, join, WrittenReply::Joined(self.joins));
        self.joins
    }

    /// Notes a line of a connection, and what the hub said of it.
    pub fn note_line(&mut self, caller: u64, of: u64, line: &[u8], moment: u64, said: Verdict) {
        match Vec::from_slice(self.alloc, line) {
            Ok(line) => {
                let call = WrittenCall::Line(of, line, moment);
                self.note(caller, call, WrittenReply::Said(said));
            }
            Err(_) => self.is_lost = true,
        }
    }

    /// Notes that a connection asked for so many lines, and what it was given.
    pub fn note_take(&mut self, caller: u64, of: u64, count: usize, bytes: &[u8], taken: Taken) {
        match (LineCount::new(count), Vec::from_slice(self.alloc, bytes)) {
            (Some(count), Ok(bytes)) => {
                let reply = WrittenReply::Took(bytes, taken.lines, taken.ended);
                self.note(caller, WrittenCall::Take(of, count), reply);
            }
            _ => self.is_lost = true,
        }
    }
}

impl<R> Desk<R> {
    /// Makes the desk of a hub on which nobody called.
    pub(crate) fn new(alloc: Global) -> Desk<R> {
        Desk {
            clock: StillClock::new(),
            record: Mutex::new(Record {
                alloc,
                entries: Vec::new(alloc),
                joins: 0,
                is_lost: false,
            }),
            turn: AtomicUsize::new(0),
        }
    }

    /// Lets the first so many steps of the conversation be made.
    pub(crate) fn allow(&self, turn: usize) {
        self.turn.store(turn, Ordering::SeqCst);
    }

    /// Gives how many steps of the conversation may be made.
    pub(crate) fn turn(&self) -> usize {
        self.turn.load(Ordering::SeqCst)
    }

    /// Gives the history; nothing where it is not whole.
    pub(crate) fn into_history(self) -> Option<Vec<WrittenEntry>> {
        let Desk { record, .. } = self;
        let record = record.into_inner();
        (!record.is_lost).then_some(record.entries)
    }
}

impl<R: Wait> Desk<R> {
    /// Takes the record. Nobody else calls on the hub or sets the clock until it is given back.
    pub(crate) fn record(&self) -> MutexGuard<'_, Record> {
        self.record.lock(&self.clock)
    }

    /// Sets the clock, between two calls on the hub.
    pub(crate) fn set_clock(&self, moment: u64) {
        let _record = self.record();
        self.clock.set(moment);
    }
}

/// Writes a history, an entry a line.
pub(crate) fn write_history(
    alloc: Global,
    history: &[WrittenEntry],
) -> Result<Vec<u8>, AllocError> {
    let mut text = Vec::new(alloc);
    for entry in history {
        append_call(&mut text, alloc, entry)?;
        append_reply(&mut text, alloc, entry)?;
        text.push(b'\n')?;
    }
    Ok(text)
}

fn append_call(text: &mut Vec<u8>, alloc: Global, entry: &WrittenEntry) -> Result<(), AllocError> {
    let caller = entry.caller;
    let words = match &entry.call {
        WrittenCall::Join([a, b, c, d], challenge, moment) => {
            let address = Ipv4Addr::new(*a, *b, *c, *d);
            text.extend_from_slice(format!(in alloc; "{caller} join {address} ")?.as_bytes())?;
            text.extend_from_slice(&encode24(challenge))?;
            format!(in alloc; " {moment} ")?
        }
        WrittenCall::Line(connection, _, moment) => {
            format!(in alloc; "{caller} line {connection} {moment} ")?
        }
        WrittenCall::Quit(connection) => format!(in alloc; "{caller} quit {connection} ")?,
        WrittenCall::Take(connection, count) => {
            let count = count.get();
            format!(in alloc; "{caller} take {connection} {count} ")?
        }
    };
    text.extend_from_slice(words.as_bytes())
}

fn append_reply(text: &mut Vec<u8>, alloc: Global, entry: &WrittenEntry) -> Result<(), AllocError> {
    match &entry.reply {
        WrittenReply::Joined(number) => {
            text.extend_from_slice(format!(in alloc; "joined {number}")?.as_bytes())
        }
        WrittenReply::Full => text.extend_from_slice(b"full"),
        WrittenReply::JoinsSpent => text.extend_from_slice(b"joins-spent"),
        WrittenReply::Said(verdict) => {
            let said = match verdict {
                Verdict::Kept => b"kept ".as_slice(),
                Verdict::Ended => b"ended ".as_slice(),
            };
            text.extend_from_slice(said)?;
            append_bytes(text, line_of(&entry.call))
        }
        WrittenReply::Left => text.extend_from_slice(b"left"),
        WrittenReply::Took(bytes, lines, ended) => {
            let end = if *ended { "over" } else { "more" };
            text.extend_from_slice(format!(in alloc; "{lines} {end} ")?.as_bytes())?;
            append_bytes(text, bytes)
        }
    }
}

/// Gives the bytes of a line that was sent.
fn line_of(call: &WrittenCall) -> &[u8] {
    match call {
        WrittenCall::Line(_, line, _) => line,
        _ => b"",
    }
}

/// Appends bytes, of which those below the blank and the percent sign are spelled.
fn append_bytes(text: &mut Vec<u8>, bytes: &[u8]) -> Result<(), AllocError> {
    for byte in bytes {
        if *byte < b' ' || *byte == b'%' {
            text.push(b'%')?;
            text.push(DIGITS[(*byte / 16) as usize])?;
            text.push(DIGITS[(*byte % 16) as usize])?;
        } else {
            text.push(*byte)?;
        }
    }
    Ok(())
}
