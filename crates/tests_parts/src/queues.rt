ghost use Rattle.std.specs.Prelude.{◌≤◌};

use crate::base32::sid;
use crate::rows::*;
use bytes::Bytes;
use outboxes::{Batch, Outbox, OutboxRefused, PLACE_BYTES, TakeRefused, Taken, quit_line};
use std::mem::size_of;

/// An outbox, and all that was taken out of it.
#[derive(Drop)]
pub(crate) struct Queue {
    outbox: Outbox,
    taken: Vec<u8>,
}

impl Part for Queue {
    fn call(&mut self, rt: &impl Machine, row: Row<'_>, said: &mut Vec<u8>) {
        match row.name {
            "room" => self.outbox = room(rt, row.text),
            "shares" => self.outbox.give(batch(rt, row.text)),
            "shares_again" => self.outbox.give(copy_of(rt, &batch(rt, row.text))),
            "quits" => self.outbox.give_quit(sid(rt, small(rt, row.text))),
            "fill" => self.fill(rt, row.text),
            "shows" => return self.shows(rt, number(rt, row.text) as usize, said),
            "writes" => return writes(rt, &batch(rt, row.text), said),
            "takes" => return self.takes(rt, number(rt, row.text) as usize, said),
            "drains" => return self.drains(rt, said),
            "line" => return say_bytes(rt, said, &quit_line(sid(rt, small(rt, row.text)))),
            _ => unknown(rt, row.name),
        }
        self.say_waiting(rt, said);
    }
}

/// Makes an outbox for so many lines and bytes.
fn room(rt: &impl Machine, text: &str) -> Outbox {
    let (cap, bytes) = pair(text, ' ');
    outbox(rt, number(rt, cap) as usize, number(rt, bytes) as usize)
}

fn outbox(rt: &impl Machine, cap: usize, bytes: usize) -> Outbox {
    got!(rt; "outboxes::Outbox::new", OutboxRefused::Memory, Outbox::new(rt.alloc(), cap, bytes))
}

/// Makes a batch of lines, each with its line feed, between `;`.
pub(crate) fn batch(rt: &impl Machine, lines: &str) -> Batch {
    let mut batch = Batch::new(rt.alloc());
    for line in lines.split(';') {
        if !line.is_empty() {
            push(rt, &mut batch, &line_bytes(rt, line));
        }
    }
    batch
}

fn line_bytes(rt: &impl Machine, line: &str) -> Bytes {
    let mut text = Vec::new(rt.alloc());
    say(rt, &mut text, line);
    say(rt, &mut text, "\n");
    again!(rt; Bytes::copy_from_slice(rt.alloc(), &text))
}

fn push(rt: &impl Machine, batch: &mut Batch, line: &Bytes) {
    let was_empty = batch.is_empty();
    let first = again!(rt; line.clone());
    if batch.push(first).is_err() {
        say_refused_memory(rt, "outboxes::Batch::push", batch.is_empty() == was_empty);
        let second = again!(rt; line.clone());
        assert!(rt; batch.push(second).is_ok(), "not pushed");
    }
}

/// Makes a batch of the same lines, by way of another.
fn copy_of(rt: &impl Machine, batch: &Batch) -> Batch {
    let shared = got!(rt; "outboxes::Batch::share", AllocError, batch.share());
    let mut copy = Batch::new(rt.alloc());
    got!(rt; "outboxes::Batch::push_all", _, copy.is_empty(), copy.push_all(&shared));
    copy
}

impl Queue {
    fn say_waiting(&self, rt: &impl Machine, said: &mut Vec<u8>) {
        say_number(rt, said, self.outbox.waiting() as u128);
        if self.outbox.lagging() {
            say(rt, said, " lagging");
        }
    }

    /// Says the first lines, as many as are asked for, or all.
    fn shows(&self, rt: &impl Machine, count: usize, said: &mut Vec<u8>) {
        let count = count.min(self.outbox.waiting() as usize);
        let mut shown = Vec::new(rt.alloc());
        got!(rt; "outboxes::Outbox::write", _, shown.is_empty(), self.outbox.write(count, &mut shown));
        say_bytes(rt, said, &shown);
    }

    /// Takes so many lines, and says how many they were, and behind that all that was taken so far.
    fn takes(&mut self, rt: &impl Machine, count: usize, said: &mut Vec<u8>) {
        let ended = self.take(rt, count, said);
        say(rt, said, if ended { " last;" } else { ";" });
        say_bytes(rt, said, &self.taken);
    }

    /// Takes, and tells how many lines it were; whether none will follow.
    fn take(&mut self, rt: &impl Machine, count: usize, said: &mut Vec<u8>) -> bool {
        if count < 1 || count > 256 {
            unknown(rt, "takes");
        }
        let Taken { lines, ended } = self.take_some(rt, count);
        say_number(rt, said, lines as u128);
        ended
    }

    /// Takes lines. Where memory is refused all is as before, and it takes again.
    fn take_some(&mut self, rt: &impl Machine, count: usize) -> Taken
        requires some { 1 ≤ count }
        requires few { count ≤ 256 }
    {
        got!(rt; "outboxes::Outbox::take", TakeRefused::Memory,
            (self.outbox.waiting(), self.outbox.lagging(), self.taken.len()), self.outbox.take(count, &mut self.taken))
    }

    /// Gives a line of so many bytes, letters and a line feed, so many times, to an outbox for 1,024 lines of 1,048,576 bytes.
    fn fill(&mut self, rt: &impl Machine, text: &str) {
        let (length, times) = pair(text, ' ');
        let line = again!(rt; letters(rt.alloc(), number(rt, length) as usize));
        self.outbox = outbox(rt, 1024, 1_048_576);
        for _ in 0..number(rt, times) {
            let mut batch = Batch::new(rt.alloc());
            push(rt, &mut batch, &line);
            self.outbox.give(batch);
        }
    }

    /// Takes four times as much as it may; how many lines, and how many bytes in all.
    fn drains(&mut self, rt: &impl Machine, said: &mut Vec<u8>) {
        self.taken.clear();
        for _ in 0..4 {
            if self.take(rt, 256, said) {
                say(rt, said, " last");
            }
        }
        say(rt, said, ";");
        say_number(rt, said, self.taken.len() as u128);
    }
}

/// Says the lines of a batch.
pub(crate) fn writes(rt: &impl Machine, batch: &Batch, said: &mut Vec<u8>) {
    let mut written = Vec::new(rt.alloc());
    got!(rt; "outboxes::Batch::write", _, written.is_empty(), batch.write(&mut written));
    say_bytes(rt, said, &written);
}

fn letters(alloc: Global, length: usize) -> Result<Bytes, AllocError> {
    let mut line = Vec::new(alloc);
    line.resize(length.saturating_sub(1), b'a')?;
    line.extend_from_slice(b"\n")?;
    Ok(Bytes::from_vec(line)?)
}

pub(crate) fn play_queue<R: Machine>(rt: &R, rows: &str) {
    let (outbox, taken) = (outbox(rt, 1, 1), Vec::new(rt.alloc()));
    play(rt, &mut Queue { outbox, taken }, rows);
}

#[test]
fn lines_wait_and_are_taken(rt: HostRuntime) {
    rows! { play_queue(rt) "
        == adds a share whole or not at all ==
        room 2 1000 -> 0
        shares BMSG AAAB a -> 1 | BMSG AAAB b;BMSG AAAB c | BMSG AAAB d | <> -> 1 lagging
        quits 1 -> 1 lagging
        takes 1 -> 1 last;BMSG AAAB a<x0a>
        shares <> -> 0 lagging
        == writes quits as lines ==
        line 1 -> IQUI AAAB<x0a>
        room 4 1000 -> 0
        quits 1 -> 1 | 2 -> 2
        shares BMSG AAAB hi;ISTA 000 Done -> 4
        takes 1 -> 1;IQUI AAAB<x0a> | 2 -> 2;IQUI AAAB<x0a>IQUI AAAC<x0a>BMSG AAAB hi<x0a>
        takes 256 -> 1;IQUI AAAB<x0a>IQUI AAAC<x0a>BMSG AAAB hi<x0a>ISTA 000 Done<x0a>
        takes 256 -> 0;IQUI AAAB<x0a>IQUI AAAC<x0a>BMSG AAAB hi<x0a>ISTA 000 Done<x0a>
        == shows lines and keeps them ==
        room 4 1000 -> 0
        shares BMSG AAAB a;BMSG AAAB b -> 2
        quits 1 -> 3
        shows 2 -> BMSG AAAB a<x0a>BMSG AAAB b<x0a> | 256 -> BMSG AAAB a<x0a>BMSG AAAB b<x0a>IQUI AAAB<x0a>
        takes 1 -> 1;BMSG AAAB a<x0a>
        shows 1 -> BMSG AAAB b<x0a>
        writes BMSG AAAB a;BMSG AAAB b -> BMSG AAAB a<x0a>BMSG AAAB b<x0a>
        == counts ten bytes for a quit ==
        // A row has how many lines and bytes may wait, and how many of three quits do.
        room 2 10 -> 0
        quits 1 -> 1 | 1 | 1 -> 1 lagging
        room 2 9 -> 0
        quits 1 | 1 | 1 -> 0 lagging
        room 2 19 -> 0
        quits 1 -> 1 | 1 | 1 -> 1 lagging
        room 2 20 -> 0
        quits 1 -> 1 | 1 -> 2 | 1 -> 2 lagging
        room 1 20 -> 0
        quits 1 -> 1 | 1 | 1 -> 1 lagging
        room 3 30 -> 0
        quits 1 -> 1 | 1 -> 2 | 1 -> 3
        == has room again after a take ==
        room 2 24 -> 0
        shares BMSG AAAB a;BMSG AAAB b -> 2
        takes 2 -> 2;BMSG AAAB a<x0a>BMSG AAAB b<x0a>
        shares BMSG AAAB a;BMSG AAAB b -> 2
        takes 2 -> 2;BMSG AAAB a<x0a>BMSG AAAB b<x0a>BMSG AAAB a<x0a>BMSG AAAB b<x0a>
        shares BMSG AAAB a;BMSG AAAB b -> 2
        takes 2 -> 2;BMSG AAAB a<x0a>BMSG AAAB b<x0a>BMSG AAAB a<x0a>BMSG AAAB b<x0a>BMSG AAAB a<x0a>BMSG AAAB b<x0a>
        shares BMSG AAAB a;BMSG AAAB b -> 2
        takes 2 -> 2;BMSG AAAB a<x0a>BMSG AAAB b<x0a>BMSG AAAB a<x0a>BMSG AAAB b<x0a>BMSG AAAB a<x0a>BMSG AAAB b<x0a>BMSG AAAB a<x0a>BMSG AAAB b<x0a>
        shares BMSG AAAB a;BMSG AAAB b -> 2
        takes 2 -> 2;BMSG AAAB a<x0a>BMSG AAAB b<x0a>BMSG AAAB a<x0a>BMSG AAAB b<x0a>BMSG AAAB a<x0a>BMSG AAAB b<x0a>BMSG AAAB a<x0a>BMSG AAAB b<x0a>BMSG AAAB a<x0a>BMSG AAAB b<x0a>
    " }
}

#[test]
fn holds_a_mebibyte_or_1024_lines(rt: HostRuntime) {
    // The bytes of each line with its line feed, and how many are given; how many wait. Then how many come with each take, and their bytes.
    rows! { play_queue(rt) "
        fill 65537 16 -> 15 lagging
        drains -> 15 last 0 last 0 last 0 last; 983055
        fill 65536 16 -> 16
        drains -> 16 0 0 0; 1048576
        fill 1024 1024 -> 1024
        drains -> 256 256 256 256; 1048576
        fill 1024 1025 -> 1024 lagging
        drains -> 256 256 256 256 last; 1048576
        fill 12 1024 -> 1024
        drains -> 256 256 256 256; 12288
        fill 12 1025 -> 1024 lagging
        drains -> 256 256 256 256 last; 12288
    " }
}

#[test]
fn an_empty_outbox_is_small(rt: HostRuntime) {
    let (own, place) = (size_of::<Outbox>(), PLACE_BYTES);
    assert!(rt; own == 56 && place == 16);
    assert!(rt; own + 1024 * place <= 44 * 1024);
}
