use crate::user::User;
use std::alloc::{AllocError, Global};
use std::io;
use std::sync::Wait;
use std::time::{Clock, Instant};

/// The number of its own lines after which a thread takes for all its users.
const BREATH: u32 = 8;

/// The users of one thread. The first of them chats, and takes after each line; the others only listen, and the thread
/// takes for them.
#[derive(Drop)]
pub struct Crowd<'a> {
    alloc: Global,
    users: Vec<User<'a>>,
    line: Vec<u8>,
    unread: Vec<u8>,
    delivered: u64,
    in_calls: u128,
    has_failed: bool,
}

impl<'a> Crowd<'a> {
    /// Makes the crowd of a thread's users. Nothing was said yet.
    pub fn new(alloc: Global, users: Vec<User<'a>>) -> Result<Crowd<'a>, AllocError> {
        let first = users.first().ok_or(AllocError)?;
        let line = first.line(alloc)?;
        Ok(Crowd {
            alloc,
            users,
            line,
            unread: Vec::with_capacity(alloc, 65_536)?,
            delivered: 0,
            in_calls: 0,
            has_failed: false,
        })
    }

    /// Takes for all what waits for them; it does not count.
    pub fn settle<R: Wait>(&mut self, rt: &R) -> Result<(), AllocError> {
        self.take_all(rt)?;
        self.delivered = 0;
        Ok(())
    }

    /// Gives how many lines its users took.
    pub fn lines_delivered(&self) -> u64 {
        self.delivered
    }

    /// Gives how many nanoseconds the thread spent in calls.
    pub fn in_calls(&self) -> u128 {
        self.in_calls
    }

    /// Answers whether a call was refused.
    pub fn has_failed(&self) -> bool {
        self.has_failed
    }

    /// Says so many lines by the first user, and all hear what is said.
    pub fn chat<R: Wait + Clock>(mut self, rt: &R, lines: u32) -> Crowd<'a> {
        if self.try_chat(rt, lines).is_err() {
            self.has_failed = true;
        }
        self
    }

    fn try_chat<R: Wait + Clock>(&mut self, rt: &R, lines: u32) -> io::Result<()> {
        for number in 0..lines {
            let start = Instant::now(rt)?;
            self.say(rt)?;
            if number % BREATH == 0 {
                self.take_all(rt)?;
            }
            let spent = start.elapsed(rt)?.as_nanos();
            self.in_calls = self.in_calls.wrapping_add(spent);
        }
        Ok(())
    }

    fn say<R: Wait>(&mut self, rt: &R) -> Result<(), AllocError> {
        let Some(first) = self.users.first_mut() else {
            return Ok(());
        };
        first.say(rt, self.alloc, &self.line)?;
        let heard = first.take(rt, &mut self.unread)?;
        self.delivered = self.delivered.wrapping_add(heard);
        Ok(())
    }

    /// Takes for all what waits for them, up to 1,024 lines each.
    pub fn take_all<R: Wait>(&mut self, rt: &R) -> Result<(), AllocError> {
        for user in self.users.iter_mut() {
            let heard = take_waiting(rt, user, &mut self.unread)?;
            self.delivered = self.delivered.wrapping_add(heard);
        }
        Ok(())
    }
}

/// Takes all that waits for a user, up to 1,024 lines, and tells how many they were.
fn take_waiting<R: Wait>(
    rt: &R,
    user: &mut User<'_>,
    unread: &mut Vec<u8>,
) -> Result<u64, AllocError> {
    let mut heard: u64 = 0;
    for _ in 0..4 {
        let lines = user.take(rt, unread)?;
        heard = heard.wrapping_add(lines);
        if lines < 256 {
            break;
        }
    }
    Ok(heard)
}
