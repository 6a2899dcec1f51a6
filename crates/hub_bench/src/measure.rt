use crate::crowd::Crowd;
use crate::door::Door;
use crate::shared_hub::open_hub;
use std::alloc::{AllocError, Global};
use std::io;
use std::sync::Wait;
use std::thread::{self, Threads};
use std::time::{Clock, Instant};

/// The number of lines that are said in a stretch, by all threads together. Threads begin a stretch together, and first
/// take all that waits. So never more than two stretches' lines wait for a user, however the threads are run, and there is
/// room for 1,024.
const LINES: u32 = 400;

const STRETCHES: u32 = 250;

/// The figures that were measured.
#[derive(Clone, Copy)]
pub struct Figures {
    delivered: u64,
    nanos: u128,
    in_calls: u128,
}

impl Figures {
    /// Gives how many lines were delivered a second: a line that all hear counts once for each user.
    pub fn a_second(&self) -> u128 {
        let seconds = u128::from(self.delivered).wrapping_mul(1_000_000_000);
        seconds.checked_div(self.nanos).unwrap_or(0)
    }

    /// Gives how much of the time in calls was spent waiting, in percent. As many lines are said and delivered as by one
    /// thread alone. All that this took longer, added up over all threads, counts as waiting: for the lock above all, but
    /// also for a processor, and for memory that another one wrote.
    pub fn waiting(&self, alone: &Figures) -> u128 {
        let longer = self.in_calls.saturating_sub(alone.in_calls);
        longer
            .wrapping_mul(100)
            .checked_div(self.in_calls)
            .unwrap_or(0)
    }
}

/// Lets so many users, shared out among so many threads, say and hear 100,000 lines. The first user of each thread chats.
pub fn deliveries<R: Threads + Wait + Clock + Sync>(
    rt: &R,
    alloc: Global,
    users: u32,
    threads: u32,
) -> io::Result<Figures> {
    let (shared, host) = open_hub(alloc)?;
    let mut door = Door::new(&shared, host);
    let figures = measured(rt, alloc, &mut door, users, threads);
    // By calls, in one place: a body that lets go of much where each of its calls may fail is dear to prove.
    drop(door);
    drop(shared);
    figures
}

fn measured<R: Threads + Wait + Clock + Sync>(
    rt: &R,
    alloc: Global,
    door: &mut Door<'_>,
    users: u32,
    threads: u32,
) -> io::Result<Figures> {
    let crowds = settled(rt, alloc, door, users, threads)?;
    let start = Instant::now(rt)?;
    let crowds = chat(rt, crowds, LINES.checked_div(threads).ok_or(AllocError)?)?;
    added_up(&crowds, users, start.elapsed(rt)?.as_nanos())
}

/// Lets the users in, shared out among so many threads, for whom nothing waits.
fn settled<'a, R: Wait>(
    rt: &R,
    alloc: Global,
    door: &mut Door<'a>,
    users: u32,
    threads: u32,
) -> io::Result<Vec<Crowd<'a>>> {
    let each = users.checked_div(threads).ok_or(AllocError)?;
    let mut crowds = Vec::with_capacity(alloc, threads as usize)?;
    for _ in 0..threads {
        crowds.push(Crowd::new(alloc, door.let_in(rt, alloc, each)?)?)?;
    }
    for crowd in crowds.iter_mut() {
        crowd.settle(rt)?;
    }
    Ok(crowds)
}

/// Lets all chat.
fn chat<'a, R: Threads + Wait + Clock + Sync>(
    rt: &R,
    crowds: Vec<Crowd<'a>>,
    lines: u32,
) -> io::Result<Vec<Crowd<'a>>> {
    let mut crowds = crowds;
    for _ in 0..STRETCHES {
        crowds = thread::map_vec(rt, crowds, &|crowd| crowd.chat(rt, lines))?;
    }
    for crowd in crowds.iter_mut() {
        crowd.take_all(rt)?;
    }
    Ok(crowds)
}

/// Adds up. It fails where somebody did not hear all, since the others then had less to do.
fn added_up(crowds: &[Crowd<'_>], users: u32, nanos: u128) -> io::Result<Figures> {
    let (mut delivered, mut in_calls) = (0u64, 0u128);
    for crowd in crowds {
        if crowd.has_failed() {
            return Err(AllocError.into());
        }
        delivered = delivered.wrapping_add(crowd.lines_delivered());
        in_calls = in_calls.wrapping_add(crowd.in_calls());
    }
    if delivered != u64::from(users).wrapping_mul(u64::from(LINES) * u64::from(STRETCHES)) {
        return Err(io::ErrorKind::InvalidData.into());
    }
    Ok(Figures {
        delivered,
        nanos,
        in_calls,
    })
}
