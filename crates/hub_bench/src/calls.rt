// The times that calls take. Each user speaks in turn, so that no place is better than another.
use std::alloc::AllocError;
use std::io;
use std::time::{Clock, Instant};

const ROUNDS: u32 = 900;

const CALLS: u128 = 900;

const LOGINS: u32 = 100;

/// A hub whose calls are measured. It promises nothing, so that a loop around its calls is not proved with all that a hub promises.
pub trait Measured {
    /// The users who are present.
    type User: Copy;

    /// A line that was made ready.
    type Line: Drop;

    /// Makes a line ready.
    fn prepare_line(&self, line: &[u8]) -> io::Result<Self::Line>;

    /// Makes a line ready by which the user of one place says something to that of another.
    fn direct_line(&self, from: usize, to: usize) -> io::Result<Self::Line>;

    /// Counts the users who are present.
    fn count(&self) -> usize;

    /// Gives the user of a place.
    fn user(&self, place: usize) -> io::Result<Self::User>;

    /// Says this for a user.
    fn say(&mut self, user: Self::User, line: &Self::Line) -> io::Result<()>;

    /// Takes up to 256 lines for a user, and tells how many they were.
    fn take(&mut self, user: Self::User) -> io::Result<u64>;

    /// Takes for all users what waits for them.
    fn clear(&mut self) -> io::Result<()>;

    /// Lets the last user leave, and another join, who is about to say this login.
    fn renew_last(&mut self) -> io::Result<(Self::User, Self::Line)>;

    /// Keeps this user as the last one.
    fn keep(&mut self, user: Self::User) -> io::Result<()>;
}

/// Gives how many nanoseconds a line takes that nobody else hears.
pub fn own_nanos<R: Clock, M: Measured>(rt: &R, hub: &mut M) -> io::Result<u128> {
    let line = hub.prepare_line(b"HMSG hello")?;
    let start = Instant::now(rt)?;
    for round in 0..ROUNDS {
        let user = speaker(hub, round)?;
        hub.say(user, &line)?;
    }
    Ok(start.elapsed(rt)?.as_nanos() / CALLS)
}

/// Gives how many nanoseconds a line takes that one other user hears: the last one, of the first.
pub fn direct_nanos<R: Clock, M: Measured>(rt: &R, hub: &mut M) -> io::Result<u128> {
    let last = hub.count().checked_sub(1).ok_or(AllocError)?;
    let line = hub.direct_line(0, last)?;
    let user = hub.user(0)?;
    let start = Instant::now(rt)?;
    for _ in 0..ROUNDS {
        hub.say(user, &line)?;
    }
    let spent = start.elapsed(rt)?.as_nanos();
    hub.clear()?;
    Ok(spent / CALLS)
}

/// Gives how many nanoseconds a line takes that all hear.
pub fn chat_nanos<R: Clock, M: Measured>(rt: &R, hub: &mut M) -> io::Result<u128> {
    let line = hub.prepare_line(
        b"BMSG AAAB what\\sa\\sfine\\sday\\sto\\sshare\\sa\\sfile\\sor\\stwo",
    )?;
    let user = hub.user(0)?;
    let mut spent: u128 = 0;
    for _ in 0..ROUNDS {
        let start = Instant::now(rt)?;
        hub.say(user, &line)?;
        spent = spent.wrapping_add(start.elapsed(rt)?.as_nanos());
        hub.clear()?;
    }
    Ok(spent / CALLS)
}

/// Gives how many nanoseconds it takes to take 256 lines.
pub fn take_nanos<R: Clock, M: Measured>(rt: &R, hub: &mut M) -> io::Result<u128> {
    let line = hub.prepare_line(
        b"BMSG AAAB what\\sa\\sfine\\sday\\sto\\sshare\\sa\\sfile\\sor\\stwo",
    )?;
    let user = hub.user(0)?;
    for _ in 0..256 {
        hub.say(user, &line)?;
    }
    let mut spent: u128 = 0;
    for place in 0..hub.count() {
        let user = hub.user(place)?;
        let start = Instant::now(rt)?;
        hub.take(user)?;
        spent = spent.wrapping_add(start.elapsed(rt)?.as_nanos());
    }
    let users = hub.count() as u128;
    Ok(spent.checked_div(users).ok_or(AllocError)?)
}

/// Gives how many nanoseconds the last user's login takes, which the others hear.
pub fn login_nanos<R: Clock, M: Measured>(rt: &R, hub: &mut M) -> io::Result<u128> {
    let mut spent: u128 = 0;
    for _ in 0..LOGINS {
        let (user, login) = hub.renew_last()?;
        let start = Instant::now(rt)?;
        hub.say(user, &login)?;
        spent = spent.wrapping_add(start.elapsed(rt)?.as_nanos());
        hub.keep(user)?;
        hub.clear()?;
    }
    Ok(spent / u128::from(LOGINS))
}

/// Gives the user who speaks in a round.
fn speaker<M: Measured>(hub: &M, round: u32) -> io::Result<M::User> {
    let users = hub.count();
    hub.user((round as usize).checked_rem(users).ok_or(AllocError)?)
}
