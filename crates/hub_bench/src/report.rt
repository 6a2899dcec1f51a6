// Prints what was measured, a line for each figure.
use crate::calls::{Measured, chat_nanos, direct_nanos, login_nanos, own_nanos, take_nanos};
use crate::hub_of_one::SoloHub;
use crate::measure::deliveries;
use std::alloc::Global;
use std::io;
use std::sync::Wait;
use std::thread::Threads;
use std::time::Clock;

/// Reports what calls take where so many users are present.
pub fn report_calls<R: Clock + Print>(rt: &R, alloc: Global, users: u32) -> io::Result<()> {
    let mut hub = SoloHub::open(alloc)?;
    let done = measure_hub(rt, &mut hub, users);
    drop(hub);
    done
}

fn measure_hub<R: Clock + Print>(rt: &R, hub: &mut SoloHub, users: u32) -> io::Result<()> {
    hub.fill(users)?;
    measure_calls(rt, hub, users)
}

fn measure_calls<R: Clock + Print, M: Measured>(rt: &R, hub: &mut M, users: u32) -> io::Result<()> {
    say(
        rt,
        users,
        "a line that nobody else hears",
        own_nanos(rt, hub)?,
    )?;
    say(
        rt,
        users,
        "a line that one other user hears",
        direct_nanos(rt, hub)?,
    )?;
    say(rt, users, "a line that all hear", chat_nanos(rt, hub)?)?;
    say(rt, users, "256 lines, taken", take_nanos(rt, hub)?)?;
    say(rt, users, "a login", login_nanos(rt, hub)?)
}

fn say<R: Print>(rt: &R, users: u32, what: &str, nanos: u128) -> io::Result<()> {
    println!(rt; "{users} users, {what}: {nanos} ns")
}

/// Reports how many lines a hub of so many users delivers that threads share.
pub fn report_threads<R: Threads + Wait + Clock + Print + Sync>(
    rt: &R,
    alloc: Global,
    users: u32,
) -> io::Result<()> {
    let alone = deliveries(rt, alloc, users, 1)?;
    println!(rt;
        "{users} users, 1 thread: {} lines delivered a second",
        alone.a_second()
    )?;
    for threads in [2, 4] {
        let figures = deliveries(rt, alloc, users, threads)?;
        let (delivered, waiting) = (figures.a_second(), figures.waiting(&alone));
        println!(rt;
            "{users} users, {threads} threads: {delivered} lines delivered a second, {waiting} % of the time in calls spent waiting"
        )?;
    }
    Ok(())
}
