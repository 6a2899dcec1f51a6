//! The times that the calls of a hub take, for one thread and for threads that share it. It prints figures where it is given an
//! argument.
#![tactic(auto)]

mod calls;
mod crowd;
mod door;
mod hub_of_one;
mod measure;
mod report;
mod shared_hub;
mod user;

use std::{env, io};

fn main(rt: HostRuntime) -> io::Result<()> {
    if env::args(&rt)?.len() < 2 {
        return Ok(());
    }
    for users in [10, 100, 500, 900] {
        report::report_calls(&rt, rt.alloc(), users)?;
    }
    report::report_threads(&rt, rt.alloc(), 100)?;
    report::report_threads(&rt, rt.alloc(), 500)
}
