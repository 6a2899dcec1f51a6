ghost use Rattle.std.specs.Prelude.{◌≡◌, ◌<◌, IfOk};
ghost use Rattle.futures.specs.Runs.{AllItems};

use crate::ended::TasksEnded;
use futures::{Future, Stream};
use std::alloc::AllocGlobal;
use std::io;
use std::marker::Model;
use std::net::Net;
use std::random::RandomSource;
use std::sync::Wait;
use std::thread::Threads;
use std::time::Clock;
use tokio::runtime::{Handle, LocalRuntime, Runtime};
use tokio::{reactor, time};

/// The threads of a server, and what tells them that a socket is ready or that time has passed.
pub struct Workers {
    threading: Threading,
}

/// The runtime of one thread or of many. One thread needs no locks to wake its own tasks.
enum Threading {
    One(LocalRuntime),
    Many(Runtime),
}

impl Drop for Workers {
    // By hand, so that who lets go of them has one call to prove, and not the drop of all that a runtime is made of.
    fn drop(self) {
        let Workers { threading } = self;
        match threading {
            Threading::One(runtime) => drop(runtime),
            Threading::Many(runtime) => drop(runtime),
        }
    }
}

impl Model for Workers {
    ghost use Rattle.std.specs.Prelude.{ℕ};
    ghost use Rattle.hub_workers.specs.Counts.{count_of};

    ghost Value = { ℕ };

    ghost view = { λ workers. count_of workers.threading };
}

impl Workers {
    /// Makes so many threads, which begin once there is something to run. It fails where memory runs out, or the system lacks
    /// what is needed to wait for sockets.
    pub fn new<R: Clock + Net + RandomSource + AllocGlobal>(
        rt: &R,
        threads: usize,
    ) -> io::Result<Workers>
        requires some { 0 < threads }
        ensures threads { IfOk result (λ workers. workers ≡ threads) }
    {
        if threads == 1 {
            return Ok(Workers {
                threading: Threading::One(LocalRuntime::new(rt)?),
            });
        }
        Ok(Workers {
            threading: Threading::Many(Runtime::with_worker_threads(rt, threads)?),
        })
    }

    fn handle(&self) -> &Handle {
        match &self.threading {
            Threading::One(runtime) => runtime.handle(),
            Threading::Many(runtime) => runtime.handle(),
        }
    }

    /// Gives what sockets are made with.
    pub fn reactor(&self) -> &reactor::Handle {
        self.handle().reactor()
    }

    /// Gives what timers are made with.
    pub fn time(&self) -> &time::Handle {
        self.handle().time()
    }

    /// Runs each future that `futures` gives as a task, until that gives no more and each task is done, and gives the word of that. It
    /// fails where memory or threads are wanting; then the tasks so far still run to their end.
    pub fn run_all<R, S, F>(&mut self, rt: &R, futures: S) -> io::Result<TasksEnded>
    where
        R: Wait + Threads + Clock + RandomSource + AllocGlobal + Sync,
        S: Stream<Item = F>,
        F: Future<Output = ()> + Send,
        requires stream { S.can_poll futures }
        requires items { AllItems (S.yields futures) F.can_poll }
    {
        match &mut self.threading {
            Threading::One(runtime) => TasksEnded::by(runtime.run_all(rt, futures)),
            Threading::Many(runtime) => TasksEnded::by(runtime.run_all(rt, futures)),
        }
    }
}
