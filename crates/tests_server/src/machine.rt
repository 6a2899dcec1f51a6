// The machines that tests of a server need, and what most of them use.
pub(crate) use futures::task::{Context, Poll};
pub(crate) use futures::test::MockTask;
use hub_listener::Arrived;
use hub_startup::Opens;
pub(crate) use session_hash::First24;
pub(crate) use std::alloc::{AllocError, AllocGlobal, Global};
use std::env::Env;
pub(crate) use std::io;
pub(crate) use std::net::{Ipv4Addr, Net, SocketAddr, SocketAddrV4};
pub(crate) use std::process::Abort;
pub(crate) use std::random::RandomSource;
pub(crate) use std::sync::{Arc, Wait};
use std::thread::Threads;
pub(crate) use std::time::{Clock, Duration};
pub(crate) use tests_support::{Machine, again};
pub(crate) use tokio::io::{AsyncRead, AsyncWrite};

/// The answer of a listener that is polled.
pub(crate) type Polled<S, T> = Poll<io::Result<Arrived<S, T>>>;

/// The machine of a server. One whose sockets are known says so beside it, since a supertrait that names types is more than a test can be proved
/// to meet.
pub trait ServerMachine: Machine + Wait + Threads + Clock + Net + RandomSource + Sync {}

impl<R: Machine + Wait + Threads + Clock + Net + RandomSource + Sync> ServerMachine for R {}

/// The machine of the program.
pub trait ProgramMachine: ServerMachine + Opens + Env {}

impl<R: ServerMachine + Opens + Env> ProgramMachine for R {}
