// Each test passes whichever growth of memory is refused: a session that met Memory has written a prefix of
// what it should, and the whole conversation, held once more, has to go well.
mod accepting;
mod bells;
mod conversations;
mod faults;
mod hub_port;
mod lines;
mod resting;
mod running;
mod wire;

pub(crate) use self::bells::{Rung, Silent};
pub(crate) use self::hub_port::meet;
pub(crate) use self::running::{Bench, hold, make_session};
pub(crate) use self::wire::{Trouble, Wire};
pub(crate) use crate::checks::*;
pub(crate) use adc_sessions::{Bell, End, Port, Session};
pub(crate) use futures::task::{Context, Poll};
pub(crate) use futures::test::MockTask;
pub(crate) use hub_core::{LineRefused, TakeRefused, Taken, Verdict};
pub(crate) use std::alloc::{AllocGlobal, Global};
pub(crate) use std::process::Abort;
pub(crate) use std::random::RandomSource;
pub(crate) use tests_support::{Transcript, again};
pub(crate) use tokio::io::{AsyncRead, AsyncWrite};
