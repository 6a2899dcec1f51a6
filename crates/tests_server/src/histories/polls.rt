// Sessions that are polled until they are over, on one thread or on threads of their own.
use crate::histories::record::Desk;
use crate::machine::*;
use adc_sessions::{Bell, End, Port, Session};

/// The number of times that a session is polled at most.
const POLLS: u32 = 1_000;

/// Polls a session, unless it is over.
pub(crate) fn goes_on<S: AsyncRead + AsyncWrite, P: Port, B: Bell, R: Wait>(
    task: &MockTask,
    desk: &Desk<R>,
    talk: &mut Option<Session<S, P, B>>,
) {
    let Some(session) = talk else {
        return;
    };
    if let Poll::Ready((end, _stream, _left)) = task.poll(session) {
        if end == End::Memory {
            desk.record().is_lost = true;
        }
        *talk = None;
    }
}

/// Polls one session, and then all others.
pub(crate) fn go_round<S: AsyncRead + AsyncWrite, P: Port, B: Bell, R: Wait>(
    task: &MockTask,
    desk: &Desk<R>,
    talks: &mut Vec<Option<Session<S, P, B>>>,
    first: usize,
) {
    if let Some(talk) = talks.get_mut(first) {
        goes_on(task, desk, talk);
    }
    for (place, talk) in talks.iter_mut().enumerate() {
        if place != first {
            goes_on(task, desk, talk);
        }
    }
}

/// Polls a session until it is over, if there is memory for a task.
pub(crate) fn goes_to_end<S: AsyncRead + AsyncWrite, P: Port, B: Bell, R>(
    rt: &R,
    desk: &Desk<R>,
    talk: &mut Option<Session<S, P, B>>,
)
where
    R: Wait + RandomSource + AllocGlobal,
{
    let Ok(task) = MockTask::new(rt) else {
        return;
    };
    for _poll in 0..POLLS {
        if talk.is_none() {
            return;
        }
        goes_on(&task, desk, talk);
    }
}

/// Answers whether all sessions are over. Those that are not had no memory to go on.
pub(crate) fn are_over<S, P, B>(talks: &[Option<Session<S, P, B>>]) -> bool {
    talks.iter().all(|talk| talk.is_none())
}
