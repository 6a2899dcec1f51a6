ghost use Rattle.adc_sessions.specs.Events.{StreamCall, StreamStep};

use tokio::io::{AsyncRead, AsyncWrite};

/// A stream that is read and written, of which is told what passes by each call. Each tokio reader that is a writer, too, is one.
pub trait Stream: AsyncRead + AsyncWrite {
    /// A call that began in the first state left the second.
    ghost reports: { Self → StreamCall → Self → Type 0 };
}

impl<S: AsyncRead + AsyncWrite> Stream for S {
    ghost reports = { StreamStep S.reads S.is_at_end S.AsyncRead.fails S.writes S.is_full S.AsyncWrite.fails };
}
