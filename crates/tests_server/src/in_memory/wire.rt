// Sockets over memory.
ghost use Rattle.std.specs.Prelude.{◌≡◌, ◌<◌, ◌≤◌, ◌++◌, length};

use crate::in_memory::desk::Desk;
use crate::machine::*;
use hub_listener::Socket;

/// The number of times that a client looks whether its turn has come, a millisecond or more apart.
const LOOKS: u32 = 20_000;

/// The number of bytes for which there is room in what a client is sent.
const ROOM: usize = 4_096;

/// The port to which all come, and from which.
pub(crate) const PORT: u16 = 4_111;

/// The last number of the address from which the first client comes.
const FIRST_HOME: u8 = 2;

/// The time at which a client says its next line, or ends.
#[derive(Clone, Copy)]
pub(crate) enum Cue {
    /// At once.
    Now,
    /// Once it was sent a line that begins so, which comes of what the client at this place says.
    Sent(&'static [u8], usize),
    /// Once the client at this place has entered.
    Entered(usize),
    /// Once the client at this place is gone.
    Gone(usize),
}

/// A client.
#[derive(Clone, Copy)]
pub(crate) struct Client<'a> {
    /// The lines that it says, with their line feeds.
    pub(crate) says: &'a [u8],
    /// The cue of each line, and at last that of its end. Those that are not given are [`Cue::Now`].
    pub(crate) cues: &'static [Cue],
    /// It has entered once it was sent a line that begins so.
    pub(crate) enters: &'static [u8],
}

/// The turn of a client.
#[derive(Clone, Copy)]
enum Turn {
    Now,
    Later,
    Never,
}

/// A socket of a client, which tells each byte that is read from it or written to it.
pub(crate) struct Wire<'a, R: Clock> {
    rt: &'a R,
    desk: &'a Desk,
    client: &'a Client<'a>,
    place: usize,
    // All that the client has still to say.
    rest: &'a [u8],
    // The number of the next line, and whether it is said in part.
    line: usize,
    is_within: bool,
    looks: u32,
    has_entered: bool,
    sent: Vec<u8>,
}

impl<'a, R: Clock> Wire<'a, R> {
    /// Makes the socket of a client at a place, with room for what it is sent.
    pub(crate) fn new(
        rt: &'a R,
        alloc: Global,
        desk: &'a Desk,
        client: &'a Client<'a>,
        place: usize,
    ) -> Result<Wire<'a, R>, AllocError> {
        Ok(Wire {
            rt,
            desk,
            client,
            place,
            rest: client.says,
            line: 0,
            is_within: false,
            looks: LOOKS,
            has_entered: false,
            sent: Vec::with_capacity(alloc, ROOM)?,
        })
    }

    /// Answers whether the client says its next line now. It never does where who is to be waited for is gone.
    fn turn(&self) -> Turn {
        let cue = self.client.cues.get(self.line).copied();
        let (is_now, other) = match cue.unwrap_or(Cue::Now) {
            Cue::Now => return Turn::Now,
            Cue::Sent(begin, other) => (has_line(&self.sent, begin), other),
            Cue::Entered(other) => (self.desk.has_entered(other), other),
            Cue::Gone(other) if self.desk.is_gone(other) => return Turn::Now,
            Cue::Gone(_) => return Turn::Later,
        };
        if is_now {
            return Turn::Now;
        }
        if self.desk.is_gone(other) {
            return Turn::Never;
        }
        Turn::Later
    }
}

/// Gives the address from which the client at this place comes: 127.0.0.2, 127.0.0.3 and so on.
pub(crate) fn home_of(place: usize) -> SocketAddrV4 {
    let number = u8::try_from(place).unwrap_or(u8::MAX);
    let home = Ipv4Addr::new(127, 0, 0, FIRST_HOME.saturating_add(number));
    SocketAddrV4::new(home, PORT)
}

/// Gives the length of the first line, with its line feed where it has one.
fn length_of_line(text: &[u8]) -> usize
    ensures within { result ≤ length text.now }
    ensures some { 0 < length text.now → 0 < result }
{
    for place in 0..text.len() {
        if text[place] == b'\n' {
            return place + 1;
        }
    }
    text.len()
}

/// Answers whether a line begins so.
fn has_line(text: &[u8], begin: &[u8]) -> bool {
    let mut rest = text;
    for _byte in 0..text.len() {
        if rest.starts_with(begin) {
            return true;
        }
        rest = rest.get(length_of_line(rest)..).unwrap_or(b"");
    }
    false
}

impl<R: Clock> Drop for Wire<'_, R> {
    fn drop(self) {
        let Wire {
            rt: _,
            desk,
            client: _,
            place,
            rest: _,
            line: _,
            is_within: _,
            looks: _,
            has_entered: _,
            sent,
        } = self;
        desk.leave(place, sent);
    }
}

impl<R: Clock> AsyncRead for Wire<'_, R> {
    ghost use Rattle.std.specs.Prelude.{◌≡◌, ◌<◌, ◌≤◌, ◌++◌, length};
    ghost use Rattle.std.proofs.Common.{◌∙◌, refl, sym, ap, append_assoc};

    ghost reads = { λ a xs b. (a.rest.now ≡ xs ++ b.rest.now) × (b.sent.items ≡ a.sent.items) };

    ghost is_at_end = { λ w. length w.rest.now ≡ 0 };

    ghost reads_nothing = { λ w. (refl, refl) };

    ghost reads_in_order = { λ a xs b ys c p q. (p.0 ∙ ap (λ r. xs ++ r) q.0 ∙ sym (append_assoc xs ys c.rest.now), q.1 ∙ p.1) };

    fn poll_read(&mut self, cx: &mut Context<'_>, buf: &mut [u8]) -> Poll<io::Result<usize>> {
        if !self.is_within {
            match self.turn() {
                Turn::Now => {}
                Turn::Later if self.looks != 0 => {
                    self.looks -= 1;
                    self.rt.sleep(Duration::from_millis(1));
                    return cx.yield_now();
                }
                Turn::Later | Turn::Never => {
                    return Poll::Ready(Err(io::ErrorKind::TimedOut.into()));
                }
            }
        }
        let count = length_of_line(self.rest).min(buf.len());
        let (front, rest) = self.rest.split_at(count);
        buf[..count].copy_from_slice(front);
        self.rest = rest;
        if let Some(last) = front.last() {
            self.is_within = *last != b'\n';
        }
        if !self.is_within {
            self.line = self.line.wrapping_add(1);
        }
        Poll::Ready(Ok(count))
    }
}

impl<R: Clock> AsyncWrite for Wire<'_, R> {
    ghost use Rattle.std.specs.Prelude.{◌≡◌, ◌++◌};
    ghost use Rattle.std.proofs.Common.{◌∙◌, refl, sym, ap, append_assoc, append-nil};

    ghost writes = { λ a xs b. (b.sent.items ≡ a.sent.items ++ xs) × (b.rest.now ≡ a.rest.now) };

    ghost is_full = { λ _. ⊥ };

    ghost writes_nothing = { λ w. (sym (append-nil w.sent.items), refl) };

    ghost writes_in_order = { λ a xs b ys c p q. (q.0 ∙ ap (λ s. s ++ ys) p.0 ∙ append_assoc a.sent.items xs ys, q.1 ∙ p.1) };

    fn poll_write(&mut self, _cx: &mut Context<'_>, buf: &[u8]) -> Poll<io::Result<usize>> {
        if let Err(error) = self.sent.extend_from_slice(buf) {
            return Poll::Ready(Err(io::Error::from(error)));
        }
        if !self.has_entered && has_line(&self.sent, self.client.enters) {
            self.has_entered = true;
            self.desk.enter(self.place);
        }
        Poll::Ready(Ok(buf.len()))
    }

    fn poll_flush(&mut self, _cx: &mut Context<'_>) -> Poll<io::Result<()>> {
        Poll::Ready(Ok(()))
    }

    fn poll_shutdown(&mut self, _cx: &mut Context<'_>) -> Poll<io::Result<()>> {
        Poll::Ready(Ok(()))
    }
}

impl<R: Clock> Socket for Wire<'_, R> {
    ghost use Rattle.std.specs.Prelude.{◌≡◌, ◌++◌, [], take, IfOk, IfErr};

    type Tried = io::Result<usize>;

    ghost outcome_of = { λ tried. tried };

    ghost tries = { λ a bytes r b. IfOk r (λ count. (b.sent.items ≡ a.sent.items ++ take count bytes) × (b.rest.now ≡ a.rest.now))
        × IfErr r (λ _. (b.sent.items ≡ a.sent.items ++ []) × (b.rest.now ≡ a.rest.now)) };

    ghost tries_so = { λ a bytes r b tried. tried };

    fn set_nodelay(&self, _is_at_once: bool) -> io::Result<()> {
        Ok(())
    }

    fn try_write(&mut self, bytes: &[u8]) -> io::Result<usize> {
        self.sent.extend_from_slice(bytes)?;
        Ok(bytes.len())
    }

    fn outcome(tried: io::Result<usize>) -> io::Result<usize> {
        tried
    }
}
