// A client on a loopback socket. What goes wrong is an answer of these calls and never a panic in a thread: so memory may be
// refused to a run, which is then made once more. A client asks for no memory.
use std::io::{Read, Write};
use std::net::{Net, OpenStream, Shutdown, SocketAddr, TcpStream};
use std::time::Duration;
use tests_support::{Deed, GREETED, GREETS};

/// The number of seconds that a read waits at most.
const PATIENCE: u64 = 30;

/// The number of times that a client reads at most.
const READS: u32 = 30_000;

/// The number of letters of a piece of a long line, of which it has `PIECES`.
const PIECE: usize = 4_096;

const PIECES: usize = 14;

/// The number of letters of a long line: its pieces, and what is whispered.
const LONG: usize = PIECES * PIECE + WHISPER;

/// The number of long lines that are said to one who does not read: more than the system keeps for it.
const MANY: usize = 300;

/// The number of letters of a whispered line. `WHISPERS` of them are whispered: more than a socket takes that nobody reads.
const WHISPER: usize = 2_000;

const WHISPERS: usize = 200;

/// A client.
#[derive(Drop)]
pub struct Client<S> {
    stream: S,
}

/// Connects a client.
pub fn connect<R: Net>(rt: &R, address: SocketAddr) -> Option<Client<R::Stream>> {
    let stream = TcpStream::connect(rt, address).ok()?;
    stream
        .set_read_timeout(Some(Duration::from_secs(PATIENCE)))
        .ok()?;
    Some(Client { stream })
}

impl<S: Read + Write + OpenStream + Drop> Client<S> {
    /// Plays a step of one who is connected, with this line, and gives nothing where it does not come to pass.
    pub fn does(&mut self, deed: Deed, line: &[u8]) -> Option<()> {
        match deed {
            Deed::Connects => Some(()),
            Deed::IsGreeted => self.is_greeted(line),
            Deed::Says => self.says(line),
            Deed::SaysSlowly => self.says_slowly(line),
            Deed::Hears => self.hears(line),
            Deed::ChatsLong => self.chats_long(line),
            Deed::Whispers => self.whispers(line),
            Deed::HearsWhispers => self.hears_whispers(line),
            Deed::Floods => self.floods(),
            Deed::HearsAPart => self.hears_a_part(),
            Deed::HearsTheEnd => self.hears_the_end(),
            Deed::WaitsForTheClose => self.waits_for_close(),
            Deed::Leaves => self.leaves(),
            Deed::BreaksOff => self.breaks_off(),
            _ => None,
        }
    }

    fn is_greeted(&mut self, sid: &[u8]) -> Option<()> {
        let [support, identifier, hub] = GREETED;
        self.says(GREETS.as_bytes())?;
        self.hears(support.as_bytes())?;
        self.reads(identifier.as_bytes())?;
        self.hears(sid)?;
        self.hears(hub.as_bytes())
    }

    fn says(&mut self, line: &[u8]) -> Option<()> {
        self.stream.write_all(line).ok()?;
        self.stream.write_all(b"\n").ok()
    }

    fn says_slowly(&mut self, line: &[u8]) -> Option<()> {
        self.stream.set_nodelay(true).ok()?;
        for place in 0..line.len() {
            self.stream.write_all(line.get(place..=place)?).ok()?;
        }
        self.stream.write_all(b"\n").ok()
    }

    fn hears(&mut self, line: &[u8]) -> Option<()> {
        self.reads(line)?;
        self.reads(b"\n")
    }

    /// Reads these bytes, at most `PIECE`.
    fn reads(&mut self, wanted: &[u8]) -> Option<()> {
        let mut bytes = [0; PIECE];
        let bytes = bytes.get_mut(..wanted.len())?;
        self.stream.read_exact(bytes).ok()?;
        (*bytes == *wanted).then_some(())
    }

    fn chats_long(&mut self, header: &[u8]) -> Option<()> {
        for _line in 0..MANY {
            self.says_letters(header, PIECES)?;
            self.hears_letters(header, PIECES)?;
        }
        Some(())
    }

    /// Says a line that begins so, with so many pieces and a whisper behind it.
    fn says_letters(&mut self, header: &[u8], pieces: usize) -> Option<()> {
        self.stream.write_all(header).ok()?;
        self.stream.write_all(b" ").ok()?;
        for _piece in 0..pieces {
            self.stream.write_all(&[b'x'; PIECE]).ok()?;
        }
        self.stream.write_all(&[b'x'; WHISPER]).ok()?;
        self.stream.write_all(b"\n").ok()
    }

    /// Reads such a line.
    fn hears_letters(&mut self, header: &[u8], pieces: usize) -> Option<()> {
        self.reads(header)?;
        self.reads(b" ")?;
        for _piece in 0..pieces {
            self.reads(&[b'x'; PIECE])?;
        }
        self.reads(&[b'x'; WHISPER])?;
        self.reads(b"\n")
    }

    fn whispers(&mut self, header: &[u8]) -> Option<()> {
        for _line in 0..WHISPERS {
            self.says_letters(header, 0)?;
        }
        Some(())
    }

    fn hears_whispers(&mut self, header: &[u8]) -> Option<()> {
        for _line in 0..WHISPERS {
            self.hears_letters(header, 0)?;
        }
        Some(())
    }

    fn floods(&mut self) -> Option<()> {
        let bytes = [b'x'; 4096];
        for _piece in 0..16 {
            if self.stream.write_all(&bytes).is_err() {
                return Some(());
            }
        }
        let _ = self.stream.write_all(b"x");
        Some(())
    }

    fn hears_a_part(&mut self) -> Option<()> {
        let mut bytes = [0; PIECE];
        let mut count: usize = 0;
        for _read in 0..READS {
            match self.stream.read(&mut bytes) {
                Ok(0) if count != 0 && count <= MANY * LONG => return Some(()),
                Ok(0) | Err(_) => return None,
                Ok(more) => count = count.checked_add(more)?,
            }
        }
        None
    }

    fn hears_the_end(&mut self) -> Option<()> {
        matches!(self.stream.read(&mut [0]), Ok(0)).then_some(())
    }

    fn waits_for_close(&mut self) -> Option<()> {
        let mut bytes = [0; 256];
        for _read in 0..READS {
            if matches!(self.stream.read(&mut bytes), Ok(0) | Err(_)) {
                break;
            }
        }
        Some(())
    }

    fn leaves(&mut self) -> Option<()> {
        let _ = self.stream.shutdown(Shutdown::Write);
        self.waits_for_close()
    }

    fn breaks_off(&mut self) -> Option<()> {
        matches!(self.stream.peek(&mut [0]), Ok(1)).then_some(())
    }
}
