// A server over loopback sockets, and the clients that it serves.
use crate::conversation::plays;
use crate::flaky::FlakyPort;
use crate::gate::GateHash;
use crate::machine::*;
use futures::spin::lock;
use hub_connections::TcpTicket;
use hub_server::{serve_at, serve_for_journal, serve_on};
use hub_settings::{Settings, read_settings};
use std::io::{self, Write};
use std::net::{TcpListener, TcpStream};
use std::sync::Mutex;
use std::sync::atomic::{AtomicBool, Ordering};
use std::thread::join;
use tests_support::Step;
use tokio::net::TcpStream as Stream;

/// The number of times that a thread looks for what another does, a millisecond or more apart.
const LOOKS: u32 = 30_000;

/// The number of times that the clients look whether the server ends with them, before they come and go.
const LAST_LOOKS: u32 = 10_000;

/// The number of times that the server looks whether its clients have a thread. Where they have none, it is in vain: they would come after it.
const FIRST_LOOKS: u32 = 500;

/// The seed of the challenges of each server.
const SEED: [u8; 32] = [1; 32];

/// The output of the server, for its clients to see.
#[derive(Drop)]
struct Heard {
    bytes: Mutex<Vec<u8>>,
    // The server has ended.
    over: AtomicBool,
    // The clients have a thread.
    begun: AtomicBool,
}

/// The server's output, which all may read.
#[derive(Drop)]
struct Told<'a, R> {
    rt: &'a R,
    heard: &'a Heard,
}

impl Heard {
    fn new(alloc: Global) -> Result<Heard, AllocError> {
        Ok(Heard {
            bytes: Mutex::new(Vec::with_capacity(alloc, 1024)?),
            over: AtomicBool::new(false),
            begun: AtomicBool::new(false),
        })
    }

    /// Tells where the server listens, once it says so; nothing where it ended before.
    fn address(&self) -> Option<SocketAddr> {
        let bytes = lock(&self.bytes)?;
        let line = bytes.strip_prefix(b"listening ".as_slice())?;
        let end = line.iter().position(|byte| *byte == b'\n')?;
        let address = SocketAddrV4::parse_ascii(line.get(..end)?).ok()?;
        Some(SocketAddr::V4(address))
    }

    /// Waits for the address.
    fn waits_for_address<R: Clock>(&self, rt: &R) -> Option<SocketAddr> {
        for _look in 0..LOOKS {
            if let Some(address) = self.address() {
                return Some(address);
            }
            if self.over.load(Ordering::SeqCst) {
                return None;
            }
            rt.sleep(Duration::from_millis(1));
        }
        None
    }

    /// Comes and goes until the server has served enough.
    fn ends_soon<R: Clock + Net>(&self, rt: &R, address: SocketAddr) {
        for _look in 0..LOOKS {
            if self.over.load(Ordering::SeqCst) {
                return;
            }
            let _ = TcpStream::connect(rt, address);
            rt.sleep(Duration::from_millis(1));
        }
    }

    /// Plays a conversation, once the server listens. Answers whether the clients do all of this, and whether the server waited for
    /// others after them.
    fn sees<R: Clock + Net>(&self, rt: &R, gate: &GateHash, talk: &[Step<'_>]) -> (bool, bool) {
        self.begun.store(true, Ordering::SeqCst);
        let Some(address) = self.waits_for_address(rt) else {
            return (false, false);
        };
        let went_well = plays(rt, address, gate, talk).is_some();
        gate.open();
        // It does not end with its clients where a connection was dropped for want of memory, which counts for nothing.
        let waited = went_well && !becomes_true(rt, &self.over, LAST_LOOKS);
        if !went_well || waited {
            self.ends_soon(rt, address);
        }
        (went_well, waited)
    }
}

/// Waits until a flag is set, for so many looks at most.
fn becomes_true<R: Clock>(rt: &R, flag: &AtomicBool, looks: u32) -> bool {
    for _look in 0..looks {
        if flag.load(Ordering::SeqCst) {
            return true;
        }
        rt.sleep(Duration::from_millis(1));
    }
    false
}

impl<R: Clock> Write for Told<'_, R> {
    fn write(&mut self, buf: &[u8]) -> io::Result<usize> {
        if !becomes_true(self.rt, &self.heard.begun, FIRST_LOOKS) {
            return Err(io::ErrorKind::OutOfMemory.into());
        }
        let Some(mut bytes) = lock(&self.heard.bytes) else {
            return Err(io::ErrorKind::OutOfMemory.into());
        };
        bytes.extend_from_slice(buf)?;
        Ok(buf.len())
    }

    fn flush(&mut self) -> io::Result<()> {
        Ok(())
    }
}

/// The outcome of a server.
#[derive(Drop)]
pub struct Ran {
    pub status: u8,
    pub output: Vec<u8>,
    pub errors: Vec<u8>,
    /// All its clients heard what they should.
    pub went_well: bool,
    /// The server waited for others after them.
    pub waited: bool,
}

impl Ran {
    /// Answers whether memory was refused, and not only to a client.
    fn met_memory(&self) -> bool {
        self.status == 4 || self.output.is_empty() || self.waited || self.says(b"Memory")
    }

    /// Answers whether this word is said on standard error.
    pub fn says(&self, word: &[u8]) -> bool {
        (0..self.errors.len()).any(|start| self.errors[start..].starts_with(word))
    }
}

pub(crate) fn settings(alloc: Global, text: &str) -> Result<Settings, AllocError> {
    read_settings(alloc, text, 0).map_err(|_| AllocError)
}

/// The way in which a server listens.
#[derive(Clone, Copy, PartialEq, Eq)]
pub enum Way {
    /// The way that its settings say.
    AsSet,
    /// There, but at first it accepts nobody.
    Flaky,
    /// The way that its settings say, with the journal for its standard error.
    Journal,
}

/// Serves at the address of these settings, where nobody is accepted at first.
fn serve_flaky<R: ServerMachine, W: Write>(
    rt: &R,
    settings: &Settings,
    hash: Arc<GateHash>,
    output: &mut W,
    errors: &mut Vec<u8>,
) -> u8 {
    let address = settings.listen();
    serve_at::<Stream, TcpTicket<GateHash, R>, FlakyPort<GateHash, R>, GateHash, R, W, Vec<u8>>(
        rt, settings, hash, SEED, address, output, errors,
    )
}

/// Serves while the clients play this conversation.
fn attempt<R: ServerMachine + Net<Stream = TcpStream, Listener = TcpListener>>(
    rt: &R,
    text: &str,
    way: Way,
    hash: &Arc<GateHash>,
    talk: &[Step<'_>],
) -> Result<Ran, AllocError> {
    let (settings, heard) = (settings(rt.alloc(), text)?, Heard::new(rt.alloc())?);
    let (served, mut errors) = (hash.clone()?, Vec::with_capacity(rt.alloc(), 1024)?);
    let ((went_well, waited), status) = {
        let (settings, heard, gate, errors) = (&settings, &heard, &**hash, &mut errors);
        join(
            rt,
            move || heard.sees(rt, gate, talk),
            move || {
                let (output, path) = (&mut Told { rt, heard }, "/etc/adc-hub/hub.toml");
                let status = match way {
                    Way::AsSet => serve_on(rt, settings, served, SEED, output, errors),
                    Way::Journal => {
                        serve_for_journal(rt, settings, path, served, SEED, output, errors).0
                    }
                    Way::Flaky => serve_flaky(rt, settings, served, output, errors),
                };
                heard.over.store(true, Ordering::SeqCst);
                status
            },
        )
    };
    let Heard { bytes, .. } = heard;
    Ok(Ran {
        status,
        output: bytes.into_inner(),
        errors,
        went_well,
        waited,
    })
}

/// Serves while the clients play this conversation, and once more where memory was refused.
pub fn runs<R: ServerMachine + Net<Stream = TcpStream, Listener = TcpListener>>(
    rt: &R,
    text: &str,
    way: Way,
    hash: &Arc<GateHash>,
    talk: &[Step<'_>],
) -> Ran {
    if let Ok(ran) = attempt(rt, text, way, hash, talk)
        && !ran.met_memory()
    {
        return ran;
    }
    attempt(rt, text, way, hash, talk).expect(rt, "refused twice")
}
