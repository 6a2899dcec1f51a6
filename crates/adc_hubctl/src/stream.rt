use crate::ending::ToolEnding;
use hub_client::HubAddress;
use std::alloc::{AllocGlobal, Global};
use std::io::{self, Read, Write};
use std::net::{Net, OpenStream, TcpStream, ToSocketAddrs};
use std::time::{Clock, Duration, Instant};

/// A connection on which an answer has to come within some time of the last write.
#[derive(Drop)]
pub(crate) struct TimedStream<'a, R: Net> {
    rt: &'a R,
    stream: R::Stream,
    limit: Duration,
    asked: Instant,
}

/// Connects to a hub. The first of the host's addresses that answers in time is taken.
pub(crate) fn connect<'a, R: Net + Clock + AllocGlobal>(
    rt: &'a R,
    address: &HubAddress<'_>,
    seconds: u32,
) -> Result<TimedStream<'a, R>, ToolEnding> {
    let limit = Duration::from_secs(u64::from(seconds));
    let found = match (address.host(), address.port()).to_socket_addrs(rt) {
        Ok(found) => found,
        Err(error) => return Err(no_host(rt.alloc(), address.host(), &error)),
    };
    let mut is_refused = false;
    for socket in found {
        match TcpStream::connect_timeout(rt, &socket, limit) {
            Ok(stream) => {
                let asked = Instant::now(rt)?;
                return Ok(TimedStream {
                    rt,
                    stream,
                    limit,
                    asked,
                });
            }
            Err(error) => {
                is_refused = is_refused || error.kind() == io::ErrorKind::ConnectionRefused;
            }
        }
    }
    Err(unreachable(rt.alloc(), address, is_refused))
}

/// Gives that an address cannot be reached. That one of a host's addresses refused tells more than that others cannot be reached.
fn unreachable(alloc: Global, address: &HubAddress<'_>, is_refused: bool) -> ToolEnding {
    let words = if is_refused {
        "refused the connection: no hub runs there"
    } else {
        "cannot be reached"
    };
    match address.to_string(alloc) {
        Ok(address) => ToolEnding::Unreachable(address, words),
        Err(_) => ToolEnding::Memory,
    }
}

fn no_host(alloc: Global, host: &str, error: &io::Error) -> ToolEnding {
    if error.kind() == io::ErrorKind::OutOfMemory {
        return ToolEnding::Memory;
    }
    match String::from_str(alloc, host) {
        Ok(host) => ToolEnding::NoHost(host),
        Err(_) => ToolEnding::Memory,
    }
}

impl<R: Net + Clock> Read for TimedStream<'_, R> {
    fn read(&mut self, buf: &mut [u8]) -> io::Result<usize> {
        let passed = self.asked.elapsed(self.rt)?;
        match self.limit.checked_sub(passed) {
            Some(left) if !left.is_zero() => {
                self.stream.set_read_timeout(Some(left))?;
                self.stream.read(buf)
            }
            _ => Err(io::ErrorKind::TimedOut.into()),
        }
    }
}

impl<R: Net + Clock> Write for TimedStream<'_, R> {
    fn write(&mut self, buf: &[u8]) -> io::Result<usize> {
        self.asked = Instant::now(self.rt)?;
        self.stream.set_write_timeout(Some(self.limit))?;
        self.stream.write(buf)
    }

    fn flush(&mut self) -> io::Result<()> {
        self.stream.flush()
    }
}
