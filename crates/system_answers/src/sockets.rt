ghost use Rattle.std.specs.Io.{WritesAtMost};

use crate::answer::SystemAnswer;
use std::io;
use tokio::net::TcpStream;

/// Writes as many of these bytes as are taken at once, and gives their number. It fails where none can be taken now, or the connection is gone.
pub fn written_at_once(stream: &TcpStream, bytes: &[u8]) -> SystemAnswer<io::Result<usize>>
    ensures { WritesAtMost result.given bytes.now }
{
    SystemAnswer {
        given: stream.try_write(bytes),
    }
}
