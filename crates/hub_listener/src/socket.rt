ghost use Rattle.std.specs.Prelude.{◌≡◌, ◌≤◌, [], length, take, IfOk, IfErr};

use std::io;
use system_answers::{SystemAnswer, written_at_once};
use tokio::io::{AsyncRead, AsyncWrite};
use tokio::net::TcpStream;

/// A socket of a client, or what stands for it: a stream that is read and written by tasks, and what a server asks of it
/// beside that.
pub trait Socket: AsyncRead + AsyncWrite {
    ghost use Rattle.std.specs.Prelude.{ℕ, List, [], Result, take, IfOk, IfErr};
    ghost use Rattle.std.specs.declared.io.Error.{Error};

    /// What a call of `try_write` came to. It has no `Drop`, which each thread would have to know of.
    type Tried;

    /// How many bytes were taken, or why none could be.
    ghost outcome_of: { Self.Tried → Result ℕ Error };

    /// One call of `try_write` in the first state, with these bytes and this outcome, left the second. Only a call says so.
    ghost tries: { Self → List ℕ → Result ℕ Error → Self → Type 0 };

    /// Says whether what is written goes out at once, and does not wait for more.
    fn set_nodelay(&self, is_at_once: bool) -> io::Result<()>;

    /// Writes as many of these bytes as are taken at once, and gives what came of it. It leaves no waker. It fails where none
    /// can be taken now, or the connection is gone.
    fn try_write(&mut self, bytes: &[u8]) -> Self::Tried
        ensures tried { tries self.old bytes.now (outcome_of result) self.new }
        ensures bound { IfOk (outcome_of result) (λ count. count ≤ length bytes.now) }
        ensures bytes { IfOk (outcome_of result) (λ count. Self.writes self.old (take count bytes.now) self.new) }
        ensures nothing { IfErr (outcome_of result) (λ _. Self.writes self.old [] self.new) }
        ensures failed { IfErr (outcome_of result) (λ error. Self.AsyncWrite.fails self.new error) };

    /// Gives how many bytes were taken, or why none could be.
    fn outcome(tried: Self::Tried) -> io::Result<usize>
        ensures told { result ≡ outcome_of tried };

    /// Such a call wrote the first of the bytes, or none where it failed.
    ghost tries_so: { (a : Self) (bytes : List ℕ) (r : Result ℕ Error) (b : Self) → tries a bytes r b
        → IfOk r (λ count. Self.AsyncWrite.writes a (take count bytes) b) × IfErr r (λ _. Self.AsyncWrite.writes a [] b) };
}

impl Socket for TcpStream {
    ghost use Rattle.std.specs.Prelude.{⊤};
    ghost use Rattle.std.proofs.Common.{rules};

    type Tried = SystemAnswer<io::Result<usize>>;

    ghost outcome_of = { λ tried. tried.given };

    ghost tries = { λ _ _ _ _. ⊤ };

    fn set_nodelay(&self, is_at_once: bool) -> io::Result<()> {
        TcpStream::set_nodelay(self, is_at_once)
    }

    fn try_write(&mut self, bytes: &[u8]) -> SystemAnswer<io::Result<usize>> {
        written_at_once(&*self, bytes)
    }

    fn outcome(tried: SystemAnswer<io::Result<usize>>) -> io::Result<usize> {
        tried.into_inner()
    }

    ghost tries_so = { λ a bytes r b tried. Prim.search rules };
}
