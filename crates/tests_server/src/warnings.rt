// Warnings: what stands in each line, what the journal has of them, and the queue by which nobody waits.
use crate::machine::*;
use hub_warnings::{Cause, Dropped, EndLine, Journal, Moment, Start, Warning, Warnings, queue};
use log::{Level, Logged};
use std::fmt::Display;
use std::io::{self, Write};

const HOME: Ipv4Addr = Ipv4Addr::LOCALHOST;

/// Gives what was said with `TIME` for each time and `PORT` for each port of this machine.
pub(crate) fn shape(alloc: Global, said: &[u8]) -> Result<Vec<u8>, AllocError> {
    let mut shape = Vec::new(alloc);
    let mut rest = said;
    for _byte in 0..said.len() {
        if begins_with_time(rest) {
            shape.extend_from_slice(b"TIME")?;
            rest = rest.get(20..).unwrap_or(b"");
        } else if let Some(after) = rest.strip_prefix(b"127.0.0.1:".as_slice()) {
            shape.extend_from_slice(b"127.0.0.1:PORT")?;
            let digits = after.iter().position(|byte| !byte.is_ascii_digit());
            rest = after.get(digits.unwrap_or(0)..).unwrap_or(b"");
        } else if let [byte, after @ ..] = rest {
            shape.push(*byte)?;
            rest = after;
        }
    }
    Ok(shape)
}

/// Answers whether it begins like `2026-11-25T13:07:11Z`.
fn begins_with_time(said: &[u8]) -> bool {
    let form = b"0000-00-00T00:00:00Z";
    let Some(time) = said.get(..form.len()) else {
        return false;
    };
    for (byte, wanted) in time.iter().zip(form) {
        if byte != wanted && (*wanted != b'0' || !byte.is_ascii_digit()) {
            return false;
        }
    }
    true
}

fn line_of<D: Display>(alloc: Global, shown: &D) -> Result<String, AllocError> {
    format!(in alloc; "{shown}")
}

/// Stops the test unless it is shown like this.
fn shows<R: Machine, D: Display>(rt: &R, shown: &D, text: &str) {
    let line = again!(rt; line_of(rt.alloc(), shown));
    assert!(rt; line.as_str() == text, "{line}");
}

#[test]
fn moments_are_shown(rt: HostRuntime) {
    // By GNU date: date -u -d @SECONDS +%FT%TZ.
    let rows = [
        (0, "1970-01-01T00:00:00Z"),
        (951_827_696, "2000-02-29T12:34:56Z"),
        (1_795_612_031, "2026-11-25T13:07:11Z"),
        (4_107_542_399, "2100-02-28T23:59:59Z"),
        (253_402_300_799, "9999-12-31T23:59:59Z"),
    ];
    for (seconds, text) in rows {
        shows(&rt, &Moment::from_seconds(seconds), text);
    }
}

#[test]
fn lines_have_time_address_and_cause(rt: HostRuntime) {
    let moment = Moment::from_seconds(1_795_612_031);
    let causes = [
        (Cause::ReadFailed, "a session ended by ReadFailed"),
        (Cause::WriteFailed, "a session ended by WriteFailed"),
        (Cause::TooLong, "a session ended by TooLong"),
        (Cause::OutOfMemory, "a session ended by Memory"),
        (Cause::Refused, "a connection was refused by Memory"),
        (Cause::Lost, "a connection was lost by Memory"),
    ];
    for (cause, text) in causes {
        shows(&rt, &cause, text);
    }
    let peer = Some(SocketAddrV4::new(Ipv4Addr::new(192, 0, 2, 7), 40_112));
    let read = "2026-11-25T13:07:11Z 192.0.2.7:40112 a session ended by ReadFailed";
    let lost = "2026-11-25T13:07:11Z a connection was lost by Memory";
    for (peer, cause, text) in [(peer, Cause::ReadFailed, read), (None, Cause::Lost, lost)] {
        let warning = Warning {
            moment,
            peer,
            cause,
        };
        shows(&rt, &warning, text);
    }
    let dropped = Dropped { moment, count: 499 };
    let text = "2026-11-25T13:07:11Z lines dropped for want of room: 499";
    shows(&rt, &dropped, text);
}

#[test]
fn a_server_says_its_start_and_its_end(rt: HostRuntime) {
    let moment = Moment::from_seconds(1_795_612_031);
    let start = Start {
        moment,
        settings: "hub.toml",
        address: SocketAddr::V4(SocketAddrV4::new(HOME, 4111)),
        needed: 544,
        allowed: Some(2_048),
    };
    let text =
        "2026-11-25T13:07:11Z adc_hub 1.0 serves hub.toml at 127.0.0.1:4111, descriptors: 544 needed, 2048 allowed";
    shows(&rt, &start, text);
    let end = EndLine {
        moment,
        why: "standard output failed",
        joins: None,
    };
    let text = "2026-11-25T13:07:11Z adc_hub ended: standard output failed";
    shows(&rt, &end, text);
}

/// A journal that takes three bytes, then fails once, and then takes all.
#[derive(Drop)]
struct Tearing {
    got: Vec<u8>,
    calls: u32,
}

impl Write for Tearing {
    fn write(&mut self, buf: &[u8]) -> io::Result<usize> {
        self.calls = self.calls.saturating_add(1);
        if self.calls == 2 {
            return Err(io::ErrorKind::BrokenPipe.into());
        }
        let most = if self.calls == 1 { 3 } else { buf.len() };
        let count = buf.len().min(most);
        self.got.extend_from_slice(&buf[..count])?;
        Ok(count)
    }

    fn flush(&mut self) -> io::Result<()> {
        Ok(())
    }
}

#[test]
fn a_torn_line_is_ended_before_the_next(rt: HostRuntime) {
    let mut tearing = Tearing {
        got: again!(&rt; Vec::with_capacity(rt.alloc(), 256)),
        calls: 0,
    };
    let journal = Journal::new(&rt, true, &mut tearing);
    let warnings = Warnings::new(Logged::new((), Level::Info, journal));
    warnings.warn(&rt, None, Cause::ReadFailed);
    warnings.warn(&rt, None, Cause::Lost);
    drop(warnings);
    let shape = again!(&rt; shape(rt.alloc(), &tearing.got));
    let wanted = b"<4>\n<4>TIME a connection was lost by Memory\n".as_slice();
    assert!(&rt; shape.as_slice() == wanted, "{shape:?}");
}

#[test]
fn the_journal_has_a_line_for_each(rt: HostRuntime) {
    let mut said = again!(&rt; Vec::with_capacity(rt.alloc(), 4_096));
    let warnings = Warnings::new(Logged::new((), Level::Info, Journal::new(&rt, true, &mut said)));
    let peer = Some(SocketAddrV4::new(HOME, 4111));
    for _time in 0..3 {
        warnings.warn(&rt, peer, Cause::ReadFailed);
    }
    warnings.warn(&rt, None, Cause::Lost);
    drop(warnings);
    let shape = again!(&rt; shape(rt.alloc(), &said));
    let wanted = b"<4>TIME 127.0.0.1:PORT a session ended by ReadFailed\n\
<4>TIME 127.0.0.1:PORT a session ended by ReadFailed\n\
<4>TIME 127.0.0.1:PORT a session ended by ReadFailed\n\
<4>TIME a connection was lost by Memory\n";
    assert!(&rt; shape.as_slice() == wanted.as_slice());
}

/// Puts so many lines of four bytes into a queue, and gives what is written once somebody writes.
fn written_of<R: Wait + Clock + Abort + AllocGlobal + Copy + Drop>(rt: R, count: u64) -> Vec<u8> {
    let (mut writer, lines, end) = again!(&rt; queue(rt, rt.alloc(), true));
    for _line in 0..count {
        // Nobody writes yet, and nobody waits.
        assert!(&rt; writer.write_all(b"li").is_ok() && writer.write_all(b"ne\n").is_ok());
    }
    drop(writer);
    let mut said = again!(&rt; Vec::with_capacity(rt.alloc(), 4_096));
    lines.write(&rt, &mut said);
    end.wait(&rt);
    said
}

#[test]
fn a_queue_keeps_256_lines_and_counts_the_rest(rt: HostRuntime) {
    let said = written_of(rt, 300);
    let shape = again!(&rt; shape(rt.alloc(), &said));
    let last = b"<4>TIME lines dropped for want of room: 44\n".as_slice();
    assert!(&rt; shape.starts_with(b"line\n") && shape.ends_with(last));
    assert!(&rt; shape.len() == (256 * 5usize).saturating_add(last.len()));
}

#[test]
fn a_line_without_memory_is_counted(rt: HostRuntime) {
    let said = written_of(rt, 3);
    let shape = again!(&rt; shape(rt.alloc(), &said));
    let all = b"line\nline\nline\n".as_slice();
    let fewer = b"line\nline\n<4>TIME lines dropped for want of room: 1\n".as_slice();
    assert!(&rt; shape.as_slice() == all || shape.as_slice() == fewer);
}
