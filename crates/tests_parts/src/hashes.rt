use crate::rows::*;
use session_hash::{First24, SessionHash, TableTiger, TablesFault};

/// The hashes of sessions.
#[derive(Drop)]
pub(crate) struct Hashes;

impl Part for Hashes {
    fn call(&mut self, rt: &impl Machine, row: Row<'_>, said: &mut Vec<u8>) {
        match row.name {
            "first24" => say_bytes(rt, said, &First24.digest(row.bytes)),
            "tables" => match tables(rt, number(rt, row.text) as usize) {
                Ok(_) => say(rt, said, "ok"),
                Err(fault) => say_shown(rt, said, &fault),
            },
            _ => equal(rt, said),
        }
    }
}

/// Makes the hash whose tables are so many bytes 0.
fn tables(rt: &impl Machine, length: usize) -> Result<TableTiger, TablesFault> {
    let zeros = [0; 8193];
    let zeros = zeros.get(..length).expect(rt, "a length");
    twice!(rt; "session_hash::TableTiger::from_bytes", TablesFault::Memory, TableTiger::from_bytes(rt.alloc(), zeros))
}

/// Says whether the same tables give the same digest.
fn equal(rt: &impl Machine, said: &mut Vec<u8>) {
    let one = tables(rt, 8192).expect(rt, "tables");
    let other = tables(rt, 8192).expect(rt, "tables");
    say_whether(rt, said, one.digest(b"abc") == other.digest(b"abc"));
}

#[test]
fn hashes_are_made(rt: HostRuntime) {
    rows! { rt, Hashes, "
        == first bytes and zeros ==
        first24 <> -> <24*x00> | abc -> abc<21*x00> | ABCDEFGHIJKLMNOPQRSTUVWX | ABCDEFGHIJKLMNOPQRSTUVWXYZ -> ABCDEFGHIJKLMNOPQRSTUVWX
        == tables have 8192 bytes ==
        tables 8191 | 8193 -> Length | 8192 -> ok
    " }
}
