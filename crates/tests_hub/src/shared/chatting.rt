// Guests in threads of their own.
ghost use Rattle.std.specs.Prelude.{◌≡◌};

use crate::refusal::*;
use crate::shared::guests::{Guest, Hall, hears, looks, says, sends, takes};
use std::thread::{Threads, join};

/// The number of lines that each guest says.
const LINES: u8 = 100;

/// The number of bytes that a line has when it is heard, with its line feed.
const LENGTH: usize = 13;

/// Plays Ana, who says a line in one thread, while Bob looks about in another.
pub(crate) fn speaks_apart<R: Threads + Wait + Abort + Print + Sync>(
    rt: &R,
    hall: &Hall,
    ana: Guest,
    bob: Guest,
) -> (Guest, Guest)
    requires ana { ana.pass.home ≡ hall.now.hub.home }
    requires bob { bob.pass.home ≡ hall.now.hub.home }
    ensures ana { result.0.pass.home ≡ hall.now.hub.home }
    ensures bob { result.1.pass.home ≡ hall.now.hub.home }
{
    join(
        rt,
        move || -> Guest
            requires { ana.pass.home ≡ hall.now.hub.home }
            ensures { result.pass.home ≡ hall.entry.now.hub.home }
        {
            let mut ana = ana;
            says(rt, hall, &mut ana, b"BMSG AAAB hi");
            ana
        },
        move || -> Guest
            requires { bob.pass.home ≡ hall.now.hub.home }
            ensures { result.pass.home ≡ hall.entry.now.hub.home }
        {
            let mut bob = bob;
            looks(rt, hall, &mut bob);
            bob
        },
    )
}

/// Plays both, who say their lines, each in a thread of its own, and hear what is said; then each hears the rest.
pub(crate) fn chats_of_two<R: Threads + Wait + Abort + Print + Sync>(
    rt: &R,
    hall: &Hall,
    ana: Guest,
    bob: Guest,
) -> ((Guest, Vec<u8>), (Guest, Vec<u8>))
    requires ana { ana.pass.home ≡ hall.now.hub.home }
    requires bob { bob.pass.home ≡ hall.now.hub.home }
    ensures ana { result.0.0.pass.home ≡ hall.now.hub.home }
    ensures bob { result.1.0.pass.home ≡ hall.now.hub.home }
{
    let ((mut ana, mut one), (mut bob, mut other)) = join(
        rt,
        move || -> (Guest, Vec<u8>)
            requires { ana.pass.home ≡ hall.now.hub.home }
            ensures { result.0.pass.home ≡ hall.entry.now.hub.home }
        { chats(rt, hall, ana, b'B') },
        move || -> (Guest, Vec<u8>)
            requires { bob.pass.home ≡ hall.now.hub.home }
            ensures { result.0.pass.home ≡ hall.entry.now.hub.home }
        { chats(rt, hall, bob, b'C') },
    );
    let rest = hears(rt, hall, &mut ana);
    again!(rt; one.extend_from_slice(&rest));
    let rest = hears(rt, hall, &mut bob);
    again!(rt; other.extend_from_slice(&rest));
    ((ana, one), (bob, other))
}

/// Gives the line of a number that the guest with this letter says.
fn numbered_line(letter: u8, number: u8) -> [u8; 12] {
    let mut line = *b"BMSG AAA? 00";
    line[8] = letter;
    line[10] = b'0' + number / 10;
    line[11] = b'0' + number % 10;
    line
}

/// Says a line, and hears what is there. Where memory is refused, nothing is asked of what the guest then sees, since the other may have
/// said something.
fn chats_once<R: Wait + Abort>(rt: &R, hall: &Hall, guest: &mut Guest, line: &[u8]) -> Vec<u8>
    requires { guest.old.pass.home ≡ hall.now.hub.home }
    ensures { guest.new.pass.home ≡ hall.now.hub.home }
{
    let said = again!(rt; sends(rt, hall, guest, line));
    assert!(rt; said == Verdict::Kept, "{said:?}");
    let mut heard = Vec::new(hall.alloc);
    again!(rt; takes(rt, hall, guest, &mut heard));
    heard
}

// Says a hundred lines, and hears after each what is there.
fn chats<R: Wait + Abort + Print>(rt: &R, hall: &Hall, guest: Guest, letter: u8) -> (Guest, Vec<u8>)
    requires { guest.pass.home ≡ hall.now.hub.home }
    ensures { result.0.pass.home ≡ hall.now.hub.home }
{
    let mut guest = guest;
    let mut heard = Vec::new(hall.alloc);
    for number in 0..LINES {
        let line = numbered_line(letter, number);
        let more = chats_once(rt, hall, &mut guest, &line);
        again!(rt; heard.extend_from_slice(&more));
    }
    (guest, heard)
}

/// Answers whether all lines of both were heard, those of each in their order.
pub(crate) fn is_one_chat(heard: &[u8]) -> bool {
    if heard.len() != 2 * LINES as usize * LENGTH {
        return false;
    }
    let mut next = [0u8; 2];
    for line in heard.chunks(LENGTH) {
        if line.len() < LENGTH || !line.starts_with(b"BMSG AAA") {
            return false;
        }
        let speaker = if line[8] == b'B' { 0 } else { 1 };
        let number = next[speaker];
        if number >= LINES || line[10] != b'0' + number / 10 || line[11] != b'0' + number % 10 {
            return false;
        }
        next[speaker] = number + 1;
    }
    next == [LINES, LINES]
}
