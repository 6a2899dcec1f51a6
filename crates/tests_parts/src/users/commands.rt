// Commands that a small generator draws, the same from the same seed.
use super::nick_unless_empty;
use super::samples::user;
use crate::base32::sid;
use crate::fields::update;
use crate::rows::*;
use adc_ids::Cid;
use plain_users::Command;

/// A linear congruential generator with Knuth's constants; the high bits are used.
#[derive(Drop)]
pub(crate) struct Draws {
    pub(crate) state: u64,
}

impl Draws {
    /// Draws a number from 0 to 255.
    fn byte(&mut self) -> u32 {
        self.state = self
            .state
            .wrapping_mul(6_364_136_223_846_793_005)
            .wrapping_add(1_442_695_040_888_963_407);
        (self.state >> 56) as u32
    }
}

/// Draws a command on one of at most 60 users with 40 nicks and 48 client identifiers.
pub(crate) fn command(rt: &impl Machine, draws: &mut Draws) -> Command {
    let kind = draws.byte();
    let number = draws.byte() % 60;
    let which = draws.byte() % 40;
    let name = again!(rt; name(rt.alloc(), which));
    let cid = (draws.byte() % 48) as u8;
    let amount = draws.byte();
    let line = again!(rt; text(rt.alloc(), &name, amount));
    match kind % 16 {
        0..=5 => Command::Insert(user(rt, number, cid, &name, &line)),
        8 | 9 => renewal(rt, number, &line, &name),
        10 => renewal(rt, number, "SS7 SF7 DEhere", ""),
        11 => renewal(rt, number, "NIother", &name),
        14 => Command::ByNick(name),
        kind => look(rt, kind, number, cid, amount),
    }
}

/// Reads the update that a line says, with a nick unless that is empty.
pub(crate) fn renewal(rt: &impl Machine, number: u32, line: &str, name: &str) -> Command {
    let given = nick_unless_empty(rt, name);
    Command::MergeInfo(sid(rt, number), update(rt, line), given)
}

fn look(rt: &impl Abort, kind: u32, number: u32, cid: u8, amount: u32) -> Command {
    match kind {
        6 | 7 => Command::Remove(sid(rt, number)),
        12 => Command::BySid(sid(rt, number)),
        13 => Command::ByCid(Cid::from_bytes([cid; 24])),
        _ if amount % 2 == 0 => Command::At(number as usize),
        _ => Command::Count,
    }
}

/// Makes a nick that differs by its number; every third has a letter with an accent, in two code points.
fn name(alloc: Global, number: u32) -> Result<String, AllocError> {
    if number % 3 == 0 {
        format!(in alloc; "e\u{301}{number}")
    } else {
        format!(in alloc; "n{number}")
    }
}

fn text(alloc: Global, name: &str, amount: u32) -> Result<String, AllocError> {
    format!(in alloc; "NI{name} SS{amount}000000000000000000 SF{amount}")
}
