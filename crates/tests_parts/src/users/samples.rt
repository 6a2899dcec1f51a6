// Users for tests.
use crate::base32::sid;
use crate::fields::{fields_of_line, say_fields};
use crate::identities::key_of;
use crate::rows::*;
use adc_ids::Cid;
use user_table::{User, Users};

/// Makes a user whose client identifier is so many equal bytes, and who said a line.
pub(crate) fn user(rt: &impl Machine, number: u32, cid: u8, name: &str, line: &str) -> User {
    let key = key_of(rt, name);
    let (sid, cid) = (sid(rt, number), Cid::from_bytes([cid; 24]));
    User::new(sid, cid, key, fields_of_line(rt, line))
}

/// Says the users in order of entry, a line for each: numbers, the nick's key and the fields; and what they share together.
/// Each has to be found by session identifier, client identifier and nick.
pub(crate) fn say_users<U: Users>(rt: &impl Machine, users: &U) -> Vec<u8> {
    let mut text = Vec::new(rt.alloc());
    for place in 0..users.totals().users {
        let user = users.at(place as usize).expect(rt, "a place");
        is_found(rt, users, user);
        say_user(rt, &mut text, user);
    }
    say_totals(rt, &mut text, users);
    text
}

pub(crate) fn say_user(rt: &impl Machine, said: &mut Vec<u8>, user: &User) {
    say_number(rt, said, user.sid().number() as u128);
    say_number(rt, said, cid_number(rt, user) as u128);
    say(rt, said, " ");
    say(rt, said, user.key());
    say_fields(rt, said, user.fields());
    say(rt, said, ";");
}

/// Gives the number of equal bytes that the client identifier is.
fn cid_number(rt: &impl Abort, user: &User) -> u8 {
    let bytes = user.cid().bytes();
    assert!(rt; bytes == [bytes[0]; 24], "other bytes");
    bytes[0]
}

fn is_found<U: Users>(rt: &impl Abort, users: &U, user: &User) {
    let sid = Some(user.sid().number());
    let is_found = number_of(users.by_sid(user.sid())) == sid
        && number_of(users.by_cid(user.cid())) == sid
        && number_of(users.by_nick(user.key())) == sid;
    assert!(rt; is_found, "not found");
}

/// Gives the number of the session identifier.
pub(crate) fn number_of(user: Option<&User>) -> Option<u32> {
    Some(user?.sid().number())
}

pub(crate) fn say_totals<U: Users>(rt: &impl Machine, said: &mut Vec<u8>, users: &U) {
    let totals = users.totals();
    say_number(rt, said, totals.users as u128);
    say_number(rt, said, totals.ss);
    say_number(rt, said, totals.sf);
}
