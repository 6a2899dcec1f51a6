// Each test is of both bodies of `Users`.
pub(crate) mod alike;
mod commands;
pub(crate) mod samples;

use self::samples::{number_of, say_totals, say_user, say_users, user};
use crate::base32::sid;
use crate::fields::update;
use crate::identities::nick;
use crate::rows::*;
use adc_ids::{Cid, Nick};
use plain_users::PlainUsers;
use user_table::{IndexedUsers, TableRefused, User, Users, takes_update};

/// The users who are present.
#[derive(Drop)]
pub(crate) struct UserTable<U: Users> {
    users: U,
}

impl<U: Users> Part for UserTable<U> {
    fn call(&mut self, rt: &impl Machine, row: Row<'_>, said: &mut Vec<u8>) {
        match row.name {
            "enters" => self.enters(rt, row.text, said),
            "says" => self.says(rt, row.text, "", said),
            "renames" => self.renames(rt, row.text, said),
            "leaves" => self.leaves(rt, small(rt, row.text), said),
            _ => self.tells(rt, row.name, row.text, said),
        }
    }
}

/// Makes the user that the numbers of a session identifier and of a client identifier, a nick and a line describe.
fn entering(rt: &impl Machine, text: &str) -> User {
    let (number, rest) = pair(text, ' ');
    let (cid, rest) = pair(rest, ' ');
    let (name, line) = pair(rest, ' ');
    user(rt, small(rt, number), byte(rt, cid), name, line)
}

/// Reads a nick, unless the text is empty.
pub(crate) fn nick_unless_empty(rt: &impl Machine, text: &str) -> Option<Nick> {
    match text {
        "" => None,
        _ => Some(nick(rt, text)),
    }
}

fn say_answer(rt: &impl Machine, said: &mut Vec<u8>, refused: Option<TableRefused>) {
    match refused {
        None => say(rt, said, "ok"),
        Some(refused) => say_shown(rt, said, &refused),
    }
}

fn say_found(rt: &impl Machine, said: &mut Vec<u8>, user: Option<&User>) {
    match number_of(user) {
        Some(number) => say_number(rt, said, number as u128),
        None => say(rt, said, "nobody"),
    }
}

impl<U: Users> UserTable<U> {
    /// Makes a call that changes nothing.
    fn tells<R: Machine>(&self, rt: &R, name: &str, text: &str, said: &mut Vec<u8>) {
        match name {
            "takes" => self.takes(rt, text, said),
            "order" => self.order(rt, said),
            "totals" => say_totals(rt, said, &self.users),
            "user" => say_user(rt, said, &entering(rt, text)),
            "all" => say_bytes(rt, said, &say_users(rt, &self.users)),
            _ => self.looks(rt, name, text, said),
        }
    }

    /// Enters a user. Each refusal changes nothing, and one for memory is not repeated.
    fn enters(&mut self, rt: &impl Machine, text: &str, said: &mut Vec<u8>) {
        let before = say_users(rt, &self.users);
        let mut answer = self.inserts(rt, entering(rt, text));
        if let Err((TableRefused::Memory, user)) = answer {
            let same = self.is_said(rt, &before) && self.is_absent(&user);
            say_refused_memory(rt, "user_table::Users::insert", same);
            answer = self.inserts(rt, user);
        }
        match answer {
            Ok(()) => say_answer(rt, said, None),
            Err((refused, _)) => self.ends(rt, Some(refused), &before, said),
        }
    }

    /// Says the answer by which a call ends. Each refusal changes nothing.
    fn ends(&self, rt: &impl Machine, why: Option<TableRefused>, old: &[u8], said: &mut Vec<u8>) {
        let same = why.is_none() || self.is_said(rt, old);
        assert!(rt; same, "a refusal changed something");
        say_answer(rt, said, why);
    }

    /// Answers whether this is said of the users.
    fn is_said(&self, rt: &impl Machine, before: &[u8]) -> bool {
        say_users(rt, &self.users).as_slice() == before
    }

    fn is_absent(&self, user: &User) -> bool {
        self.users.by_sid(user.sid()).is_none()
            && self.users.by_cid(user.cid()).is_none()
            && self.users.by_nick(user.key()).is_none()
    }

    fn inserts(&mut self, rt: &impl Abort, user: User) -> Result<(), (TableRefused, User)> {
        if self.users.by_sid(user.sid()).is_some() {
            unknown(rt, "who is there enters");
        }
        self.users.insert(user)
    }

    /// Says a line for the user with a number, who gets a nick unless that is empty. Each refusal changes nothing, and one
    /// for memory is not repeated.
    fn says(&mut self, rt: &impl Machine, text: &str, name: &str, said: &mut Vec<u8>) {
        let before = say_users(rt, &self.users);
        let answer = twice!(rt; "user_table::Users::merge_info", TableRefused::Memory,
            (say_users(rt, &self.users), self.holder(name)), self.merges(rt, text, name));
        self.ends(rt, answer.err(), &before, said);
    }

    /// Gives the number of who has a nick.
    fn holder(&self, name: &str) -> Option<u32> {
        number_of(self.users.by_nick(name))
    }

    fn merges(&mut self, rt: &impl Machine, text: &str, name: &str) -> Result<(), TableRefused> {
        let (number, line) = pair(text, ' ');
        let (sid, update) = (sid(rt, small(rt, number)), update(rt, line));
        if !takes_update(&self.users, sid, &update) {
            unknown(rt, "no room");
        }
        let given = nick_unless_empty(rt, name);
        self.users.merge_info(sid, &update, given)
    }

    /// Says for a user the line behind a nick, which the user gets.
    fn renames(&mut self, rt: &impl Machine, text: &str, said: &mut Vec<u8>) {
        let (name, rest) = pair(text, ' ');
        self.says(rt, rest, name, said);
    }

    fn leaves(&mut self, rt: &impl Machine, number: u32, said: &mut Vec<u8>) {
        let left = self.users.remove(sid(rt, number));
        say_found(rt, said, left.as_ref());
    }

    fn takes(&self, rt: &impl Machine, text: &str, said: &mut Vec<u8>) {
        let (number, line) = pair(text, ' ');
        let (sid, update) = (sid(rt, small(rt, number)), update(rt, line));
        say_whether(rt, said, takes_update(&self.users, sid, &update));
    }

    /// Says the numbers of the users in order of entry.
    fn order(&self, rt: &impl Machine, said: &mut Vec<u8>) {
        for place in 0..=self.users.totals().users {
            match number_of(self.users.at(place as usize)) {
                Some(number) => say_number(rt, said, number as u128),
                None => say(rt, said, " end"),
            }
        }
    }

    fn looks(&self, rt: &impl Machine, name: &str, text: &str, said: &mut Vec<u8>) {
        let found = match name {
            "sid" => self.users.by_sid(sid(rt, small(rt, text))),
            "cid" => self.users.by_cid(Cid::from_bytes([byte(rt, text); 24])),
            "nick" => self.users.by_nick(text),
            "at" => self.users.at(number(rt, text) as usize),
            _ => unknown(rt, name),
        };
        say_found(rt, said, found);
    }
}

/// Makes the calls on both tables, in which ana is with SID 1, bob with 2 and eva with 3.
pub(crate) fn play_users<R: Machine>(rt: &R, rows: &str) {
    let three = "enters 1 1 ana NIana SS100 SF2 | 2 2 bob NIbob SS20 SFx | 3 3 eva NIeva SF3 -> ok";
    play_table::<PlainUsers>(rt, &[three, rows]);
    play_table::<IndexedUsers>(rt, &[three, rows]);
}

/// Makes the calls on both tables, in which there is nobody.
pub(crate) fn play_nobody<R: Machine>(rt: &R, rows: &str) {
    play_table::<PlainUsers>(rt, &[rows]);
    play_table::<IndexedUsers>(rt, &[rows]);
}

/// Makes the calls of all rows on a table in which there is nobody.
pub(crate) fn play_table<U: Users>(rt: &impl Machine, all: &[&str]) {
    let users = U::new(rt.alloc());
    let mut table = UserTable { users };
    for rows in all {
        play(rt, &mut table, rows);
    }
}

#[test]
fn users_are_kept(rt: HostRuntime) {
    rows! { play_users(rt) "
        == lists users in order of entry ==
        order -> 1 2 3 end
        == finds users ==
        sid 1 -> 1 | 2 -> 2 | 3 -> 3 | 4 -> nobody
        cid 1 -> 1 | 2 -> 2 | 3 -> 3 | 4 -> nobody
        nick ana -> 1 | bob -> 2 | eva -> 3 | Ana -> nobody
        == refuses a nick before a client identifier ==
        enters 4 1 ana SS1 | 4 9 bob SS1 -> NickTaken | 4 3 dan SS1 -> CidTaken | 4 9 dan SS1 -> ok
        order -> 1 2 3 4 end
        == closes up where a user leaves ==
        leaves 2 -> 2 | 2 -> nobody
        order -> 1 3 end
        nick bob -> nobody
        cid 2 -> nobody
        totals -> 2 100 5
        enters 2 2 bob NIbob -> ok
        order -> 1 3 2 end
        == renames a user in place ==
        renames rob 2 NIrob SS21 -> ok | eva 1 NIeva SS1 -> NickTaken | eva 3 NIeva SS4 -> ok
        says 1 DEx SS99 -> ok
        order -> 1 2 3 end
        nick bob -> nobody | rob -> 2 | ana -> 1
        totals -> 3 124 5
        == asks for room ==
        takes 2 NIrob -> yes | 4 NIrob -> no
        == sums what is shared: 120 and 5, and twice 2^64 - 1 ==
        totals -> 3 120 5
        enters 4 4 dan SS18446744073709551615 SF18446744073709551615 | 5 5 leo SS18446744073709551615 SF18446744073709551615 -> ok
        totals -> 5 36893488147419103350 36893488147419103235
    " }
    rows! { play_nobody(rt) "
        == sums what is shared ==
        enters 1 1 dan SS18446744073709551615 | 2 2 leo SS18446744073709551615 -> ok
        totals -> 2 36893488147419103230 0
        == reads a user ==
        user 5 7 e\u{301}va NIe\u{301}va SS9 -> 5 7 \u{e9}va NIe\u{301}va SS9;
    " }
}
