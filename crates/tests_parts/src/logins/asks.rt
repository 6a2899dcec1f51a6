use super::say_check;
use crate::rows::*;
use login_state::{
    Account, Address, Admission, Ban, CHECKED, Claim, EntryAsk, Identity, InfAsk, Required, Size,
    UpdateAsk, Validity, check_entry, check_inf, check_update,
};

/// A login with which everything is wrong at first; each call mends something and asks again.
#[derive(Drop)]
struct Login {
    ask: InfAsk,
}

impl Part for Login {
    fn call(&mut self, rt: &impl Machine, row: Row<'_>, said: &mut Vec<u8>) {
        let (what, how) = pair(row.text, ' ');
        match what {
            "nothing" => {}
            "words" => self.ask.words = Validity::Good,
            "id" => self.ask.id = required(how == "good"),
            "pid" => self.ask.pid = required(how == "good"),
            "nick" => self.ask.nick = required(how == "good"),
            "share_size" => self.ask.values[0] = Validity::Good,
            "shared_files" => self.ask.values[1] = Validity::Good,
            "identity" => self.ask.identity = Identity::Own,
            "address" => self.ask.address = Address::Right,
            "admission" => self.ask.admission = Admission::Admitted,
            _ => self.ask.entry = entry(rt, what, how),
        }
        say_check(rt, said, check_inf(&self.ask));
    }
}

/// Reads what `free`, `ever` or a number of seconds says of a ban, and `nick`, `cid` and `both` of what is taken.
fn entry(rt: &impl Abort, ban: &str, taken: &str) -> EntryAsk {
    EntryAsk {
        ban: match ban {
            "free" => Ban::Free,
            "ever" => Ban::Ever,
            _ => Ban::For(number(rt, ban)),
        },
        nick_claim: claim(taken == "nick" || taken == "both"),
        cid_claim: claim(taken == "cid" || taken == "both"),
    }
}

fn claim(is_taken: bool) -> Claim {
    if is_taken { Claim::Taken } else { Claim::Free }
}

fn required(good: bool) -> Required {
    if good { Required::Good } else { Required::Bad }
}

#[test]
fn checks_a_login_in_order(rt: HostRuntime) {
    let ask = InfAsk {
        words: Validity::Bad,
        id: Required::Missing,
        pid: Required::Missing,
        nick: Required::Missing,
        values: [Validity::Bad; CHECKED],
        identity: Identity::Foreign,
        address: Address::Wrong([10, 0, 0, 1]),
        admission: Admission::RegisteredOnly,
        entry: entry(&rt, "ever", "both"),
    };
    rows! { rt, Login { ask }, r"
        mends nothing -> ISTA 140 Protocol\serror | words -> ISTA 243 INF\sfield\smissing FMID | id bad -> ISTA 243 INF\sfield\smissing FMPD
        mends pid bad -> ISTA 243 INF\sfield\smissing FMNI | nick bad -> ISTA 243 INF\sfield\sbad FBID
        mends id good -> ISTA 243 INF\sfield\sbad FBPD | pid good -> ISTA 243 INF\sfield\sbad FBSS
        mends share_size -> ISTA 243 INF\sfield\sbad FBSF | shared_files -> ISTA 227 Invalid\sPID | identity -> ISTA 221 Invalid\snick
        mends nick good -> ISTA 231 Banned | 60 both -> ISTA 232 Banned TL60 | free both -> ISTA 246 Wrong\saddress I410.0.0.1
        mends address -> ISTA 226 Registered\susers\sonly | admission -> ISTA 222 Nick\staken | free cid -> ISTA 224 CID\staken | free none -> Go
    " }
}

/// An update with which everything is wrong at first; each call mends something and asks again.
#[derive(Drop)]
struct Renewal {
    ask: UpdateAsk,
}

impl Part for Renewal {
    fn call(&mut self, rt: &impl Machine, row: Row<'_>, said: &mut Vec<u8>) {
        match row.text {
            "nothing" => {}
            "words" => self.ask.words = Validity::Good,
            "identity" => self.ask.identity = Identity::Own,
            "share_size" => self.ask.values[0] = Validity::Good,
            "shared_files" => self.ask.values[1] = Validity::Good,
            "nick" => self.ask.nick = Validity::Good,
            "account" => self.ask.account = Account::Untouched,
            "address" => self.ask.address = Address::Right,
            "size" => self.ask.size = Size::Fits,
            "nick_claim" => self.ask.nick_claim = Claim::Free,
            _ => unknown(rt, row.text),
        }
        say_check(rt, said, check_update(&self.ask));
    }
}

#[test]
fn checks_an_update_in_order(rt: HostRuntime) {
    let ask = UpdateAsk {
        words: Validity::Bad,
        identity: Identity::Foreign,
        values: [Validity::Bad; CHECKED],
        nick: Validity::Bad,
        account: Account::Touched,
        address: Address::Wrong([10, 0, 0, 1]),
        size: Size::TooMany,
        nick_claim: Claim::Taken,
    };
    rows! { rt, Renewal { ask }, r"
        mends nothing -> ISTA 140 Protocol\serror | words -> ISTA 143 INF\sfield\sbad FBID | identity -> ISTA 143 INF\sfield\sbad FBSS
        mends share_size -> ISTA 143 INF\sfield\sbad FBSF | shared_files -> ISTA 121 Invalid\snick | nick -> ISTA 125 Access\sdenied FCBINF
        mends account -> ISTA 146 Wrong\saddress I410.0.0.1 | address -> ISTA 140 Protocol\serror | size -> ISTA 122 Nick\staken | nick_claim -> Go
    " }
}

/// The questions that are asked once more at the entry.
#[derive(Drop)]
struct LastAsk;

impl Part for LastAsk {
    fn call(&mut self, rt: &impl Machine, row: Row<'_>, said: &mut Vec<u8>) {
        let (ban, taken) = pair(row.text, ' ');
        say_check(rt, said, check_entry(&entry(rt, ban, taken)));
    }
}

#[test]
fn checks_once_more_at_entry(rt: HostRuntime) {
    rows! { rt, LastAsk, r"
        asks ever both -> ISTA 231 Banned | 7 both -> ISTA 232 Banned TL7 | free both -> ISTA 222 Nick\staken
        asks free cid -> ISTA 224 CID\staken | free none -> Go
    " }
}
