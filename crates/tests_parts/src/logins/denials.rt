use super::say_denial;
use login_state::Deny;
use login_state::NamedField::{Id, Nick, PrivateId, ShareSize, SharedFiles};
use login_state::Severity::{Fatal, Recoverable};
use tests_support::Machine;

/// The denials, and the line by which a client is told of each.
const DENIALS: [(Deny, &str); 30] = [
    (Deny::Protocol, r"ISTA 140 Protocol\serror"),
    (Deny::WrongSid, r"ISTA 240 Wrong\sSID"),
    (Deny::BadStage(*b"BMSG"), r"ISTA 144 Invalid\sstate FCBMSG"),
    (Deny::NoBase, r"ISTA 245 Feature\smissing FCBASE"),
    (Deny::NoHash, r"ISTA 247 No\scommon\shash"),
    (Deny::Missing(Nick), r"ISTA 243 INF\sfield\smissing FMNI"),
    (Deny::Missing(Id), r"ISTA 243 INF\sfield\smissing FMID"),
    (
        Deny::BadField(Fatal, PrivateId),
        r"ISTA 243 INF\sfield\sbad FBPD",
    ),
    (Deny::BadPid, r"ISTA 227 Invalid\sPID"),
    (Deny::BadNick(Fatal), r"ISTA 221 Invalid\snick"),
    (Deny::BannedEver, "ISTA 231 Banned"),
    (Deny::BannedFor(1), "ISTA 232 Banned TL1"),
    (
        Deny::BannedFor(u64::MAX),
        "ISTA 232 Banned TL18446744073709551615",
    ),
    (
        Deny::Address(Fatal, [127, 0, 0, 1]),
        r"ISTA 246 Wrong\saddress I4127.0.0.1",
    ),
    (
        Deny::Address(Fatal, [255, 100, 9, 10]),
        r"ISTA 246 Wrong\saddress I4255.100.9.10",
    ),
    (Deny::Registered, r"ISTA 226 Registered\susers\sonly"),
    (Deny::NickTaken(Fatal), r"ISTA 222 Nick\staken"),
    (Deny::CidTaken, r"ISTA 224 CID\staken"),
    (Deny::Password, r"ISTA 223 Invalid\spassword"),
    (Deny::Access(*b"HMSG"), r"ISTA 125 Access\sdenied FCHMSG"),
    (Deny::SearchSoon, r"ISTA 100 Search\stoo\ssoon"),
    (Deny::BadCommand, r"ISTA 100 Bad\scommand"),
    (Deny::NoUser, r"ISTA 100 No\ssuch\suser"),
    (Deny::NoBan, r"ISTA 100 No\ssuch\sban"),
    (Deny::BansFull, r"ISTA 100 Ban\slist\sfull"),
    (
        Deny::BadField(Recoverable, ShareSize),
        r"ISTA 143 INF\sfield\sbad FBSS",
    ),
    (
        Deny::BadField(Recoverable, SharedFiles),
        r"ISTA 143 INF\sfield\sbad FBSF",
    ),
    (Deny::BadNick(Recoverable), r"ISTA 121 Invalid\snick"),
    (
        Deny::Address(Recoverable, [127, 0, 0, 1]),
        r"ISTA 146 Wrong\saddress I4127.0.0.1",
    ),
    (Deny::NickTaken(Recoverable), r"ISTA 122 Nick\staken"),
];

/// Stops the test unless a client is told of a denial by this line.
pub(crate) fn is_told(rt: &impl Machine, deny: Deny, line: &str) {
    let mut said = Vec::new(rt.alloc());
    say_denial(rt, &mut said, deny);
    assert!(rt; said.as_slice() == line.as_bytes(), "{line}");
}

#[test]
fn writes_each_denial(rt: HostRuntime) {
    for (deny, line) in DENIALS {
        is_told(&rt, deny, line);
    }
}
