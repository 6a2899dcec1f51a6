use std::alloc::AllocGlobal;
use std::io::Print;
use std::process::Abort;

/// The machine of a test: it may stop the test, has memory, and shows lines.
pub trait Machine: Abort + AllocGlobal + Print {}

impl<R: Abort + AllocGlobal + Print> Machine for R {}

/// The first line of each client.
pub const GREETS: &str = "HSUP ADBASE ADTIGR";

/// The lines that answer it, but for the identifier that stands behind the second, and the topic behind the third.
pub const GREETED: [&str; 3] = [
    "ISUP ADBASE ADTIGR ADPING ADUCMD",
    "ISID ",
    r"IINF CT32 NIHub VEadc-hub\s1.0",
];

/// Gives the words by which one of the cast logs in, as they stand behind `BINF` and its identifier.
pub fn login_of(who: &str) -> Option<&'static str> {
    match who {
        "ana" => Some("ID<P0> PD<P0> NIana SS10 SF2 I40.0.0.0 SUTCP4,SEGA"),
        "bob" => Some("ID<P1> PD<P1> NIbob SS5 SF1 SUTCP4"),
        "cy" => Some("ID<P2> PD<P2> NIcy"),
        "op" => Some("ID<P0> PD<P0> NIop"),
        _ => None,
    }
}
