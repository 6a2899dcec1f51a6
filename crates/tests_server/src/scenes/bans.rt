// A ban ends by the clock of the server, which moves on between its calls.
use crate::run::Way;
use crate::scenes::{BOTH_LEAVE, OPERATOR_AND_BOB_ENTER, warns};

const FOR_THREE: &str =
    "listen = \"127.0.0.1:0\"\nhash = \"first24\"\nstop_after = 3\nmax_users = 4\n\
[[account]]\nnick = \"op\"\npassword = \"sesame\"\noperator = true\n";

const THREE_JOINED: &[u8] = b"\njoins 3 present 0\n";

/// Bob is banned for a second, and comes again after it.
const BAN: &str = "\
ana says HMSG !ban\\sbob\\s1
bob hears IQUI AAAC IDAAAB TL1
bob hears the end
ana hears IQUI AAAC IDAAAB TL1 | ISTA 000 Done
a second passes
bob is greeted AAAD
bob says BINF AAAD ID<P1> PD<P1> NIbob -> BINF AAAB ID<P0> NIop CT4
bob and ana hear BINF AAAD ID<P1> NIbob
";

#[test]
fn a_ban_of_a_second_ends(rt: HostRuntime) {
    let parts = [OPERATOR_AND_BOB_ENTER, BAN, BOTH_LEAVE];
    warns(&rt, FOR_THREE, Way::AsSet, &parts, THREE_JOINED, b"");
}
