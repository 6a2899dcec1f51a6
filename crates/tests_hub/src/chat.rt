use crate::conversation::play;

/// Conversations of users who have entered.
const CHAT: &str = r"
== what is no line is refused
    ana enters
    ana says
    ana hears nothing
    ana says BMSG AAAB  hi -> ISTA 140 Protocol\serror | BMSG AAAB a\xb -> ISTA 140 Protocol\serror | BMSG AAAB <xff> -> only ISTA 140 Protocol\serror
== who writes for another leaves
    ana and bob enter
    ana is ended by BMSG AAAC hi -> last ISTA 240 Wrong\sSID
    bob hears only IQUI AAAB
== chat before the login is refused
    ana greets
    ana says BMSG AAAB hi -> only ISTA 144 Invalid\sstate FCBMSG
== an unknown command goes to all
    ana and bob enter
    ana says DINF AAAB AAAC NIx -> ISTA 140 Protocol\serror | CSUP ADBASE -> ISTA 140 Protocol\serror
    bob hears nothing
    ana says BXYZ AAAB 1
    ana and bob hear only BXYZ AAAB 1
== unusual lines go out unchanged
    ana and bob enter
    ana says BMSG AAAB
    ana and bob hear BMSG AAAB
    ana says BM1G AAAB x
    ana and bob hear BM1G AAAB x
    ana says BMSG AAAB hi<x0d>
    ana and bob hear only BMSG AAAB hi<x0d>
== a needed feature cannot be given up
    ana and bob enter
    ana is ended by HSUP RMTIGR -> last ISTA 247 No\scommon\shash
    bob hears only IQUI AAAB
== words to the hub go nowhere
    ana and bob enter
    ana says HMSG hello | HMSG | HSTA 000 ok | FMSG AAAB +SEGA-SEGA x
    ana and bob hear nothing
== a malformed line reaches nobody
    ana and bob enter
    ana says <line> -> only <answer>
    bob hears nothing
    each:
    BMSG | BMSG AAA | BMSG AAAB<x20> | bMSG AAAB hi | BMSG aaab hi | FSCH AAAB ANx | FSCH AAAB +TCP ANx | DMSG AAAB -> ISTA 140 Protocol\serror
    UMSG ABC hi | EMSG AAAB AAAC \ | <x20> -> ISTA 140 Protocol\serror
";

#[test]
fn users_chat(rt: HostRuntime) {
    play(&rt, CHAT);
}
