use crate::conversation::play;

/// First words of clients, and what is answered.
const FIRST_WORDS: &str = r"
== a client is greeted
    ana joins
    ana hears nothing
    ana says HSUP ADBASE ADTIGR -> ISUP ADBASE ADTIGR ADPING ADUCMD | ISID AAAB | only IINF CT32 NIHub VEadc-hub\s1.0
    ana says HSUP ADBASE ADTIGR -> ISTA 144 Invalid\sstate FCHSUP
    ana says HSTA 000 ok
    ana hears nothing
== early names of features count
    ana joins
    ana says HSUP RMBASE ADBAS0 ADUCM0 ADTIGR ADZLIF RMZLIF -> ISUP ADBASE ADTIGR ADPING ADUCMD
== name and topic are escaped
    with name A hub
    with topic one<x0a>two \
    ana joins
    ana says HSUP ADBASE ADTIGR -> ISUP ADBASE ADTIGR ADPING ADUCMD | ISID AAAB | IINF CT32 NIA\shub VEadc-hub\s1.0 DEone\ntwo\s\\
== who writes for another is shut out
    ana joins
    ana is ended by BMSG AAAC hi -> last ISTA 240 Wrong\sSID
== places are given again
    with max_users 2
    ana and bob join
    eve is refused Full
    ana quits
    cy joins
    eve is refused Full
    cy says HSUP ADBASE ADTIGR -> ISUP ADBASE ADTIGR ADPING ADUCMD | ISID AAAD
    bob hears nothing
== who lacks a feature is shut out
    ana joins
    ana is ended by <line> -> last <answer>
    ana is ended by HSUP ADBASE ADTIGR
    ana hears no more
    ana quits
    each:
    HSUP ADBASE -> ISTA 247 No\scommon\shash
    HSUP ADTIGR | HSUP -> ISTA 245 Feature\smissing FCBASE
    HSUP ADBASE ADTIGR RMTIGR -> ISTA 247 No\scommon\shash
== what is wrong is refused and loses nothing
    ana joins
    bob enters
    ana says
    ana hears nothing
    ana says <line> -> only <answer> | HSUP ADBASE ADTIGR -> ISUP ADBASE ADTIGR ADPING ADUCMD
    bob hears nothing
    each:
    HSUP  ADBASE | HSUP ADBASE TIGR | HSUP ADBASE adTIGR | CSUP ADBASE ADTIGR | HSUP ADBASE <xff> | hsup ADBASE ADTIGR -> ISTA 140 Protocol\serror
    HMSG hi -> ISTA 144 Invalid\sstate FCHMSG
    BMSG AAAB hi -> ISTA 144 Invalid\sstate FCBMSG
";

#[test]
fn first_words_are_answered(rt: HostRuntime) {
    play(&rt, FIRST_WORDS);
}
