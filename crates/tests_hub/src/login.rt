use crate::conversation::play;

/// Conversations of those who log in.
const LOGINS: &str = r"
== a user enters
    ana is greeted AAAB
    ana says BINF AAAB ID<P0> PD<P0> NIana SS10 SF2 I40.0.0.0 SUTCP4,SEGA -> only BINF AAAB ID<P0> NIana SS10 SF2 I4127.0.0.1 SUTCP4,SEGA
== two users enter
    ana enters
    bob joins
    bob says HSUP ADBASE ADTIGR | BINF AAAC ID<P1> PD<P1> NIbob SS5 SF1 SUTCP4 -> ISUP ADBASE ADTIGR ADPING ADUCMD | ISID AAAC
    bob hears IINF CT32 NIHub VEadc-hub\s1.0 | BINF AAAB ID<P0> NIana SS10 SF2 I4127.0.0.1 SUTCP4,SEGA | only BINF AAAC ID<P1> NIbob SS5 SF1 SUTCP4
    ana hears only BINF AAAC ID<P1> NIbob SS5 SF1 SUTCP4
== a usual client enters
    ana greets
    ana says BINF AAAB ID<P0> PD<P0> NIana SL3 SS0 SF0 HN1 HR0 HO0 VEx\s1 US65536 I40.0.0.0 SUSEGA,ADC0,TCP4,UDP4 U41412
    ana hears only BINF AAAB ID<P0> NIana SL3 SS0 SF0 HN1 HR0 HO0 VEx\s1 US65536 I4127.0.0.1 SUSEGA,ADC0,TCP4,UDP4 U41412
== nicks are compared in normal form
    ana enters BINF AAAB ID<P0> PD<P0> NI<xc3><xa9>
    bob greets
    bob is ended by BINF AAAC ID<P1> PD<P1> NIe<xcc><x81> -> last ISTA 222 Nick\staken
    ana hears nothing
== totals are told to who asks
    ana enters
    bob joins
    at 90 bob says HSUP ADBASE ADTIGR ADPING -> ISUP ADBASE ADTIGR ADPING ADUCMD | ISID AAAC
    bob hears only IINF CT32 NIHub VEadc-hub\s1.0 UC1 SS10 SF2 MC512 UP90
== a text of the menu is sent
    with menu Help 1 text HMSG !help<x0a>
    ana joins
    ana says HSUP ADBAS0 ADTIGR ADUCM0 ADZLIF
    all take
    ana says BINF AAAB ID<P0> PD<P0> NIana SS10 SF2 I40.0.0.0 SUTCP4,SEGA
    ana hears BINF AAAB ID<P0> NIana SS10 SF2 I4127.0.0.1 SUTCP4,SEGA | only ICMD Help CT1 TTHMSG\s!help\n
== a separator of the menu is sent
    with menu Sep 2 separator
    ana joins
    ana says HSUP ADBAS0 ADTIGR ADUCM0 ADZLIF
    all take
    ana says BINF AAAB ID<P0> PD<P0> NIana SS10 SF2 I40.0.0.0 SUTCP4,SEGA
    ana hears BINF AAAB ID<P0> NIana SS10 SF2 I4127.0.0.1 SUTCP4,SEGA | only ICMD Sep CT2 SP1
== a cid that is taken is refused
    ana enters
    bob greets
    bob is ended by BINF AAAC ID<P0> PD<P0> NIbob -> last ISTA 224 CID\staken
    ana hears nothing
== a bad login is refused
    ana greets
    ana is ended by <line> -> last <answer>
    each:
    BINF AAAB ID<P1> PD<P0> NIa\sb -> ISTA 227 Invalid\sPID
    BINF AAAB ID<P0> PD<P0> NIa\sb -> ISTA 221 Invalid\snick
    BINF AAAB ID<P0> PD<P0> -> ISTA 243 INF\sfield\smissing FMNI
    BINF AAAB ID<P0> PD<P0> NIana SSx -> ISTA 243 INF\sfield\sbad FBSS
    BINF AAAB ID<P0> PD<P0> NIana I410.0.0.1 -> ISTA 246 Wrong\saddress I4127.0.0.1
";

#[test]
fn users_log_in(rt: HostRuntime) {
    play(&rt, LOGINS);
}
