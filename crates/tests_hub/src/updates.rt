use crate::conversation::play;

/// Conversations of users who say something else of themselves.
const UPDATES: &str = r"
== an update goes to all
    ana and bob enter
    ana says BINF AAAB DEhi NIanna
    ana and bob hear only BINF AAAB DEhi NIanna
    cy greets
    cy says BINF AAAD ID<P2> PD<P2> NIcy -> BINF AAAB ID<P0> NIanna SS10 SF2 I4127.0.0.1 SUTCP4,SEGA DEhi
== a field that returns stands last
    ana enters
    ana says BINF AAAB DEhi NIanna | BINF AAAB SF | BINF AAAB SF7
    all take
    bob greets
    bob says BINF AAAC ID<P1> PD<P1> NIbob SS5 SF1 SUTCP4 -> BINF AAAB ID<P0> NIanna SS10 I4127.0.0.1 SUTCP4,SEGA DEhi SF7
== a bad update is refused
    ana and bob enter
    ana says BINF AAAB PD<P0>
    ana and bob hear nothing
    ana says BINF AAAB SSx -> ISTA 143 INF\sfield\sbad FBSS | BINF AAAB NIbob -> only ISTA 122 Nick\staken
    bob hears nothing
== a bad nick or address is refused
    ana and bob enter
    ana says BINF AAAB NIa\sb -> ISTA 121 Invalid\snick | BINF AAAB I410.0.0.1 -> only ISTA 146 Wrong\saddress I4127.0.0.1
    bob hears nothing
    cy greets
    cy says BINF AAAD ID<P2> PD<P2> NIcy -> BINF AAAB ID<P0> NIana SS10 SF2 I4127.0.0.1 SUTCP4,SEGA
== newcomers are told of all as they are
    ana and bob and cy enter
    bob says BINF AAAC DEhi
    ana says BINF AAAB NIanna
    ana quits
    all take
    dan greets
    dan says BINF AAAE ID<P3> PD<P3> NIdan -> BINF AAAC ID<P1> NIbob SS5 SF1 SUTCP4 DEhi | BINF AAAD ID<P2> NIcy | only BINF AAAE ID<P3> NIdan
    cy says BINF AAAD DEho
    bob says BINF AAAC DE SF2
    ana greets
    ana says BINF AAAF ID<P0> PD<P0> NIana -> BINF AAAC ID<P1> NIbob SS5 SF2 SUTCP4 | BINF AAAD ID<P2> NIcy DEho
    ana hears BINF AAAE ID<P3> NIdan | only BINF AAAF ID<P0> NIana
";

#[test]
fn users_change_what_they_say(rt: HostRuntime) {
    play(&rt, UPDATES);
}
