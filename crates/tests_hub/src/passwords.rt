use crate::conversation::play;

/// Conversations with those who have accounts.
const PASSWORDS: &str = r"
== an operator enters
    with account op secret operator
    op greets
    op says BINF AAAB ID<P0> PD<P0> NIop -> only IGPA <39*A> | HPAS <secret> -> only BINF AAAB ID<P0> NIop CT4
== a wrong password ends it
    with account op secret operator
    op enters BINF AAAB ID<P0> PD<P0> NIop
    op is ended by HPAS <39*A> -> last ISTA 223 Invalid\spassword
== the first right password takes the nick
    with account op secret operator
    op and op2 join
    op and op2 say HSUP ADBASE ADTIGR
    all take
    op says BINF AAAB ID<P0> PD<P0> NIop -> IGPA <39*A>
    op2 says BINF AAAC ID<P1> PD<P1> NIop -> IGPA <39*A>
    op says HPAS <secret> -> BINF AAAB ID<P0> NIop CT4
    op2 is ended by HPAS <secret> -> last ISTA 222 Nick\staken
    op hears nothing
== only registered users are admitted
    with account op secret operator
    with registered_only
    ana greets
    ana is ended by BINF AAAB ID<P0> PD<P0> NIana -> last ISTA 226 Registered\susers\sonly
== a registered user enters
    with account reg secret
    reg greets
    reg says BINF AAAB ID<P0> PD<P0> NIreg -> IGPA <39*A> | HPAS <secret> -> only BINF AAAB ID<P0> NIreg CT2
== the nick of an account is not to be had later
    with account op secret operator
    ana enters
    ana says BINF AAAB NIop -> only ISTA 125 Access\sdenied FCBINF
== a password is awaited alone
    with account op secret operator
    op enters BINF AAAB ID<P0> PD<P0> NIop
    op says HSUP ADBASE -> only ISTA 144 Invalid\sstate FCHSUP
== a cid is taken before the password
    with account reg secret
    reg enters BINF AAAB ID<P1> PD<P1> NIreg
    bob enters
    reg is ended by HPAS <secret> -> last ISTA 224 CID\staken
    bob hears nothing
== a nick is taken before the password
    with account reg secret
    ana enters BINF AAAB ID<P0> PD<P0> NIreg
    bob enters BINF AAAC ID<P1> PD<P1> NIreg
    bob says HPAS <secret> -> BINF AAAC ID<P1> NIreg CT2
    ana is ended by HPAS <secret> -> last ISTA 222 Nick\staken
    bob hears nothing
";

#[test]
fn passwords_are_asked_for(rt: HostRuntime) {
    play(&rt, PASSWORDS);
}
