use crate::conversation::{play, talk};

/// Conversations about who is banned, and for how long.
const BANS: &str = r"
== a ban runs out
    with account op secret operator
    op and bob enter
    at 100 op says HMSG !ban\sbob\s60 -> IQUI AAAC IDAAAB TL60 | ISTA 000 Done
    bob hears last IQUI AAAC IDAAAB TL60
    bob2 and bob3 join
    bob2 and bob3 say HSUP ADBASE ADTIGR
    all take
    at 159 bob2 is ended by BINF AAAD ID<P1> PD<P1> NIbob -> last ISTA 232 Banned TL1
    at 160 bob3 says BINF AAAE ID<P1> PD<P1> NIbob
    op hears only BINF AAAE ID<P1> NIbob
== a ban for good
    with account op secret operator
    op and bob enter
    at 100 op says HMSG !ban\sbob\s0 -> IQUI AAAC IDAAAB TL-1 | ISTA 000 Done
    bob2 greets
    at 160 bob2 is ended by BINF AAAD ID<P1> PD<P1> NIbob -> last ISTA 231 Banned
== a ban holds after the password
    with account op secret operator
    with account reg secret
    op enters
    reg enters BINF AAAC ID<P1> PD<P1> NIreg
    bob enters BINF AAAD ID<P1> PD<P1> NIbob
    op says HMSG !ban\sbob\s0
    reg is ended by HPAS <secret> -> last ISTA 231 Banned
== a ban for a time holds after the password
    with account op secret operator
    with account reg secret
    op enters
    reg enters BINF AAAC ID<P1> PD<P1> NIreg
    bob enters BINF AAAD ID<P1> PD<P1> NIbob
    at 100 op says HMSG !ban\sbob\s60 -> IQUI AAAD IDAAAB TL60 | ISTA 000 Done
    at 130 reg is ended by HPAS <secret> -> last ISTA 232 Banned TL30
    op hears nothing
";

#[test]
fn bans_hold(rt: HostRuntime) {
    play(&rt, BANS);
}

#[test]
fn no_more_than_1_024_are_banned(rt: HostRuntime) {
    talk! { rt, r"
        with account op secret operator
        op enters BINF AAAB ID<P0> PD<P0> NIop
        op says HPAS <secret>
        op takes 1
        for 2 to 1025:
            bob joins
            bob says HSUP ADBASE ADTIGR | BINF A<n> ID<n><36*A> PD<n><36*A> NIbob
            op says HMSG !ban\sbob\s1
            op takes 3
            bob quits
        end
        bob enters BINF ABAC IDBAC<36*A> PDBAC<36*A> NIbob
        op says HMSG !ban\sbob\s1 -> ISTA 100 Ban\slist\sfull
        bob hears nothing
        cy joins
        cy says HSUP ADBASE ADTIGR
        at 1 cy says BINF ABAD IDAAC<36*A> PDAAC<36*A> NIcy
        all take
        at 1 op says HMSG !ban\scy\s5 -> IQUI ABAD IDAAAB TL5 | ISTA 000 Done
        bob hears IQUI ABAD IDAAAB TL5
    " }
}
