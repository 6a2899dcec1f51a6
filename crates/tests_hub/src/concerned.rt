use crate::conversation::play;

/// Conversations about whom a call concerned.
const CALLS: &str = r"
== whom messages concern
    ana and bob enter
    ana says BMSG AAAB hi
    all are concerned
    ana says DMSG AAAB AAAC hi
    bob is concerned
    bob says DMSG AAAC 7777 hi
    nobody is concerned
    ana says EMSG AAAB AAAC hi
    bob and ana are concerned
    ana says EMSG AAAB AAAB hi
    ana is concerned
    ana says FSCH AAAB +TCP4 ANx
    all are concerned
    ana says HMSG hi
    nobody is concerned
    ana says
    nobody is concerned
    ana says BMSG
    ana is concerned
    ana says BINF AAAB DEhi
    all are concerned
    ana says BINF AAAB PD<P0>
    nobody is concerned
    all take
    nobody is concerned
== whom comings and goings concern
    ana joins
    nobody is concerned
    ana says HSUP ADBASE ADTIGR
    ana is concerned
    ana says BINF AAAB ID<P0> PD<P0> NIana SS10 SF2 I40.0.0.0 SUTCP4,SEGA
    all are concerned
    bob joins
    bob is ended by HSUP ADBASE
    bob is concerned
    bob takes last 1
    nobody is concerned
    bob quits
    nobody is concerned
    bob2 enters BINF AAAD ID<P1> PD<P1> NIbob
    bob2 is ended by BMSG AAAB hi
    all are concerned
    bob2 quits
    nobody is concerned
    ana quits
    all are concerned
== whom acts concern
    with account op secret operator
    op joins
    op says HSUP ADBASE ADTIGR | BINF AAAB ID<P0> PD<P0> NIop
    op is concerned
    op says HPAS <secret>
    all are concerned
    bob enters
    op says HMSG !topic\snew
    all are concerned
    op says HMSG !unban\s<P2>
    op is concerned
    op says HMSG !kick\sbob
    all are concerned
";

#[test]
fn calls_concern_whom_they_reach(rt: HostRuntime) {
    play(&rt, CALLS);
}
