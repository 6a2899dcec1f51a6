use crate::conversation::talk;

#[test]
fn lines_reach_whom_they_are_for(rt: HostRuntime) {
    talk! { rt, r"
        == an echo reaches both
        ana and bob enter
        ana says EMSG AAAB AAAB hi -> only EMSG AAAB AAAB hi
        bob hears nothing
        ana says EMSG AAAB 7777 hi | DMSG AAAB 7777 hi
        ana and bob hear nothing
        ana says EMSG AAAB AAAC yo
        ana and bob hear only EMSG AAAB AAAC yo
        == a direct message reaches its target
        ana and bob enter
        ana says DMSG AAAB AAAC yo
        bob hears only DMSG AAAB AAAC yo
        ana hears nothing
        == a feature search reaches who has it
        ana and bob and cy enter
        ana says FSCH AAAB +TCP4-SEGA ANx TO1
        bob hears only FSCH AAAB +TCP4-SEGA ANx TO1
        ana and cy hear nothing
        ana says FSCH AAAB +TCP4 ANx TO2
        ana and bob hear only FSCH AAAB +TCP4 ANx TO2
        cy hears nothing
        == a feature search passes over who lacks it
        ana and bob and cy enter
        ana says FSCH AAAB +TCP4+SEGA ANx TO3 -> only FSCH AAAB +TCP4+SEGA ANx TO3
        bob and cy hear nothing
        ana says FSCH AAAB -TCP4 ANx TO4
        cy hears only FSCH AAAB -TCP4 ANx TO4
        ana and bob hear nothing
        == features that are given up count no more
        ana and bob and cy enter
        bob says BINF AAAC SU
        ana and bob and cy hear BINF AAAC SU
        ana says FSCH AAAB +TCP4 ANx TO5 -> only FSCH AAAB +TCP4 ANx TO5
        bob and cy hear nothing
        dee greets
        dee says BINF AAAE ID<P3> PD<P3> NIdee -> BINF AAAB ID<P0> NIana SS10 SF2 I4127.0.0.1 SUTCP4,SEGA | BINF AAAC ID<P1> NIbob SS5 SF1
    " }
}
