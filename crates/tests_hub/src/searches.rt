use crate::conversation::talk;

#[test]
fn searches_are_counted(rt: HostRuntime) {
    talk! { rt, r"
        == a search comes too soon
        with interval 10
        ana enters
        at 5 ana says BSCH AAAB ANx TO1 -> BSCH AAAB ANx TO1
        at 14 ana says BSCH AAAB ANx TO1 -> only ISTA 100 Search\stoo\ssoon
        at 15 ana says BSCH AAAB ANx TO1 -> only BSCH AAAB ANx TO1
        == a search at an earlier moment comes too soon
        with interval 10
        ana enters
        at 5 ana says BSCH AAAB ANx TO1 -> BSCH AAAB ANx TO1
        at 3 ana says BSCH AAAB ANx TO1 -> only ISTA 100 Search\stoo\ssoon
        at 15 ana says BSCH AAAB ANx TO1 -> BSCH AAAB ANx TO1
        at 16 ana says HSCH AAx
        ana hears nothing
        == large shares add up
        ana enters BINF AAAB ID<P0> PD<P0> NIana SS18446744073709551615
        bob enters BINF AAAC ID<P1> PD<P1> NIbob SS18446744073709551615
        cy joins
        cy says HSUP ADBASE ADTIGR ADPING -> ISUP ADBASE ADTIGR ADPING ADUCMD | ISID AAAD
        cy hears IINF CT32 NIHub VEadc-hub\s1.0 UC2 SS36893488147419103230 SF0 MC512 UP0
    " }
}
