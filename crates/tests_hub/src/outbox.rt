use crate::conversation::talk;

#[test]
fn a_full_outbox_gets_no_more(rt: HostRuntime) {
    talk! { rt, r"
        ana and bob and cy enter
        for 1 to 1025:
            ana says BMSG AAAB x
            ana and cy hear BMSG AAAB x
        end
        bob takes 256 BMSG AAAB x | 256 BMSG AAAB x | 256 BMSG AAAB x | last 256 BMSG AAAB x
        bob quits
        ana and cy hear IQUI AAAC
    " }
}

#[test]
fn an_outbox_holds_1_024_lines(rt: HostRuntime) {
    talk! { rt, r"
        ana and bob enter
        for 1 to 1024:
            ana says BMSG AAAB x -> BMSG AAAB x
        end
        bob takes 256 BMSG AAAB x | 256 BMSG AAAB x | 256 BMSG AAAB x | 256 BMSG AAAB x
        bob hears nothing
    " }
}

#[test]
fn an_outbox_holds_15_of_the_longest_lines(rt: HostRuntime) {
    talk! { rt, r"
        ana enters BINF AAAB ID<P0> PD<P0> NIana
        bob enters BINF AAAC ID<P1> PD<P1> NIbob
        for 1 to 16:
            ana says BMSG AAAB <65526*x> -> BMSG AAAB <65526*x>
        end
        bob takes last 15 BMSG AAAB <65526*x>
    " }
}

#[test]
fn an_outbox_holds_1_048_576_bytes(rt: HostRuntime) {
    talk! { rt, r"
        ana enters BINF AAAB ID<P0> PD<P0> NIana
        bob enters BINF AAAC ID<P1> PD<P1> NIbob
        for 1 to 1024:
            ana says BMSG AAAB <1013*x> -> BMSG AAAB <1013*x>
        end
        bob takes 256 BMSG AAAB <1013*x> | 256 BMSG AAAB <1013*x> | 256 BMSG AAAB <1013*x> | 256 BMSG AAAB <1013*x>
    " }
}

#[test]
fn a_list_of_users_that_does_not_fit_is_not_given(rt: HostRuntime) {
    // The seventeenth would be told of 17 times 65,000 bytes, more than 1,048,576. It is present all the same, and the others hear it.
    talk! { rt, r"
        for 1 to 16:
            user enters BINF A<n> ID<n><36*A> PD<n><36*A> NI<n> DE<64898*x>
        end
        ana joins
        ana says HSUP ADBASE ADTIGR | BINF AAAR IDAAR<36*A> PDAAR<36*A> NIAAR DE<64898*x>
        ana takes last 3
        #1 hears BINF AAAR IDAAR<36*A> NIAAR DE<64898*x>
        ana says BMSG AAAR hello
        #1 hears BMSG AAAR hello
        #16 takes 2
        ana hears no more
    " }
}
