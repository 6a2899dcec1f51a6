use crate::conversation::talk;

#[test]
fn a_hub_has_1_to_900_places_and_a_name(rt: HostRuntime) {
    talk! { rt, r"
        == no place
        with max_users 0
        the hub is refused Limit
        == too many places
        with max_users 901
        the hub is refused Limit
        == too many places, and no name
        with max_users 901
        with name
        the hub is refused Limit
        == no name
        with max_users 900
        with name
        the hub is refused Name
        == 900 connections
        with max_users 900
        for 1 to 900:
            user joins
        end
        eve is refused Full
    " }
}

#[test]
fn nine_hundred_users_enter(rt: HostRuntime) {
    // Each has heard three lines of the hub, and of each of the 900.
    talk! { rt, r"
        with max_users 900
        for 1 to 900:
            user joins
            user says HSUP ADBASE ADTIGR | BINF A<n> ID<n><36*A> PD<n><36*A> NI<n>
        end
        eve is refused Full
        #1 and #450 and #900 take 256 | 256 | 256 | 135
        #1 and #450 and #900 hear nothing
    " }
}

#[test]
fn identifiers_begin_again_behind_the_last_one(rt: HostRuntime) {
    talk! { rt, r"
        ana joins
        1048574 come and go
        bob joins
        bob says HSUP ADBASE ADTIGR -> ISUP ADBASE ADTIGR ADPING ADUCMD | ISID AAAC
    " }
}

#[test]
fn identifiers_begin_again_where_all_have_left(rt: HostRuntime) {
    talk! { rt, r"
        1048575 come and go
        ana joins
        ana says HSUP ADBASE ADTIGR -> ISUP ADBASE ADTIGR ADPING ADUCMD | ISID AAAB
    " }
}
