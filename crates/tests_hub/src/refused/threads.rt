use crate::refusal::*;
use crate::shared::guests::{ENTERS, hears, join_and_login, looks, open_for_two, says};
use crate::shared::refused::hears_it_once;

#[test]
fn a_line_to_three(rt: HostRuntime) {
    let (hall, mut host, mut ana, mut bob) = open_for_two(&rt, rt.alloc(), 3);
    let mut cy = join_and_login(&rt, &hall, host.admit(&hall.hub), ENTERS[2]);
    // The lines of the logins.
    hears(&rt, &hall, &mut ana);
    hears(&rt, &hall, &mut bob);
    hears(&rt, &hall, &mut cy);
    says(&rt, &hall, &mut ana, b"BMSG AAAB hi");
    hears_it_once(&rt, &hall, &mut ana);
    hears_it_once(&rt, &hall, &mut bob);
    hears_it_once(&rt, &hall, &mut cy);
    let look = looks(&rt, &hall, &mut cy);
    let is_right = look.stage == Stage::Normal && look.present == 3 && look.waiting == 0;
    holds(&rt, is_right, "another look");
    drop(host);
}
