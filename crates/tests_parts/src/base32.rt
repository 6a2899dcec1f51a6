use crate::rows::*;
use adc_base32::{B32, Sid, decode, decode24, encode, encode24};

/// Identifiers and bytes in base32.
#[derive(Drop)]
pub(crate) struct Base32;

impl Part for Base32 {
    fn call(&mut self, rt: &impl Machine, row: Row<'_>, said: &mut Vec<u8>) {
        match row.name {
            "sid" => match Sid::from_u32(small(rt, row.text)) {
                Some(sid) => say_bytes(rt, said, &sid.text()),
                None => say_any(rt, said, None),
            },
            "number" => match Sid::parse(row.bytes) {
                Some(sid) => say_number(rt, said, sid.number() as u128),
                None => say_any(rt, said, None),
            },
            "next" => next(rt, row.text, said),
            "encode" => encoded(rt, row.bytes, said),
            "decode" => decoded(rt, row.text, said),
            "encode24" => encoded24(rt, row.bytes, said),
            "decode24" => match decode24(row.bytes) {
                Ok(bytes) => say_bytes(rt, said, &bytes),
                Err(fault) => say_shown(rt, said, &fault),
            },
            _ => unknown(rt, row.name),
        }
    }
}

/// Says the next identifier after a number where those from a number up to another are taken.
fn next(rt: &impl Machine, text: &str, said: &mut Vec<u8>) {
    let (last, range) = pair(text, ' ');
    let (from, to) = pair(range, ' ');
    let last = small(rt, last);
    let taken = sids_between(rt, rt.alloc(), small(rt, from), small(rt, to));
    if last > 1_048_575 || taken.len() > 1_048_574 {
        unknown(rt, text);
    }
    say_number(rt, said, Sid::next_free(last, &taken).number() as u128);
}

pub(crate) fn sid(rt: &impl Abort, number: u32) -> Sid {
    Sid::from_u32(number).expect(rt, "a number of an identifier")
}

fn sids_between(rt: &impl Abort, alloc: Global, from: u32, to: u32) -> Vec<Sid> {
    let mut taken = Vec::new(alloc);
    for number in from..to {
        tests_support::push(&mut taken, sid(rt, number)).expect(rt, "refused twice");
    }
    taken
}

fn encoded(rt: &impl Machine, bytes: &[u8], said: &mut Vec<u8>) {
    let text = got!(rt; "adc_base32::encode", B32::Memory, encode(rt.alloc(), bytes));
    say_bytes(rt, said, text.as_bytes());
}

fn decoded(rt: &impl Machine, text: &str, said: &mut Vec<u8>) {
    let (count, digits) = pair(text, ' ');
    let (count, digits) = (number(rt, count) as usize, digits.as_bytes());
    match twice!(rt; "adc_base32::decode", B32::Memory, decode(rt.alloc(), digits, count)) {
        Ok(bytes) => say_bytes(rt, said, &bytes),
        Err(fault) => say_shown(rt, said, &fault),
    }
}

fn encoded24(rt: &impl Abort, bytes: &[u8], said: &mut Vec<u8>) {
    let bytes = twenty_four(bytes).expect(rt, "24 bytes");
    say_bytes(rt, said, &encode24(&bytes));
}

#[test]
fn identifiers_and_bytes_are_spelled(rt: HostRuntime) {
    rows! { rt, Base32, "
        == spells identifiers ==
        // The first, one past a digit, and the last.
        sid 0 -> AAAA | 1 -> AAAB | 33 -> AABB | 1048575 -> 7777 | 1048576 -> none
        number AAAA -> 0 | AAAB -> 1 | AABB -> 33 | 7777 -> 1048575
        == refuses what is no identifier ==
        number <> | AAA | AAAAA | aaab | AA1A | AA8A | AAA= | AAA<x20> -> none
        == spells bytes ==
        // The test vectors of RFC 4648, section 10, without padding; a password; the highest bits.
        encode <> -> <> | f -> MY | fo -> MZXQ | foo -> MZXW6 | foob -> MZXW6YQ | fooba -> MZXW6YTB | foobar -> MZXW6YTBOI
        encode secre -> ONSWG4TF | <6*xff> -> 7777777774
        decode 0 <> -> <> | 1 MY -> f | 2 MZXQ -> fo | 3 MZXW6 -> foo | 4 MZXW6YQ -> foob | 5 MZXW6YTB -> fooba | 6 MZXW6YTBOI -> foobar
        decode 5 ONSWG4TF -> secre | 6 7777777774 -> <6*xff>
        == names the first fault ==
        decode 1 AAA | 0 A | 1 <> | 2 11 | 18446744073709551615 AA -> Length | 1 A1 | 1 a1 | 1 1B | 1 A= -> Digit
        decode 1 AB | 2 AAAB | 3 AAAAB | 4 AAAAAAB -> LowBits
        == reads 24 bytes ==
        decode24 <39*A> -> <24*x00> | <38*A>Y -> <23*x00><x03> | <39*7> -> LowBits | <38*7>Y -> <24*xff> | <38*A>B -> LowBits
        decode24 <37*A>1B -> Digit | <38*A> | <> -> Length
        == spells 24 bytes ==
        encode24 <24*x00> -> <39*A> | <23*x00><x03> -> <38*A>Y | <24*xff> -> <38*7>Y | <4*foobar> -> MZXW6YTBOJTG633CMFZGM33PMJQXEZTPN5RGC4Q
        == gives the next identifier ==
        // Taken are the numbers from the second up to the third, and identifier 0.
        next 0 1 1 -> 1 | 33 1 1 -> 34 | 1048575 1 2 -> 2 | 1048575 1 1 -> 1 | 1048574 1 1 -> 1048575 | 1048574 1048575 1048576 -> 1
        next 0 1 901 -> 901 | 0 2 901 -> 1 | 500 501 1401 -> 1401 | 0 1 2051 -> 2051 | 1048000 1047000 1048576 | 0 0 0 -> 1
    " }
}
