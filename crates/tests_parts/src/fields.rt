use crate::rows::*;
use inf_fields::{
    FieldName, Fields, InfFault, Update, dotted_decimal, is_bad_number, merging_laws, shared_amount,
};

/// The words that a user says, and the fields that are known of the user.
#[derive(Drop)]
pub(crate) struct User {
    fields: Fields,
}

// Each of these calls knows few words: a body that tells many apart is dear to prove.

impl Part for User {
    fn call(&mut self, rt: &impl Machine, row: Row<'_>, said: &mut Vec<u8>) {
        match row.name {
            "merge" => merge(rt, &mut self.fields, row.text, said),
            "fits" => say_whether(rt, said, self.fields.fits(&update(rt, row.text))),
            "print" => say_fields(rt, said, &self.fields),
            "get" => say_value(rt, said, self.fields.get(field(rt, row.text))),
            _ => say_of_words(rt, row, said),
        }
    }
}

/// Makes a call that needs no user.
fn say_of_words<R: Machine>(rt: &R, row: Row<'_>, said: &mut Vec<u8>) {
    match row.name {
        "name" => say_name(rt, said, row.bytes),
        "known" => say_bytes(rt, said, &field(rt, row.text).bytes()),
        "dotted" => say_dotted(rt, row.text, said),
        "amount" => match shared_amount(row.text) {
            Some(amount) => say_number(rt, said, amount as u128),
            None => say_any(rt, said, None),
        },
        _ => say_of_update(rt, row.name, row.text, said),
    }
}

/// Makes a call on the update that a line says.
fn say_of_update<R: Machine>(rt: &R, name: &str, line: &str, said: &mut Vec<u8>) {
    match name {
        "read" => match read(rt, line) {
            Ok(update) => say_update(rt, said, &update),
            Err(fault) => say_shown(rt, said, &fault),
        },
        "pass" => say_update(rt, said, &clean(rt, line, [127, 0, 0, 1])),
        "pass_10.0.0.1" => say_update(rt, said, &clean(rt, line, [10, 0, 0, 1])),
        _ => say_told(rt, name, line, said),
    }
}

/// Says what an update tells of its numbers, or of a field.
fn say_told(rt: &impl Machine, name: &str, line: &str, said: &mut Vec<u8>) {
    let update = update(rt, line);
    match name {
        "bad_share_size" => say_bad(rt, said, update.get(FieldName::share_size())),
        "bad_shared_files" => say_bad(rt, said, update.get(FieldName::shared_files())),
        _ => say_value(rt, said, update.get(field(rt, name))),
    }
}

/// Says whether a field that is to be a number is there and is none.
fn say_bad(rt: &impl Abort, said: &mut Vec<u8>, value: Option<&str>) {
    say_whether(rt, said, is_bad_number(value.unwrap_or("")));
}

pub(crate) fn say_fields(rt: &impl Machine, said: &mut Vec<u8>, fields: &Fields) {
    say(rt, said, &print_fields(rt, fields));
}

/// Reads the update that the words of a line say; a line without letters has no words.
fn read(rt: &impl Machine, line: &str) -> Result<Update, InfFault> {
    if line.is_empty() {
        return read_words(rt, &[]);
    }
    read_words(rt, &again!(rt; words_of(rt.alloc(), line)))
}

fn words_of<'a>(alloc: Global, line: &'a str) -> Result<Vec<&'a str>, AllocError> {
    line.split(' ').collect(alloc)
}

fn read_words(rt: &impl Machine, words: &[&str]) -> Result<Update, InfFault> {
    twice!(rt; "inf_fields::Update::read", InfFault::Memory, read_once(rt.alloc(), words))
}

// What these calls promise would be carried through each body that makes them: so each stands alone.

fn read_once(alloc: Global, words: &[&str]) -> Result<Update, InfFault> {
    Update::read(alloc, words)
}

fn print_once(alloc: Global, update: &Update) -> Result<String, InfFault> {
    update.print(alloc)
}

fn clean_once(alloc: Global, update: &Update, peer: [u8; 4]) -> Result<Update, InfFault> {
    update.clean(alloc, peer)
}

/// Reads an update that is one.
pub(crate) fn update(rt: &impl Machine, line: &str) -> Update {
    read(rt, line).expect(rt, "an update")
}

fn say_update(rt: &impl Machine, said: &mut Vec<u8>, update: &Update) {
    let call = "inf_fields::Update::print";
    let text = got!(rt; call, InfFault::Memory, print_once(rt.alloc(), update));
    assert!(rt; update.is_empty() == text.is_empty(), "print");
    say(rt, said, &text);
}

/// Makes the update that a line says, as it is passed on from an address.
fn clean(rt: &impl Machine, line: &str, peer: [u8; 4]) -> Update {
    let update = update(rt, line);
    got!(rt; "inf_fields::Update::clean", InfFault::Memory, clean_once(rt.alloc(), &update, peer))
}

fn print_fields(rt: &impl Machine, fields: &Fields) -> String {
    got!(rt; "inf_fields::Fields::print", InfFault::Memory, fields.print(rt.alloc()))
}

/// Names the field that is told by what it is for.
fn field(rt: &impl Abort, told: &str) -> FieldName {
    match told {
        "nick" => FieldName::nick(),
        "support" => FieldName::support(),
        "share_size" => FieldName::share_size(),
        "shared_files" => FieldName::shared_files(),
        "id" => FieldName::id(),
        "address" => FieldName::address(),
        "private_id" => FieldName::private_id(),
        _ => unknown(rt, told),
    }
}

fn say_value(rt: &impl Abort, said: &mut Vec<u8>, value: Option<&str>) {
    match value {
        Some(value) => {
            say(rt, said, "is ");
            say(rt, said, value);
        }
        None => say_any(rt, said, None),
    }
}

fn say_name(rt: &impl Abort, said: &mut Vec<u8>, bytes: &[u8]) {
    let [one, other] = bytes else {
        unknown(rt, "name")
    };
    match FieldName::new([*one, *other]) {
        Some(name) => say_bytes(rt, said, &name.bytes()),
        None => say_any(rt, said, None),
    }
}

/// Says the address that four numbers with blanks between tell.
fn say_dotted(rt: &impl Machine, text: &str, said: &mut Vec<u8>) {
    let mut peer = [0; 4];
    for (number, told) in peer.iter_mut().zip(text.split(' ')) {
        *number = byte(rt, told);
    }
    let call = "inf_fields::dotted_decimal";
    let text = got!(rt; call, AllocError, dotted_decimal(rt.alloc(), peer));
    say(rt, said, &text);
}

/// Merges a line, cleaned for 127.0.0.1, and tells what is known then. Where it is refused all is as before.
fn merge(rt: &impl Machine, fields: &mut Fields, line: &str, said: &mut Vec<u8>) {
    let update = clean(rt, line, [127, 0, 0, 1]);
    let before = print_fields(rt, fields);
    let fits = fields.fits(&update);
    let answer = twice!(rt; "inf_fields::Fields::merge", InfFault::Memory,
        print_fields(rt, fields), merge_once(fields, &update));
    assert!(rt; fits == answer.is_ok(), "fits");
    match answer {
        Ok(()) => say_fields(rt, said, fields),
        Err(fault) => {
            let same = print_fields(rt, fields) == before;
            assert!(rt; same, "a refusal changed something");
            say_shown(rt, said, &fault);
        }
    }
}

fn merge_once(fields: &mut Fields, update: &Update) -> Result<(), InfFault> {
    fields.merge(update)
}

/// Gives what is known of a user who said a line.
pub(crate) fn fields_of_line(rt: &impl Machine, line: &str) -> Fields {
    let update = update(rt, line);
    let mut fields = Fields::new(rt.alloc());
    again!(rt; merge_once(&mut fields, &update));
    fields
}

pub(crate) fn play_user<R: Machine>(rt: &R, rows: &str) {
    let fields = Fields::new(rt.alloc());
    play(rt, &mut User { fields }, rows);
}

#[test]
fn what_users_say_is_read(rt: HostRuntime) {
    rows! { play_user(rt) r"
        == fills the address in and keeps the private identifier ==
        pass IDAAA PDAAA NIana SS10 SF2 I40.0.0.0 SUTCP4,SEGA -> <x20>IDAAA NIana SS10 SF2 I4127.0.0.1 SUTCP4,SEGA
        pass IDAAA PDAAA NIana SL3 SS0 SF0 HN1 HR0 HO0 VEx\s1 US65536 I40.0.0.0 SUSEGA,ADC0,TCP4,UDP4 U41412 -> <x20>IDAAA NIana SL3 SS0 SF0 HN1 HR0 HO0 VEx\s1 US65536 I4127.0.0.1 SUSEGA,ADC0,TCP4,UDP4 U41412
        pass SU -> <x20>SU | CT4 NIop I6::1 U61412 CT2 -> <x20>NIop | I410.0.0.1 -> <x20>I410.0.0.1 | I4 -> <x20>I4
        pass I40.0.0.00 DE0.0.0.0 -> <x20>I40.0.0.00 DE0.0.0.0 | PDAAA -> <>
        == keeps the first place and the last value ==
        read NIa SS1 NIb -> <x20>NIb SS1 | SU SUTCP4 SU -> <x20>SU | X0 A1b X0c A1 Z9 -> <x20>X0c A1 Z9
        read DE<xc3><xa9>\s<xf0><x9f><x98><x80> -> <x20>DE<xc3><xa9>\s<xf0><x9f><x98><x80>
        == needs no words ==
        read <> -> <>
        == tells what was said ==
        nick NIana SU SS5 NIanna -> is anna
        support NIana SU SS5 NIanna -> is <>
        share_size NIana SU SS5 NIanna -> is 5
        shared_files NIana SU SS5 NIanna -> none
        == tells bad numbers ==
        bad_share_size NIana SS5 SF18446744073709551615 -> no | NIana SS SF -> no | NIana -> no | SS5x SF1 -> yes
        bad_share_size SS5 SF18446744073709551616 -> no | SF-1 SSx -> yes
        bad_shared_files NIana SS5 SF18446744073709551615 -> no | NIana SS SF -> no | NIana -> no | SS5x SF1 -> no
        bad_shared_files SS5 SF18446744073709551616 -> yes | SF-1 SSx -> yes
        == refuses words without names ==
        read NIana<x20> | NIana N | NIana nI | NIana Ni | NIana 1I | NIana N- | NIana <xc3><xa9> | NIana N<xc3><xa9>x -> BadName
        read NIana ni\s -> BadName
        == takes forty names ==
        read A0 A1 A2 A3 A4 A5 A6 A7 A8 A9 B0 B1 B2 B3 B4 B5 B6 B7 B8 B9 C0 C1 C2 C3 C4 C5 C6 C7 C8 C9 D0 D1 D2 D3 D4 D5 D6 D7 D8 D9 -> <x20>A0 A1 A2 A3 A4 A5 A6 A7 A8 A9 B0 B1 B2 B3 B4 B5 B6 B7 B8 B9 C0 C1 C2 C3 C4 C5 C6 C7 C8 C9 D0 D1 D2 D3 D4 D5 D6 D7 D8 D9
        read A0 A1 A2 A3 A4 A5 A6 A7 A8 A9 B0 B1 B2 B3 B4 B5 B6 B7 B8 B9 C0 C1 C2 C3 C4 C5 C6 C7 C8 C9 D0 D1 D2 D3 D4 D5 D6 D7 D8 D9 A0x D9 -> <x20>A0x A1 A2 A3 A4 A5 A6 A7 A8 A9 B0 B1 B2 B3 B4 B5 B6 B7 B8 B9 C0 C1 C2 C3 C4 C5 C6 C7 C8 C9 D0 D1 D2 D3 D4 D5 D6 D7 D8 D9
        read A0 A1 A2 A3 A4 A5 A6 A7 A8 A9 B0 B1 B2 B3 B4 B5 B6 B7 B8 B9 C0 C1 C2 C3 C4 C5 C6 C7 C8 C9 D0 D1 D2 D3 D4 D5 D6 D7 D8 D9 A0x E0 -> TooMany
        read A0 A1 A2 A3 A4 A5 A6 A7 A8 A9 B0 B1 B2 B3 B4 B5 B6 B7 B8 B9 C0 C1 C2 C3 C4 C5 C6 C7 C8 C9 D0 D1 D2 D3 D4 D5 D6 D7 D8 D9 E0 e0 -> BadName
    " }
}

#[test]
fn what_users_say_is_kept(rt: HostRuntime) {
    rows! { play_user(rt) r"
        == merges what ana says ==
        merge IDAAA PDAAA NIana SS10 SF2 I40.0.0.0 SUTCP4,SEGA -> <x20>IDAAA NIana SS10 SF2 I4127.0.0.1 SUTCP4,SEGA
        merge DEhi NIanna -> <x20>IDAAA NIanna SS10 SF2 I4127.0.0.1 SUTCP4,SEGA DEhi | SF EM -> <x20>IDAAA NIanna SS10 I4127.0.0.1 SUTCP4,SEGA DEhi
        merge SF7 | PDAAA CT4 -> <x20>IDAAA NIanna SS10 I4127.0.0.1 SUTCP4,SEGA DEhi SF7
        get id -> is AAA | nick -> is anna | address -> is 127.0.0.1 | private_id -> none
        == forgets what bob takes back ==
        merge IDIII PDIII NIbob SS5 SF1 SUTCP4 -> <x20>IDIII NIbob SS5 SF1 SUTCP4 | SU -> <x20>IDIII NIbob SS5 SF1
        get support -> none
        == holds forty fields ==
        merge ID1 NI1 SS1 SF1 I41 SU1 -> <x20>ID1 NI1 SS1 SF1 I41 SU1
        merge X01 X11 X21 X31 X41 X51 X61 X71 X81 X91 XA1 XB1 XC1 XD1 XE1 XF1 XG1 XH1 XI1 XJ1 XK1 XL1 XM1 XN1 XO1 XP1 XQ1 XR1 XS1 XT1 XU1 XV1 XW1 XX1 -> <x20>ID1 NI1 SS1 SF1 I41 SU1 X01 X11 X21 X31 X41 X51 X61 X71 X81 X91 XA1 XB1 XC1 XD1 XE1 XF1 XG1 XH1 XI1 XJ1 XK1 XL1 XM1 XN1 XO1 XP1 XQ1 XR1 XS1 XT1 XU1 XV1 XW1 XX1
        fits XY1 NI2 -> no | XY1 NI ZZ | XX2 -> yes
        merge XY1 -> TooMany
        print -> <x20>ID1 NI1 SS1 SF1 I41 SU1 X01 X11 X21 X31 X41 X51 X61 X71 X81 X91 XA1 XB1 XC1 XD1 XE1 XF1 XG1 XH1 XI1 XJ1 XK1 XL1 XM1 XN1 XO1 XP1 XQ1 XR1 XS1 XT1 XU1 XV1 XW1 XX1
        == knows names ==
        name ID -> ID | I4 -> I4 | ZZ -> ZZ | id | Id | 4I | I<x20> -> none
        known share_size -> SS
        == spells addresses ==
        dotted 127 0 0 1 -> 127.0.0.1 | 0 0 0 0 -> 0.0.0.0 | 255 10 9 100 -> 255.10.9.100
        == reads amounts ==
        amount 0 -> 0 | 10 | 00000000000000000010 -> 10 | 000000000000000000010 -> none | 18446744073709551615 -> 18446744073709551615
        amount 18446744073709551616 | 99999999999999999999 | <> | x | 5x | +5 | -5 | 5\s -> none
    " }
    merging_laws();
}
