// A history that is legal, and changes of one line after which it is not.
use crate::hub::shared_setup;
use crate::refusal::*;
use history_check::report_history;

/// An operator and a user enter and talk, the user is kicked; a third cannot agree on a hash.
const HISTORY: &str = r"# Two users enter, talk, and one is kicked; a third cannot agree on a hash.
1 join 127.0.0.1 <39*A> 0 joined 1
1 line 1 0 kept HSUP ADBASE ADTIGR
1 take 1 256 3 more ISUP ADBASE ADTIGR ADPING ADUCMD%0AISID AAAB%0AIINF CT32 NIHub VEadc-hub\s1.0%0A
1 line 1 0 kept BINF AAAB ID<P0> PD<P0> NIop
1 take 1 1 1 more IGPA <39*A>%0A
1 line 1 0 kept HPAS <secret>
1 take 1 256 1 more BINF AAAB ID<P0> NIop CT4%0A
2 join 10.0.0.2 <39*A> 5 joined 2
2 line 2 5 kept HSUP ADBASE ADTIGR
2 line 2 5 kept BINF AAAC ID<P1> PD<P1> NIbob SS5 SF1 SUTCP4
2 take 2 256 5 more ISUP ADBASE ADTIGR ADPING ADUCMD%0AISID AAAC%0AIINF CT32 NIHub VEadc-hub\s1.0%0ABINF AAAB ID<P0> NIop CT4%0ABINF AAAC ID<P1> NIbob SS5 SF1 SUTCP4%0A
1 take 1 256 1 more BINF AAAC ID<P1> NIbob SS5 SF1 SUTCP4%0A
2 line 2 6 kept BMSG AAAC hi
1 take 1 256 1 more BMSG AAAC hi%0A
2 take 2 256 1 more BMSG AAAC hi%0A
1 line 1 7 kept DMSG AAAB AAAC yo
2 take 2 256 1 more DMSG AAAB AAAC yo%0A
1 take 1 256 0 more
2 line 2 8 kept EMSG AAAC AAAB yes
1 take 1 256 1 more EMSG AAAC AAAB yes%0A
2 take 2 256 1 more EMSG AAAC AAAB yes%0A
2 line 2 9 kept BINF AAAC DEhi
1 take 1 256 1 more BINF AAAC DEhi%0A
1 line 1 10 kept HMSG !kick\sbob\sbe\skind
1 take 1 256 2 more IQUI AAAC IDAAAB MSbe\skind%0AISTA 000 Done%0A
2 take 2 1 1 more BINF AAAC DEhi%0A
2 take 2 256 1 over IQUI AAAC IDAAAB MSbe\skind%0A
2 line 2 11 ended BMSG AAAC still
2 quit 2 left
3 join 127.0.0.1 <39*A> 12 joined 3
3 line 3 12 ended HSUP ADBASE
3 take 3 256 1 over ISTA 247 No\scommon\shash%0A
3 quit 3 left
1 take 1 256 0 more
1 quit 1 left
";

/// The number of a line, what stands there once, what stands in its place, and what is said of that line then.
const CHANGES: &str = r"2|joined 1|joined 2|is to be answered joined 1
2|joined 1|full|is to be answered joined 1
2|joined 1|joins-spent|is to be answered joined 1
3|kept|ended|is to be answered kept
4| 3 more| 2 more|is to be answered 3 more ISUP ADBASE ADTIGR ADPING ADUCMD%0AISID AAAB%0AIINF CT32 NIHub VEadc-hub\s1.0%0A
4|more|over|is to be answered 3 more ISUP ADBASE ADTIGR ADPING ADUCMD%0AISID AAAB%0AIINF CT32 NIHub VEadc-hub\s1.0%0A
4|ADUCMD|ADUCMP|is to be answered 3 more ISUP ADBASE ADTIGR ADPING ADUCMD%0AISID AAAB%0AIINF CT32 NIHub VEadc-hub\s1.0%0A
4|AAAB%0A|AAAC%0A|is to be answered 3 more ISUP ADBASE ADTIGR ADPING ADUCMD%0AISID AAAB%0AIINF CT32 NIHub VEadc-hub\s1.0%0A
4|%0AIINF| IINF|is to be answered 3 more ISUP ADBASE ADTIGR ADPING ADUCMD%0AISID AAAB%0AIINF CT32 NIHub VEadc-hub\s1.0%0A
5|kept|ended|is to be answered kept
6|IGPA A|IGPA B|is to be answered 1 more IGPA <39*A>%0A
6|more|over|is to be answered 1 more IGPA <39*A>%0A
6|%0A||is to be answered 1 more IGPA <39*A>%0A
7|kept|ended|is to be answered kept
8|CT4|CT2|is to be answered 1 more BINF AAAB ID<P0> NIop CT4%0A
8| NIop| NIoq|is to be answered 1 more BINF AAAB ID<P0> NIop CT4%0A
8|1 take 1|2 take 1|may not be called there
9|joined 2|joined 1|is to be answered joined 2
9|joined 2|full|is to be answered joined 2
11|kept|ended|is to be answered kept
12|5 more|4 more|is to be answered 5 more ISUP ADBASE ADTIGR ADPING ADUCMD%0AISID AAAC%0AIINF CT32 NIHub VEadc-hub\s1.0%0ABINF AAAB ID<P0> NIop CT4%0ABINF AAAC ID<P1> NIbob SS5 SF1 SUTCP4%0A
12|AAAC%0AIINF|AAAD%0AIINF|is to be answered 5 more ISUP ADBASE ADTIGR ADPING ADUCMD%0AISID AAAC%0AIINF CT32 NIHub VEadc-hub\s1.0%0ABINF AAAB ID<P0> NIop CT4%0ABINF AAAC ID<P1> NIbob SS5 SF1 SUTCP4%0A
12|NIop CT4|NIop|is to be answered 5 more ISUP ADBASE ADTIGR ADPING ADUCMD%0AISID AAAC%0AIINF CT32 NIHub VEadc-hub\s1.0%0ABINF AAAB ID<P0> NIop CT4%0ABINF AAAC ID<P1> NIbob SS5 SF1 SUTCP4%0A
12|2 take 2|1 take 2|may not be called there
13|SF1 |SF2 |is to be answered 1 more BINF AAAC ID<P1> NIbob SS5 SF1 SUTCP4%0A
15|hi%0A|ho%0A|is to be answered 1 more BMSG AAAC hi%0A
16|1 more|2 more|is to be answered 1 more BMSG AAAC hi%0A
18|2 take 2|1 take 1|is to be answered 0 more<x20>
18|yo%0A|yo%0A%0A|is to be answered 1 more DMSG AAAB AAAC yo%0A
19|0 more|1 more DMSG AAAB AAAC yo%0A|is to be answered 0 more<x20>
22|2 take 2|1 take 1|is to be answered 0 more<x20>
24|DEhi|DEho|is to be answered 1 more BINF AAAC DEhi%0A
26|IDAAAB ||is to be answered 2 more IQUI AAAC IDAAAB MSbe\skind%0AISTA 000 Done%0A
26|2 more|1 more|is to be answered 2 more IQUI AAAC IDAAAB MSbe\skind%0AISTA 000 Done%0A
27|more BINF|over BINF|is to be answered 1 more BINF AAAC DEhi%0A
28|over|more|is to be answered 1 over IQUI AAAC IDAAAB MSbe\skind%0A
29|ended|kept|is to be answered ended
30|2 quit 2|1 quit 2|may not be called there
31|joined 3|joined 2|is to be answered joined 3
33|247|246|is to be answered 1 over ISTA 247 No\scommon\shash%0A
34|3 quit 3|3 quit 2|may not be called there
36|1 quit 1|3 quit 3|may not be called there
";

/// The lines that change places with the line before them: nothing waits yet where it is asked for.
const SWAPS: &[usize] = &[3, 14, 17, 20, 23, 25, 32];

/// Makes the setup of the hub of the history.
fn setup(rt: &impl Abort, alloc: Global) -> Arc<Setup> {
    let accounts = [Account {
        nick: "op",
        password: "secret",
        operator: true,
    }];
    let options = Options {
        accounts: &accounts,
        plain: PlainOptions::for_users(4),
        ..Options::named("Hub")
    };
    shared_setup(rt, alloc, &options)
}

/// Gives the history as text, with these lines in the place of those from the one of this number on.
fn text_with(rt: &impl Machine, history: &str, from: usize, others: &[&str]) -> Vec<u8> {
    let mut text = Vec::new(rt.alloc());
    let mut number: usize = 0;
    for line in history.lines() {
        number = number.wrapping_add(1);
        let line = *others.get(number.wrapping_sub(from)).unwrap_or(&line);
        append(rt, &mut text, line.as_bytes());
        append(rt, &mut text, b"\n");
    }
    text
}

fn report(alloc: Global, setup: Arc<Setup>, text: &[u8]) -> Result<Vec<u8>, AllocError> {
    report_history(alloc, setup, &First24, text)
}

/// Stops the test unless this is said of a history in which these lines stand in the place of those from a number on.
fn is_said(rt: &impl Machine, history: &str, from: usize, others: &[&str], wanted: &str) {
    let setup = setup(rt, rt.alloc());
    let text = text_with(rt, history, from, others);
    let said = again!(rt; report(rt.alloc(), again!(rt; setup.clone()), &text));
    holds(rt, said.as_slice() == wanted.as_bytes(), wanted);
}

/// Stops the test unless this is said of the line of a number, from which on these stand in the place of others.
fn is_said_of(rt: &impl Machine, history: &str, number: usize, others: &[&str], what: &str) {
    let wanted = again!(rt; format!(in rt.alloc(); "line {number} {what}"));
    is_said(rt, history, number, others, &wanted);
}

fn line_of<'t>(rt: &impl Abort, history: &'t str, number: usize) -> &'t str {
    for (place, line) in history.lines().enumerate() {
        if place.wrapping_add(1) == number {
            return line;
        }
    }
    panic!(rt; "no line {number}")
}

fn changed(alloc: Global, line: &str, old: &str, new: &str) -> Option<String> {
    let (before, behind) = line.split_once(old)?;
    format!(in alloc; "{before}{new}{behind}").ok()
}

/// Reads a row of the changes.
fn read_change<'t>(row: &'t str) -> Option<(usize, &'t str, &'t str, &'t str)> {
    let (number, row) = row.split_once('|')?;
    let (old, row) = row.split_once('|')?;
    let (new, what) = row.split_once('|')?;
    Some((number.parse().ok()?, old, new, what))
}

/// Stops the test unless the change of a row is found where it was made.
fn is_found(rt: &impl Machine, history: &str, row: &str) {
    let (number, old, new, what) = read_change(row).expect(rt, row);
    let line = line_of(rt, history, number);
    let line = again!(rt; changed(rt.alloc(), line, old, new).ok_or(AllocError));
    is_said_of(rt, history, number, &[line.as_str()], what);
}

/// Stops the test unless it is found that a line changed places with the next one.
fn swap_is_found(rt: &impl Machine, history: &str, number: usize) {
    let next = line_of(rt, history, number.wrapping_add(1));
    let lines = [next, line_of(rt, history, number)];
    is_said_of(rt, history, number, &lines, "is to be answered 0 more ");
}

/// Lines that are no entries. A blank stands behind no word that is the last, whatever the reply.
const NO_ENTRIES: &str = r"1
x quit 1 left
1 quit 1
1 quit 1 left now
1 quit 1 left<x20>
1 join 127.0.0.1 <39*A> 0 joined 1<x20>
1 join 127.0.0.1 <39*A> 0 full<x20>
1 take 1 0 0 more
1 take 1 257 0 more
1 take 1 256 0 less
1 join 127.0.0 <39*A> 0 joined 1
1 join 127.0.0.1 AAAA 0 joined 1
1 line 1 0 kept %4
1 line 1 18446744073709551616 kept HSUP ADBASE
";

#[test]
fn a_legal_history_is_found_legal(rt: HostRuntime) {
    let history = spell_text(&rt, rt.alloc(), HISTORY);
    is_said(&rt, &history, 1, &[], "legal");
}

#[test]
fn a_changed_line_is_found(rt: HostRuntime) {
    let history = spell_text(&rt, rt.alloc(), HISTORY);
    let changes = spell_text(&rt, rt.alloc(), CHANGES);
    for row in changes.lines() {
        is_found(&rt, &history, row);
    }
}

#[test]
fn lines_that_changed_places_are_found(rt: HostRuntime) {
    let history = spell_text(&rt, rt.alloc(), HISTORY);
    for number in SWAPS {
        swap_is_found(&rt, &history, *number);
    }
}

#[test]
fn a_line_that_is_no_entry_is_named(rt: HostRuntime) {
    let history = spell_text(&rt, rt.alloc(), HISTORY);
    let lines = spell_text(&rt, rt.alloc(), NO_ENTRIES);
    let last = history.lines().count();
    for line in lines.lines() {
        is_said_of(&rt, &history, last, &[line], "is no entry");
    }
}
