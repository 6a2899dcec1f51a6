use crate::conversation::play;

/// Conversations with operators.
const ACTS: &str = r"
== a kick
    with account op secret operator
    op and bob enter
    op says HMSG !kick\sbob\srude
    bob hears last IQUI AAAC IDAAAB MSrude
    op hears IQUI AAAC IDAAAB MSrude | only ISTA 000 Done
    bob2 greets
    bob2 says BINF AAAD ID<P1> PD<P1> NIbob -> BINF AAAB ID<P0> NIop CT4 | only BINF AAAD ID<P1> NIbob
    op hears BINF AAAD ID<P1> NIbob
    bob hears no more
    bob quits
    op hears nothing
== who is no operator has no command
    ana enters
    ana says HMSG !kick\sbob -> only ISTA 125 Access\sdenied FCHMSG
== a command that cannot be done
    with account op secret operator
    op enters
    op says HMSG !kick\szoe -> ISTA 100 No\ssuch\suser | HMSG !dance -> ISTA 100 Bad\scommand | HMSG !unban\s<P3> -> ISTA 100 No\ssuch\sban
    op says HMSG !ban\sbob\s4294967296 -> ISTA 100 Bad\scommand | HMSG !ban\sbob -> only ISTA 100 Bad\scommand
== a new topic
    with account op secret operator
    op and bob enter
    op says HMSG !topic\snew\sone -> IINF DEnew\sone | ISTA 000 Done
    bob hears only IINF DEnew\sone
    op hears nothing
    cy joins
    cy says HSUP ADBASE ADTIGR -> ISUP ADBASE ADTIGR ADPING ADUCMD | ISID AAAD | IINF CT32 NIHub VEadc-hub\s1.0 DEnew\sone
    op says HMSG !topic -> IINF DE | ISTA 000 Done
    bob hears only IINF DE
    op and cy hear nothing
== an operator kicks itself
    with account op secret operator
    op enters
    op is ended by HMSG !kick\sop
    op takes last 2
== the lines of an operator that kicks itself
    with account op secret operator
    op enters
    op is ended by HMSG !kick\sop -> IQUI AAAB IDAAAB | last ISTA 000 Done
";

#[test]
fn operators_act(rt: HostRuntime) {
    play(&rt, ACTS);
}
