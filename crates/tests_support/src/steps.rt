// A deed has its words here alone: players tell deeds apart, and no words.
use crate::push;
use std::alloc::Global;

/// What is done in a step. Where several do it, the first of its words has no s at its end.
#[derive(Clone, Copy, Debug, PartialEq, Eq)]
pub enum Deed {
    /// `ana joins`: the next connection joins, and is called ana. `ana joins 127.0.0.2`: from there.
    Joins,
    /// `ana connects`: a client connects, and is called ana.
    Connects,
    /// `ana is refused Full`: a connection asks to join, and is refused for this.
    IsRefused,
    /// `ana greets`: it joins, and sends [`crate::GREETS`]; what it is answered is taken and not looked at.
    Greets,
    /// `ana is greeted AAAB`: it joins or connects, sends [`crate::GREETS`], and hears [`crate::GREETED`] with this identifier.
    IsGreeted,
    /// `ana enters`: it greets and sends its login line, [`crate::login_of`]. `ana enters BINF ..`: with this login line.
    Enters,
    /// `ana says BMSG AAAB hi`: it sends this line, with a line feed.
    Says,
    /// `ana says slowly BMSG AAAB hi`: the same, each byte by itself.
    SaysSlowly,
    /// `ana is ended by BMSG AAAC hi`: it sends this line, which ends it.
    IsEndedBy,
    /// `ana hears BMSG AAAB hi`: it gets this line next, and more may come.
    Hears,
    /// `ana hears only BMSG AAAB hi`: it gets this line and nothing behind it, and more may come.
    HearsOnly,
    /// `ana hears last ISTA ..`: it gets this line alone, and nothing will follow.
    HearsLast,
    /// `ana hears nothing`: nothing waits for it, and more may come.
    HearsNothing,
    /// `ana hears no more`: nothing waits for it, and nothing will.
    HearsNoMore,
    /// `ana takes 3 BMSG ..`: it gets so many lines, each of which is this, and more may come. `ana takes 3`: whichever they are.
    Takes,
    /// `ana takes last 3 BMSG ..`: the same, and nothing will follow.
    TakesLast,
    /// `ana quits`: it leaves.
    Quits,
    /// `ana leaves`: it says that it is done, and waits until the server is, too.
    Leaves,
    /// `ana breaks off`: it breaks off, once there is something that it has not read.
    BreaksOff,
    /// `ana is concerned`: the last call concerned ana alone; or nobody, all, bob and ana.
    IsConcerned,
    /// `1000 come and go`: so many join, each of whom leaves at once.
    ComeAndGo,
    /// `the hub is refused Limit`: it is not opened, for this.
    HubIsRefused,
    /// `ana chats long BMSG AAAB`: it says long lines that begin so, so many that who does not read them is shut out, and hears each.
    ChatsLong,
    /// `ana whispers DMSG AAAB AAAC`: it says many lines that begin so.
    Whispers,
    /// `bob hears whispers DMSG AAAB AAAC`: it reads these.
    HearsWhispers,
    /// `ana floods`: it sends 65,537 bytes without a line feed, or as many as are taken.
    Floods,
    /// `bob hears a part`: it reads to the end, and something comes before, but not all that was said in long lines. `bob hears a part ISID AA`:
    /// it gets this, and no line feed.
    HearsAPart,
    /// `bob hears the end`: it reads to the end, and nothing more comes.
    HearsTheEnd,
    /// `ana waits for the close`: it waits until the server closes, however it does.
    WaitsForTheClose,
    /// `a second passes`: nobody does anything for a little longer than a second.
    SecondPasses,
    /// `a digest begins`, which does not end yet.
    DigestBegins,
    /// `the digest may end`.
    DigestMayEnd,
}

/// The number of names and of words of a deed at most.
const MOST_WORDS: usize = 5;

const WORDS: &[(&str, Deed)] = &[
    ("joins", Deed::Joins),
    ("join", Deed::Joins),
    ("connects", Deed::Connects),
    ("is refused", Deed::IsRefused),
    ("greets", Deed::Greets),
    ("greet", Deed::Greets),
    ("is greeted", Deed::IsGreeted),
    ("enters", Deed::Enters),
    ("enter", Deed::Enters),
    ("says", Deed::Says),
    ("say", Deed::Says),
    ("says slowly", Deed::SaysSlowly),
    ("is ended by", Deed::IsEndedBy),
    ("hears", Deed::Hears),
    ("hear", Deed::Hears),
    ("hears only", Deed::HearsOnly),
    ("hear only", Deed::HearsOnly),
    ("hears last", Deed::HearsLast),
    ("hears nothing", Deed::HearsNothing),
    ("hear nothing", Deed::HearsNothing),
    ("hears no more", Deed::HearsNoMore),
    ("takes", Deed::Takes),
    ("take", Deed::Takes),
    ("takes last", Deed::TakesLast),
    ("quits", Deed::Quits),
    ("leaves", Deed::Leaves),
    ("leave", Deed::Leaves),
    ("breaks off", Deed::BreaksOff),
    ("is concerned", Deed::IsConcerned),
    ("are concerned", Deed::IsConcerned),
    ("come and go", Deed::ComeAndGo),
    ("hub is refused", Deed::HubIsRefused),
    ("chats long", Deed::ChatsLong),
    ("whispers", Deed::Whispers),
    ("hears whispers", Deed::HearsWhispers),
    ("floods", Deed::Floods),
    ("hears a part", Deed::HearsAPart),
    ("hears the end", Deed::HearsTheEnd),
    ("waits for the close", Deed::WaitsForTheClose),
    ("second passes", Deed::SecondPasses),
    ("digest begins", Deed::DigestBegins),
    ("digest may end", Deed::DigestMayEnd),
];

/// A step of a conversation: who does what, at which moment.
#[derive(Clone, Copy)]
pub struct Step<'t> {
    /// The seconds behind `at`; 0 where nothing is said of it.
    pub moment: u64,
    /// Its name or names, as they stand there.
    pub who: &'t str,
    pub deed: Deed,
    /// The text behind the deed.
    pub line: &'t str,
}

impl<'t> Step<'t> {
    /// Reads a step: `at` and a moment, or neither; who does it, as `ana` or `ana and bob`; the words of its deed, each of
    /// which begins with a small letter; and what stands behind. Gives nothing where a text is no step.
    pub fn read(text: &'t str) -> Option<Step<'t>> {
        let (moment, text) = match text.strip_prefix("at ") {
            Some(text) => {
                let (moment, text) = text.split_once(' ')?;
                (moment.parse().ok()?, text)
            }
            None => (0, text),
        };
        let rest = behind_names(text)?;
        let line = behind_deed(rest);
        Some(Step {
            moment,
            who: text.strip_suffix(rest)?.trim_end(),
            deed: deed_of(rest.strip_suffix(line)?.trim_end())?,
            line,
        })
    }
}

/// Reads a conversation, blank lines apart, a step of one after the other; but for whom a call concerned, which is one step. A line may be short
/// for several: `ana says A | B -> C | only D | E -> last F` for `ana says A`, `ana says B`, `ana hears C`, `ana hears only D`, `ana says E` and
/// `ana hears last F`. What has no arrow is said before the first, and heard behind it. Gives nothing where a line is no step, or memory is
/// refused twice.
pub fn steps_of<'t>(alloc: Global, text: &'t str) -> Option<Vec<Step<'t>>> {
    let mut steps = Vec::new(alloc);
    for line in text.lines() {
        if !line.trim().is_empty() {
            add_steps(&mut steps, Step::read(line.trim())?)?;
        }
    }
    Some(steps)
}

fn add_steps<'t>(steps: &mut Vec<Step<'t>>, step: Step<'t>) -> Option<()> {
    let mut deed = step.deed;
    for part in step.line.split(" | ") {
        let line = match part.split_once(" -> ") {
            Some((line, answer)) => {
                add_line(steps, Step { line, ..step })?;
                deed = Deed::Hears;
                answer
            }
            None => part,
        };
        add_line(steps, Step { deed, line, ..step })?;
    }
    Some(())
}

fn add_line<'t>(steps: &mut Vec<Step<'t>>, step: Step<'t>) -> Option<()> {
    let only = step.line.strip_prefix("only ");
    let (deed, line) = match (only, step.line.strip_prefix("last ")) {
        (Some(line), _) => (Deed::HearsOnly, line),
        (_, Some(line)) if step.deed == Deed::Takes => (Deed::TakesLast, line),
        (_, Some(line)) => (Deed::HearsLast, line),
        _ => (step.deed, step.line),
    };
    add_names(steps, Step { deed, line, ..step })
}

fn add_names<'t>(steps: &mut Vec<Step<'t>>, step: Step<'t>) -> Option<()> {
    if step.deed == Deed::IsConcerned {
        return push(steps, step).ok();
    }
    for who in step.who.split(" and ") {
        push(steps, Step { who, ..step }).ok()?;
    }
    Some(())
}

/// Gives what stands behind the names.
fn behind_names(text: &str) -> Option<&str> {
    let (_, mut rest) = text.split_once(' ')?;
    for _ in 0..MOST_WORDS {
        match rest.strip_prefix("and ") {
            Some(more) => (_, rest) = more.split_once(' ')?,
            None => break,
        }
    }
    Some(rest)
}

/// Gives what stands behind the words that begin with a small letter.
fn behind_deed(text: &str) -> &str {
    let mut rest = text;
    for _ in 0..MOST_WORDS {
        if !matches!(rest.as_bytes(), [b'a'..=b'z', ..]) {
            break;
        }
        (_, rest) = rest.split_once(' ').unwrap_or(("", ""));
    }
    rest
}

fn deed_of(words: &str) -> Option<Deed> {
    for (known, deed) in WORDS {
        if *known == words {
            return Some(*deed);
        }
    }
    None
}
