// A hub, those who joined it, and how far a conversation with it has come.
use super::{Place, Told, is_otherwise, means_nothing};
use crate::hub::{Heard, Hub};
use crate::refusal::*;
use adc_base32::Sid;
use tests_support::{Deed, GREETED, GREETS, login_of, steps_of};

/// A hub, those who joined it, and how far the conversation has come.
#[derive(Drop)]
pub(super) struct Played<'t> {
    alloc: Global,
    hub: Hub,
    told: Told<'t>,
    joined: Vec<Joined<'t>>,
    place: Place<'t>,
    moment: u64,
    round: usize,
}

#[derive(Clone, Copy)]
struct Joined<'t> {
    name: &'t str,
    connection: Conn,
}

impl<'t> Played<'t> {
    pub(super) fn new(alloc: Global, hub: Hub, told: Told<'t>, name: &'t str) -> Played<'t> {
        let (number, text) = (0, "");
        Played {
            alloc,
            hub,
            told,
            joined: Vec::new(alloc),
            place: Place { name, number, text },
            moment: 0,
            round: 0,
        }
    }

    pub(super) fn play(mut self, rt: &impl Abort, name: &'t str) {
        let mut begun = false;
        let mut rounds = None;
        for (number, line) in self.told.text.lines().enumerate() {
            let text = line.trim();
            if number == 0 || text.is_empty() || !begun && text.starts_with("with ") {
                continue;
            }
            begun = true;
            self.place = Place { name, number, text };
            match (rounds, text.strip_prefix("for ")) {
                (Some((of, begin)), _) if text == "end" => {
                    self.play_rounds(rt, of, begin, number);
                    rounds = None;
                }
                (None, Some(told)) => rounds = Some((self.rounds(rt, told), number)),
                (None, None) => self.step(rt),
                _ => {}
            }
        }
        if !begun || rounds.is_some() {
            panic!(rt; "{name}: there is more to come");
        }
    }

    /// Reads the numbers of the rounds that `2 to 9:` begins.
    fn rounds(&self, rt: &impl Abort, told: &str) -> (usize, usize) {
        let rounds = told.trim_end_matches(':').split_once(" to ");
        let (first, last) = rounds.expect(rt, told);
        (self.number(rt, first), self.number(rt, last))
    }

    /// Plays the steps between two lines in rounds of these numbers.
    fn play_rounds(&mut self, rt: &impl Abort, of: (usize, usize), begin: usize, end: usize) {
        let name = self.place.name;
        holds(rt, of.0 <= of.1, "no rounds");
        for round in of.0..=of.1 {
            self.round = round;
            for (number, line) in self.told.text.lines().enumerate() {
                let text = line.trim();
                if begin < number && number < end && !text.is_empty() {
                    self.place = Place { name, number, text };
                    self.step(rt);
                }
            }
        }
    }

    fn step(&mut self, rt: &impl Abort) {
        let Some(steps) = steps_of(self.alloc, self.place.text) else {
            self.unknown(rt)
        };
        for step in &steps {
            self.moment = step.moment;
            let line = spell(rt, self.alloc, self.stands_for(step.line), self.round);
            match step.deed {
                Deed::IsConcerned => self.concerns(rt, step.who),
                Deed::ComeAndGo => {
                    let count = self.number(rt, step.who);
                    self.hub.pass(rt, count);
                }
                _ => self.does(rt, step.who, step.deed, &line),
            }
        }
    }

    /// Gives the line that a line of a conversation stands for.
    fn stands_for(&self, line: &'t str) -> &'t str {
        match line {
            "<line>" => self.told.line,
            "<answer>" => self.told.answer,
            _ => line,
        }
    }

    /// Plays a step of one who comes, speaks or goes.
    fn does(&mut self, rt: &impl Abort, who: &'t str, deed: Deed, line: &[u8]) {
        match deed {
            Deed::Joins => self.joins(rt, who),
            Deed::IsRefused => self.is_refused(rt, line),
            Deed::Greets => self.greets(rt, who),
            Deed::IsGreeted => self.is_greeted(rt, who, line),
            Deed::Enters if line.is_empty() => self.enters_as_usual(rt, who),
            Deed::Enters => self.enters(rt, who, line),
            Deed::Says => self.says(rt, who, line, Verdict::Kept),
            Deed::IsEndedBy => self.says(rt, who, line, Verdict::Ended),
            Deed::Quits => {
                let connection = self.connection(rt, who);
                self.hub.quit(rt, connection);
            }
            _ => self.gets(rt, who, deed, line),
        }
    }

    /// Plays a step of one who gets lines, or none.
    fn gets(&mut self, rt: &impl Abort, who: &str, deed: Deed, line: &[u8]) {
        match deed {
            Deed::Hears => self.takes(rt, who, 1, 1, Some(line), false),
            Deed::HearsOnly => {
                self.takes(rt, who, 1, 1, Some(line), false);
                self.takes(rt, who, 256, 0, None, false);
            }
            Deed::HearsLast => self.takes(rt, who, 256, 1, Some(line), true),
            Deed::HearsNothing => self.takes(rt, who, 256, 0, None, false),
            Deed::HearsNoMore => self.takes(rt, who, 256, 0, None, true),
            Deed::Takes if who == "all" => self.all_take(rt),
            Deed::Takes => self.takes_told(rt, who, line, false),
            Deed::TakesLast => self.takes_told(rt, who, line, true),
            _ => self.unknown(rt),
        }
    }

    fn unknown(&self, rt: &impl Abort) -> ! {
        means_nothing(rt, self.place, "no step", "")
    }

    fn number(&self, rt: &impl Abort, told: &str) -> usize {
        match told.parse::<usize>() {
            Ok(number) => number,
            Err(_) => self.unknown(rt),
        }
    }

    fn connection(&self, rt: &impl Abort, who: &str) -> Conn {
        if let Some(told) = who.strip_prefix('#') {
            return self.connection_of(rt, told);
        }
        for joined in self.joined.iter().rev() {
            if joined.name == who {
                return joined.connection;
            }
        }
        means_nothing(rt, self.place, "nobody is called ", who)
    }

    /// Finds the connection that joined as this one, counted from 1 on.
    fn connection_of(&self, rt: &impl Abort, told: &str) -> Conn {
        let place = self.number(rt, told).wrapping_sub(1);
        self.joined.get(place).expect(rt, told).connection
    }

    fn joins(&mut self, rt: &impl Abort, name: &'t str) {
        match self.hub.join(rt) {
            Ok(connection) => keep(rt, &mut self.joined, Joined { name, connection }),
            Err(refused) => is_otherwise(rt, self.place, &refused),
        }
    }

    fn is_refused(&mut self, rt: &impl Abort, why: &[u8]) {
        match self.hub.join(rt) {
            Err(JoinRefused::Full) if why == b"Full".as_slice() => {}
            answer => is_otherwise(rt, self.place, &answer),
        }
    }

    fn greets(&mut self, rt: &impl Abort, who: &'t str) {
        self.joins(rt, who);
        self.says(rt, who, GREETS.as_bytes(), Verdict::Kept);
        self.all_take(rt);
    }

    fn is_greeted(&mut self, rt: &impl Abort, who: &'t str, sid: &[u8]) {
        self.joins(rt, who);
        self.says(rt, who, GREETS.as_bytes(), Verdict::Kept);
        for (place, line) in GREETED.into_iter().enumerate() {
            let mut line = again!(rt; tests_support::copy(self.alloc, line.as_bytes()));
            if place == 1 {
                again!(rt; tests_support::append(&mut line, sid));
            }
            self.takes(rt, who, 1, 1, Some(&line), false);
        }
    }

    fn enters(&mut self, rt: &impl Abort, who: &'t str, login: &[u8]) {
        self.joins(rt, who);
        self.says(rt, who, GREETS.as_bytes(), Verdict::Kept);
        self.says(rt, who, login, Verdict::Kept);
        self.all_take(rt);
    }

    fn enters_as_usual(&mut self, rt: &impl Abort, who: &'t str) {
        let join = self.joined.len().saturating_add(1);
        let words = login_of(who).expect(rt, who);
        let login = again!(rt; login_line(self.alloc, words));
        let login = spell(rt, self.alloc, &login, join);
        self.enters(rt, who, &login);
        if who == "op" {
            let password = spell(rt, self.alloc, "HPAS <secret>", 0);
            self.says(rt, who, &password, Verdict::Kept);
            self.all_take(rt);
        }
    }

    fn says(&mut self, rt: &impl Abort, who: &str, line: &[u8], verdict: Verdict) {
        let connection = self.connection(rt, who);
        let said = self.hub.line(rt, connection, line, self.moment);
        if said != verdict {
            is_otherwise(rt, self.place, &said);
        }
    }

    fn all_take(&mut self, rt: &impl Abort) {
        for joined in &self.joined {
            if self.hub.is_open(joined.connection) {
                let _ = self.hub.take(rt, joined.connection, 256);
            }
        }
    }

    /// Takes as many lines as stand before this line, or are all of it.
    fn takes_told(&mut self, rt: &impl Abort, who: &str, told: &[u8], ended: bool) {
        let told = std::str::from_utf8(told).expect(rt, "a text");
        match told.split_once(' ') {
            Some((count, line)) => {
                let count = self.number(rt, count);
                self.takes(rt, who, 256, count, Some(line.as_bytes()), ended);
            }
            None => self.takes(rt, who, 256, self.number(rt, told), None, ended),
        }
    }

    /// Takes up to `asked` lines, which have to be so many, each this one where it is given.
    fn takes(
        &mut self,
        rt: &impl Abort,
        who: &str,
        asked: usize,
        lines: usize,
        line: Option<&[u8]>,
        ended: bool,
    ) {
        let connection = self.connection(rt, who);
        let heard = self.hub.take(rt, connection, asked);
        if heard.lines != lines as u64 || heard.ended != ended {
            is_otherwise_counted(rt, self.place, &heard);
        }
        let is_same = match line {
            Some(line) => is_repeated(&heard.bytes, line, lines),
            None => lines > 0 || heard.bytes.is_empty(),
        };
        if !is_same {
            is_otherwise(rt, self.place, &std::str::from_utf8(&heard.bytes));
        }
    }

    fn concerns(&mut self, rt: &impl Abort, whom: &str) {
        let whom = match (whom, whom.split_once(" and ")) {
            ("nobody", _) => Touched::Nobody,
            ("all", _) => Touched::Everybody,
            (_, Some((one, other))) => Touched::Two(self.sid(rt, one), self.sid(rt, other)),
            (one, None) => Touched::One(self.sid(rt, one)),
        };
        let touched = self.hub.touched();
        if touched != whom {
            is_otherwise(rt, self.place, &touched);
        }
    }

    fn sid(&self, rt: &impl Abort, who: &str) -> Sid {
        self.hub.sid(rt, self.connection(rt, who))
    }
}

fn is_otherwise_counted(rt: &impl Abort, place: Place<'_>, heard: &Heard) -> ! {
    let Place { name, number, text } = place;
    let shown = std::str::from_utf8(&heard.bytes);
    panic!(rt;
        "{name}: line {number}, {text}: {} lines, ended {}, {shown:?}",
        heard.lines, heard.ended
    )
}

/// Gives a login line of these words, of the connection whose number is the round.
fn login_line(alloc: Global, words: &str) -> Result<String, AllocError> {
    format!(in alloc; "BINF A<n> {words}")
}

/// Answers whether bytes are a line and its line feed, so many times.
fn is_repeated(bytes: &[u8], line: &[u8], count: usize) -> bool {
    let mut rest = bytes;
    for _ in 0..count {
        match rest.strip_prefix(line) {
            Some([b'\n', behind @ ..]) => rest = behind,
            _ => return false,
        }
    }
    rest.is_empty()
}
