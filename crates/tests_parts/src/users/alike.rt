// Tests that both bodies of `Users` answer alike, and leave the same users.
use super::commands::{Draws, command, renewal};
use super::samples::say_users;
use super::{entering, say_answer};
use crate::base32::sid;
use crate::rows::*;
use adc_ids::Cid;
use plain_users::{Command, CommandAnswer, PlainUsers, RunRefused, run_users};
use user_table::{IndexedUsers, TableRefused, Totals, Users};

const COUNT: usize = 2_000;

/// Runs commands, the same once more where memory was refused, and gives what is said of the users then, and the answers.
fn run<U: Users>(rt: &impl Machine) -> (Vec<u8>, Vec<CommandAnswer>) {
    for _ in 0..2 {
        if let Some(both) = run_once::<U>(rt) {
            return both;
        }
    }
    unknown(rt, "refused twice")
}

fn run_once<U: Users>(rt: &impl Machine) -> Option<(Vec<u8>, Vec<CommandAnswer>)> {
    let mut users = U::new(rt.alloc());
    match run_users(rt.alloc(), &mut users, draw_commands(rt)) {
        Err(RunRefused::Memory) => {
            say_refused_memory(rt, "plain_users::run_users", users.totals().users == 0);
            None
        }
        Ok(answers) if answers.contains(&CommandAnswer::Refused(TableRefused::Memory)) => None,
        Ok(answers) => Some((say_users(rt, &users), answers)),
    }
}

fn draw_commands(rt: &impl Machine) -> Vec<Command> {
    let mut draws = Draws { state: 2026 };
    let mut commands = again!(rt; Vec::with_capacity(rt.alloc(), COUNT));
    for _ in 0..COUNT {
        keep(rt, &mut commands, command(rt, &mut draws));
    }
    commands
}

/// Puts a command last.
pub(crate) fn keep(rt: &impl Abort, commands: &mut Vec<Command>, command: Command) {
    tests_support::push(commands, command).expect(rt, "refused twice");
}

fn kind_of(answer: &CommandAnswer) -> usize {
    match answer {
        CommandAnswer::Skipped => 0,
        CommandAnswer::Done => 1,
        CommandAnswer::Refused(TableRefused::CidTaken) => 2,
        CommandAnswer::Refused(_) => 3,
        CommandAnswer::Found(Some(_)) => 4,
        CommandAnswer::Found(None) => 5,
        CommandAnswer::Counted(_) => 6,
    }
}

/// How often each kind of answer comes at least.
const LEAST: [usize; 7] = [100, 200, 20, 50, 100, 50, 20];

#[test]
fn answer_2000_commands_alike(rt: HostRuntime) {
    let (users, answers) = run::<PlainUsers>(&rt);
    let (other_users, other_answers) = run::<IndexedUsers>(&rt);
    assert!(rt; answers.len() == COUNT && answers == other_answers);
    assert!(rt; users == other_users);
    for (kind, least) in LEAST.into_iter().enumerate() {
        let count = count(&answers, kind);
        assert!(rt; count > least, "{count} of {kind}");
    }
    // A command is seldom skipped.
    assert!(rt; count(&answers, 0) < 1_000);
}

fn count(answers: &[CommandAnswer], kind: usize) -> usize {
    answers
        .iter()
        .filter(|answer| kind_of(answer) == kind)
        .count()
}

/// Users on whom commands are run, one at a time.
#[derive(Drop)]
struct CommandRun<U: Users> {
    users: U,
}

impl<U: Users> Part for CommandRun<U> {
    fn call(&mut self, rt: &impl Machine, row: Row<'_>, said: &mut Vec<u8>) {
        let before = say_users(rt, &self.users);
        for _ in 0..2 {
            match self.run(rt, command_of(rt, row.name, row.text)) {
                Some(answer) => return say_run(rt, said, answer),
                None => self.is_unchanged(rt, &before),
            }
        }
    }
}

impl<U: Users> CommandRun<U> {
    fn is_unchanged(&self, rt: &impl Machine, before: &[u8]) {
        let same = say_users(rt, &self.users).as_slice() == before;
        say_refused_memory(rt, "plain_users::run_users", same);
    }

    /// Gives the answer to a command, or nothing where memory is refused.
    fn run(&mut self, rt: &impl Machine, command: Command) -> Option<CommandAnswer> {
        let mut commands = again!(rt; Vec::with_capacity(rt.alloc(), 1));
        keep(rt, &mut commands, command);
        match run_users(rt.alloc(), &mut self.users, commands) {
            Err(RunRefused::Memory) => None,
            Ok(answers) => match answers.first() {
                Some(CommandAnswer::Refused(TableRefused::Memory)) => None,
                Some(answer) => Some(*answer),
                None => unknown(rt, "no answer"),
            },
        }
    }
}

fn command_of(rt: &impl Machine, name: &str, text: &str) -> Command {
    match name {
        "insert" => Command::Insert(entering(rt, text)),
        "remove" => Command::Remove(sid(rt, small(rt, text))),
        "merge" => {
            let (number, rest) = pair(text, ' ');
            let (line, name) = pair(rest, ';');
            renewal(rt, small(rt, number), line, name)
        }
        "at" => Command::At(number(rt, text) as usize),
        "sid" => Command::BySid(sid(rt, small(rt, text))),
        "cid" => Command::ByCid(Cid::from_bytes([byte(rt, text); 24])),
        "count" => Command::Count,
        _ => unknown(rt, name),
    }
}

pub(crate) fn say_run(rt: &impl Machine, said: &mut Vec<u8>, answer: CommandAnswer) {
    match answer {
        CommandAnswer::Skipped => say(rt, said, "skipped"),
        CommandAnswer::Done => say(rt, said, "done"),
        CommandAnswer::Refused(refused) => say_answer(rt, said, Some(refused)),
        CommandAnswer::Found(Some(sid)) => say_number(rt, said, sid.number() as u128),
        CommandAnswer::Found(None) => say(rt, said, "nobody"),
        CommandAnswer::Counted(Totals { users, ss, sf }) => {
            say_number(rt, said, users as u128);
            say_number(rt, said, ss);
            say_number(rt, said, sf);
        }
    }
}

fn play_runs<U: Users>(rt: &impl Machine, rows: &str) {
    let users = U::new(rt.alloc());
    play(rt, &mut CommandRun { users }, rows);
}

#[test]
fn answer_each_command(rt: HostRuntime) {
    let rows = r"
        insert 1 1 ana NIana SS100 SF2 | 2 2 bob NIbob SS20 SFx | 3 3 eva NIeva SF3 -> done | 2 9 dan NIdan -> skipped
        insert 4 9 bob NIbob -> NickTaken | 4 2 dan NIdan -> CidTaken | 4 4 dan NIdan SS5 -> done
        merge 9 SS1 -> skipped | 4 NIa\\b SS6;a\b -> done | 4 NIdan;leo | 4 SS7;leo -> skipped | 4 NIana;ana -> NickTaken
        remove 1 -> 1 | 1 -> nobody
        at 0 -> 2 | 3 -> nobody
        sid 4 -> 4
        cid 3 -> 3
        count -> 3 26 3
    ";
    play_runs::<PlainUsers>(&rt, rows);
    play_runs::<IndexedUsers>(&rt, rows);
}
