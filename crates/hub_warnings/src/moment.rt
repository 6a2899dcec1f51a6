ghost use Rattle.std.specs.Prelude.{◌≡◌, ◌*◌, ◌/◌, ◌%◌, ◌<◌, ◌≤◌, pos, Some};
ghost use Rattle.jiff_core.specs.Date.{epoch_day};
ghost use Rattle.jiff_core.specs.Time.{time_seconds};
ghost use Rattle.hub_warnings.specs.Clocks.{IsMomentAt, IsToldBy};
ghost use Rattle.hub_warnings.specs.Texts.{two_digits, date_text, time_text, moment_text};

use crate::clock::{WallClock, seconds_since_1970};
use jiff_core::civil::{Date, Time};
use std::fmt;
use std::fmt::{Display, Formatter};

/// The number of seconds of a day.
const DAY: u64 = 86_400;

/// The first day of the year 10000, in days since 1970.
const LAST: u64 = 2_932_897;

/// The first day of all, in days before 1970.
const FIRST: u32 = 4_371_587;

/// A second of the calendar, in UTC, from 1970 to 9999.
#[derive(Clone, Copy, Debug)]
pub struct Moment {
    /// The day.
    pub date: Date,
    /// The time of the day.
    pub time: Time,
}

impl Moment {
    /// Gives the second of the calendar that begins so many seconds after 1970 did, and the same time of the last day of
    /// 9999 where it is later.
    pub fn from_seconds(seconds: u64) -> Moment
        ensures day { seconds / 86_400 < 2_932_897 → epoch_day result.date ≡ pos (seconds / 86_400) }
        ensures late { 2_932_897 ≤ seconds / 86_400 → epoch_day result.date ≡ pos 2_932_896 }
        ensures time { time_seconds result.time ≡ seconds % 86_400 }
        ensures at { IsMomentAt seconds result }
    {
        let days = (seconds / DAY).min(LAST - 1) as u32;
        Moment {
            date: Date::from_days_since_min(days + FIRST),
            time: Time::from_second((seconds % DAY) as u32, 0),
        }
    }

    /// Returns the second that this clock tells; the first of 1970 where it cannot be read.
    pub fn now<C: WallClock>(clock: &C) -> Moment
        ensures { IsToldBy C.reads clock.now result }
    {
        Moment::from_seconds(seconds_since_1970(clock))
    }
}

/// A number below 100, shown with two digits.
#[derive(Clone, Copy)]
struct TwoDigits(u8);

impl Display for TwoDigits {
    ghost output = { λ n. Some (two_digits n.0) };

    fn fmt<W: fmt::Write>(&self, f: &mut Formatter<W>) -> fmt::Result {
        let tens = self.0 / 10;
        let ones = self.0 % 10;
        write!(f, "{tens}{ones}")
    }
}

/// A day, shown as 2026-11-25.
#[derive(Clone, Copy)]
struct Day(Date);

impl Display for Day {
    ghost output = { λ d. Some (date_text d.0) };

    fn fmt<W: fmt::Write>(&self, f: &mut Formatter<W>) -> fmt::Result {
        let year = self.0.year;
        let month = TwoDigits(self.0.month);
        let day = TwoDigits(self.0.day);
        write!(f, "{year}-{month}-{day}")
    }
}

/// A time of the day, shown as 13:07:11.
#[derive(Clone, Copy)]
struct OfDay(Time);

impl Display for OfDay {
    ghost output = { λ t. Some (time_text t.0) };

    fn fmt<W: fmt::Write>(&self, f: &mut Formatter<W>) -> fmt::Result {
        let hour = TwoDigits(self.0.hour);
        let minute = TwoDigits(self.0.minute);
        let second = TwoDigits(self.0.second);
        write!(f, "{hour}:{minute}:{second}")
    }
}

impl Display for Moment {
    ghost output = { λ m. Some (moment_text m) };

    fn fmt<W: fmt::Write>(&self, f: &mut Formatter<W>) -> fmt::Result {
        let date = Day(self.date);
        let time = OfDay(self.time);
        write!(f, "{date}T{time}Z")
    }
}
