// Moments of the clock, and the stamps that volumes keep of them.
ghost use Rattle.std.specs.Prelude.{◌≡◌, true, ◌+ℤ◌, ◌≤◌};
ghost use Rattle.cms_fields.specs.Offsets.{IsOffset};
ghost use Rattle.cms_fields.specs.Moments.{moment_of, moment_after, held, last_second, seconds_to, is_moment, stamp_of, IsShown};
ghost use Rattle.cms_fields.specs.Stamps.{days_of_month, is_stamp};

use jiff::Timestamp;
use jiff::civil::DateTime;
use jiff::tz::Offset;

/// A civil moment from 1970-01-01 00:00:00 to 2099-12-31 23:59:59.
#[derive(Clone, Copy)]
pub struct Moment {
    pub year: u16,
    /// 1 to 12
    pub month: u8,
    /// from 1
    pub day: u8,
    pub hour: u8,
    pub minute: u8,
    pub second: u8,
}

/// 1970-01-01 00:00:00.
pub const FIRST_MOMENT: Moment = Moment {
    year: 1970,
    month: 1,
    day: 1,
    hour: 0,
    minute: 0,
    second: 0,
};

/// 2099-12-31 23:59:59, in seconds after 1970-01-01 00:00:00.
const LAST_SECOND: i64 = 4_102_444_799;

impl Moment {
    /// The civil moment at so many seconds after 1970-01-01 00:00:00 UTC, where civil time is
    /// `offset` seconds ahead of UTC: at most 15 hours either way. It is held between 1970-01-01
    /// 00:00:00 and 2099-12-31 23:59:59.
    pub fn of_epoch(seconds: i64, offset: i32) -> Moment
        requires { IsOffset offset }
        ensures value { result ≡ moment_of seconds offset }
        ensures count { seconds_to result ≡ held (seconds +ℤ offset) }
        ensures civil { is_moment result ≡ true }
    {
        moment_after(held_sum(seconds, offset))
    }
}

// The moment that many seconds after 1970-01-01 00:00:00.
fn moment_after(seconds: u32) -> Moment
    requires { seconds ≤ last_second }
    ensures { result ≡ moment_after seconds }
{
    let shown = shown_at(seconds);
    Moment {
        year: shown.year() as u16,
        month: shown.month() as u8,
        day: shown.day() as u8,
        hour: shown.hour() as u8,
        minute: shown.minute() as u8,
        second: shown.second() as u8,
    }
}

// The seconds after 1970-01-01 00:00:00 of civil time.
fn held_sum(seconds: i64, offset: i32) -> u32
    ensures sum { result ≡ held (seconds +ℤ offset) }
    ensures small { result ≤ last_second }
{
    seconds
        .saturating_add(i64::from(offset))
        .clamp(0, LAST_SECOND) as u32
}

// What a clock shows that many seconds after 1970-01-01 00:00:00.
fn shown_at(seconds: u32) -> DateTime
    requires { seconds ≤ last_second }
    ensures { IsShown (moment_after seconds) result }
{
    let timestamp = Timestamp::from_second(i64::from(seconds)).unwrap();
    Offset::UTC.to_datetime(timestamp)
}

/// A civil date and time as a volume keeps it: the two centuries from 1900 on.
#[derive(Clone, Copy, PartialEq, Eq)]
pub struct Stamp {
    /// 1900 to 2099
    pub year: u16,
    /// 1 to 12
    pub month: u8,
    /// from 1
    pub day: u8,
    pub hour: u8,
    pub minute: u8,
    pub second: u8,
}

impl Stamp {
    /// The stamp of a moment, with the same fields.
    #[tactic(auto, unfolding(crate::specs::Moments::stamp_of))]
    pub fn of(moment: &Moment) -> Stamp
        ensures value { result ≡ stamp_of moment.now }
        ensures valid { is_moment moment.now ≡ true → is_stamp result ≡ true }
    {
        Stamp {
            year: moment.year,
            month: moment.month,
            day: moment.day,
            hour: moment.hour,
            minute: moment.minute,
            second: moment.second,
        }
    }

    /// Whether there is such a date and time, in a year from 1900 to 2099. Each fourth year of a
    /// century from its first on is a leap year, so 1900 is one.
    #[tactic(auto, unfolding(crate::specs::Stamps::is_stamp))]
    pub fn is_valid(&self) -> bool
        ensures { result ≡ is_stamp self.now }
    {
        matches!(self.year, 1900..=2099)
            && matches!(self.month, 1..=12)
            && self.day >= 1
            && self.day <= days_of_month(self.year % 4 == 0, self.month)
            && self.hour <= 23
            && self.minute <= 59
            && self.second <= 59
    }
}

#[tactic(auto, unfolding(crate::specs::Stamps::days_of_month))]
fn days_of_month(is_leap: bool, month: u8) -> u8
    ensures { result ≡ days_of_month is_leap month }
{
    match month {
        2 if is_leap => 29,
        2 => 28,
        4 | 6 | 9 | 11 => 30,
        _ => 31,
    }
}
