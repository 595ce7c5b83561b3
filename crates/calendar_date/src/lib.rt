// The date, weekday and minute of a moment, into a lent slice (document 02, [10]).
#![tactic(auto)]

ghost use Rattle.std.specs.Prelude.{◌≡◌, ◌<◌, ◌≤◌};
ghost use Rattle.calendar.specs.Calendar.{date, leap, year_length, february, month_length, month_from, date_of};
ghost use Rattle.calendar.specs.Crossing.{laid, cross_date};

use format_number::put_u64s;

// The length that a slice for a reply has at least, and the answer where it is shorter, by the number that crosses to C.
const REPLY: usize = 120;

const MISPLACED: u32 = 3;

const EPOCH_YEAR: u32 = 1970;

// The weekday of the first day: 0 is Monday.
const EPOCH_WEEKDAY: u32 = 3;

const WEEK: u32 = 7;

// Seconds.
const MINUTE: u32 = 60;

const DAY: u32 = 86400;

// Days.
const COMMON_YEAR: u32 = 365;

const LEAP_YEAR: u32 = 366;

const LAST_MONTH: u32 = 12;

// A day by its year, from 0 on.
#[derive(Clone, Copy)]
struct YearDay {
    year: u32,
    day: u32,
}

// A day by its year and month, from 1 on.
#[derive(Clone, Copy)]
struct MonthDay {
    year: u32,
    month: u32,
    day: u32,
}

// Every fourth year, of the hundreds every fourth.
#[tactic(auto, unfolding(calendar::specs::Calendar::leap))]
fn is_leap(year: u32) -> bool
    ensures { result ≡ leap year }
{
    year % 4 == 0 && (year % 100 != 0 || year % 400 == 0)
}

#[tactic(auto, unfolding(calendar::specs::Calendar::year_length))]
fn year_length(year: u32) -> u32
    ensures { result ≡ year_length year }
{
    if is_leap(year) {
        LEAP_YEAR
    } else {
        COMMON_YEAR
    }
}

fn february_length(year: u32) -> u32
    ensures { result ≡ february (leap year) }
{
    if is_leap(year) { 29 } else { 28 }
}

// 0 for what is no month.
#[tactic(auto, unfolding(calendar::specs::Calendar::month_length))]
fn month_length(year: u32, month: u32) -> u32
    ensures { result ≡ month_length year month }
{
    match month {
        2 => february_length(year),
        4 | 6 | 9 | 11 => 30,
        1 | 3 | 5 | 7 | 8 | 10 | 12 => 31,
        _ => 0,
    }
}

// The year of a day, by its number from 1970-01-01 on, and the day in that year. A `while`: no range of years is known beforehand.
fn year_of(number: u32) -> YearDay
    ensures { (month_from 11 result.year 1 result.day ≡ date_of number) × (result.day < 366) }
{
    let mut year = EPOCH_YEAR;
    let mut day = number;
    let mut length = year_length(year);
    // no `for`: no last year is known, the days that are left end the loop
    while length <= day {
        day -= length;
        year += 1;
        length = year_length(year);
    }
    YearDay { year, day }
}

// The month of a day of a year, and the day in that month.
fn month_of(year: u32, number: u32) -> MonthDay
    requires { number < 366 }
    ensures { date result.year result.month result.day ≡ month_from 11 year 1 number }
{
    let mut day = number;
    for month in 1..LAST_MONTH {
        let length = month_length(year, month);
        if day < length {
            return MonthDay {
                year,
                month,
                day: day + 1,
            };
        }
        day -= length;
    }
    MonthDay {
        year,
        month: LAST_MONTH,
        day: day + 1,
    }
}

// Year, month, day, weekday and minute of a moment, in seconds from 1970-01-01 on, into out: 0, or 3 and nothing is altered.
pub fn date_of(moment: u32, out: &mut [u8]) -> u32
    ensures { laid out.new result ≡ cross_date moment out.old }
{
    if out.len() < REPLY {
        return MISPLACED;
    }
    let number = moment / DAY;
    let weekday = (number + EPOCH_WEEKDAY) % WEEK;
    let minute = moment % DAY / MINUTE;
    let y = year_of(number);
    let d = month_of(y.year, y.day);
    let numbers = [
        d.year as u64,
        d.month as u64,
        d.day as u64,
        weekday as u64,
        minute as u64,
    ];
    put_u64s(out, 0, numbers);
    0
}
