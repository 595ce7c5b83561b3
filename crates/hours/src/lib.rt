// Cutting hours from a file, and in the settings that the host lends (document 02, [10]).
#![tactic(auto)]

ghost use Rattle.std.specs.Prelude.{List, ◌≡◌, ℕ, ◌≤◌, ◌==◌, length, drop, replicate, position};
ghost use Rattle.std.specs.List.{list_all};
ghost use Rattle.decimal.specs.Meaning.{parsed};
ghost use Rattle.protocol.specs.Hours.{lets};
ghost use Rattle.text_lines.specs.Lines.{comma, cut_at};
ghost use Rattle.hours.specs.File.{checked_span, numbered, span_in};
ghost use Rattle.hours.specs.Slots.{numbers, hours_of};
ghost use Rattle.hours.specs.Settings.{hours_size, day_minutes, is_day, are_days, is_hours, loaded_hours, cross_may_push, lets_in};
ghost use Rattle.hours.specs.Scan.{span_of, days_size, days_of, with_span, scanned};

use decimal::parse_u32;
use format_number::{put_bytes, put_u32, u32_at};
use id_table::SETTINGS;

// The hours in the settings: behind the fifteen ids.
pub const PLACE: usize = 60;

pub const END: usize = 92;

// Hours: 1 where there are some and else 0, in four bytes; then the days from Monday on.
const HOURS: usize = 32;

const NO_HOURS: u32 = 0;

const SOME_HOURS: u32 = 1;

const DAYS: usize = 4;

const DAYS_SIZE: usize = 28;

// A day: its opening and its closing minute, two bytes each, so that the closing one is the high half of four bytes.
const DAY: usize = 4;

const HIGH: u32 = 0x1_0000;

// The refusals, by the numbers that cross to C: settings of another length, hours of another form, a moment outside the hours.
const MISPLACED: u32 = 3;

const BAD_HOURS: u32 = 24;

const CLOSED: u32 = 25;

// Sunday; Monday is 0.
const LAST_DAY: u32 = 6;

// 1970-01-01 was a Thursday.
const FIRST_WEEKDAY: u32 = 3;

const WEEK: u32 = 7;

const DAY_MINUTES: u32 = 1440;

const DAY_SECONDS: u32 = 86400;

const MINUTE: u32 = 60;

// The first line of a file.
const HEADING: [u8; 15] = *b"day,open,close\n";

// What a line of the file gives: the day, its opening and its closing minute.
#[derive(Clone, Copy)]
struct Span {
    day: u32,
    opens: u32,
    closes: u32,
}

// Three numbers that are a span.
fn checked(day: u32, opens: u32, closes: u32) -> Option<Span>
    ensures { span_of result ≡ checked_span (record { day = day; opens = opens; closes = closes }) }
{
    if day <= LAST_DAY && opens < closes && closes <= DAY_MINUTES {
        return Some(Span { day, opens, closes });
    }
    None
}

// The span of three fields.
fn day_of(day: Option<u32>, opens: Option<u32>, closes: Option<u32>) -> Option<Span>
    ensures { span_of result ≡ numbered (parsed day) (parsed opens) (parsed closes) }
{
    checked(day?, opens?, closes?)
}

// The place of the first b.
fn find(s: &[u8], b: u8) -> Option<usize>
    ensures { result ≡ position (λ x. x == b) s.now }
{
    s.iter().position(|x| *x == b)
}

// The span of a line: three numbers with a comma between each two.
fn span_of(line: &[u8]) -> Option<Span>
    ensures { span_of result ≡ span_in (cut_at comma line.now) }
{
    let first = find(line, b',')?;
    let rest = &line[first + 1..];
    let second = find(rest, b',')?;
    let day = parse_u32(&line[..first]);
    let opens = parse_u32(&rest[..second]);
    let closes = parse_u32(&rest[second + 1..]);
    day_of(day, opens, closes)
}

// A span into the bytes of its day.
fn put_day(days: &mut [u8], span: Span)
    requires { (length days.old ≡ days_size) × (span.day ≤ 6) × (span.opens ≤ day_minutes) × (span.closes ≤ day_minutes) }
    ensures { days.new ≡ with_span days.old (record { day = span.day; opens = span.opens; closes = span.closes }) }
{
    let at = DAY * span.day as usize;
    put_u32(days, at, span.opens + HIGH * span.closes);
}

// The days of some lines. None where a line is no span, or its day not behind the one before.
fn read_days(lines: &[u8]) -> Option<[u8; DAYS_SIZE]>
    ensures { days_of result ≡ scanned 0 (replicate days_size 0) lines.now }
{
    let mut days = [0; DAYS_SIZE];
    let mut next = 0;
    let mut rest = lines;
    // no `for`: where the next line begins is known only behind this one
    while !rest.is_empty() {
        let end = find(rest, b'\n')?;
        let span = span_of(&rest[..end])?;
        if span.day < next {
            return None;
        }
        put_day(&mut days, span);
        next = span.day + 1;
        rest = &rest[end + 1..];
    }
    Some(days)
}

// The hours of a file into the settings; what stands before and behind them stays. 0; 3 or 24, in this order, and nothing is altered.
pub fn load_hours(settings: &mut [u8], file: &[u8]) -> u32
    ensures { ◌≡◌ {A = List ℕ × ℕ} (settings.new, result) (loaded_hours settings.old file.now) }
{
    if settings.len() != SETTINGS {
        return MISPLACED;
    }
    let Some(lines) = file.strip_prefix(&HEADING) else {
        return BAD_HOURS;
    };
    let Some(days) = read_days(lines) else {
        return BAD_HOURS;
    };
    put_u32(settings, PLACE, SOME_HOURS);
    put_bytes(settings, PLACE + DAYS, &days);
    0
}

fn are_zero(s: &[u8]) -> bool
    ensures { result ≡ list_all (λ b. b == 0) s.now }
{
    s.iter().all(|b| *b == 0)
}

// Whether two numbers are those of a day: both 0, or a span.
fn is_day(opens: u32, closes: u32) -> bool
    ensures { result ≡ is_day opens closes }
{
    if closes == 0 {
        opens == 0
    } else {
        opens < closes && closes <= DAY_MINUTES
    }
}

fn are_days(bytes: &[u8]) -> bool
    requires { length bytes.now ≡ hours_size }
    ensures { result ≡ are_days (numbers (drop 4 bytes.now)) }
{
    for day in 0..WEEK as usize {
        let word = u32_at(bytes, DAYS + DAY * day);
        if !is_day(word % HIGH, word / HIGH) {
            return false;
        }
    }
    true
}

// Whether some bytes are those of hours, or of none.
pub fn is_hours(bytes: &[u8]) -> bool
    ensures { result ≡ is_hours bytes.now }
{
    if bytes.len() != HOURS {
        return false;
    }
    match u32_at(bytes, 0) {
        NO_HOURS => are_zero(&bytes[DAYS..]),
        SOME_HOURS => are_days(bytes),
        _ => false,
    }
}

// Whether the hours in some bytes let a push start at a moment.
fn lets_at(bytes: &[u8], moment: u32) -> bool
    requires { hours_size ≤ length bytes.now }
    ensures { result ≡ lets (hours_of bytes.now) moment }
{
    if bytes[0] == 0 {
        return true;
    }
    let day = moment / DAY_SECONDS;
    let weekday = (day + FIRST_WEEKDAY) % WEEK;
    let minute = moment % DAY_SECONDS / MINUTE;
    let word = u32_at(bytes, DAYS + DAY * weekday as usize);
    word % HIGH <= minute && minute < word / HIGH
}

// The same of any bytes: where they are too few there are no hours.
pub fn lets_in(bytes: &[u8], moment: u32) -> bool
    ensures { result ≡ lets_in bytes.now moment }
{
    bytes.len() < HOURS || lets_at(bytes, moment)
}

// Whether the hours in the settings let a push start at a moment. 0; 3, 24 or 25, in this order.
pub fn may_push(settings: &[u8], moment: u32) -> u32
    ensures { result ≡ cross_may_push settings.now moment }
{
    if settings.len() != SETTINGS {
        return MISPLACED;
    }
    let hours = &settings[PLACE..END];
    if !is_hours(hours) {
        return BAD_HOURS;
    }
    if !lets_at(hours, moment) {
        return CLOSED;
    }
    0
}
