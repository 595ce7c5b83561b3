// The fifteen ids from a file, and in the settings that the host lends (document 02, [9]).
#![tactic(auto)]

ghost use Rattle.std.specs.Prelude.{map, List, ◌≡◌, ℕ, ◌+◌, ◌*◌, ◌≤◌, length, take, drop};
ghost use Rattle.protocol.specs.Bytes.{over, same};
ghost use Rattle.protocol.specs.Features.{some_is};
ghost use Rattle.protocol.specs.Ids.{is_letter, is_value};
ghost use Rattle.protocol.specs.Messages.{joined};
ghost use Rattle.id_table.specs.IdsFile.{count, are_values, two_equal, checked, same_all};
ghost use Rattle.id_table.specs.Places.{groups, marked, line_size, file_size, formed, fault_of};
ghost use Rattle.id_table.specs.Refusal.{number_of, answer_of, lent_of};
ghost use Rattle.id_table.specs.Settings.{settings_size, begun, loaded, lent_in};

use format_number::{put_bytes, put_u32, u32_at, u64_at};
use ids::Ids;

// Settings: the fifteen ids in the order of SyncId::ALL, four bytes each; the rest is room, for the hours.
pub const SETTINGS: usize = 128;

const COUNT: usize = 15;

// From one id to the next, in the settings and in a line: there a byte stands between them.
const IN_SETTINGS: usize = 4;

const IN_LINE: usize = 5;

// A file is two lines of fifteen ids: the published ones, then the values.
const LINE: usize = 75;

const FILE: usize = 150;

const PUBLISHED: [u8; 60] = *b"STATSTA2LISTLIS2SENDSND2RECVRCV2DATADONEOKAYFAILDENTDNT2QUIT";

// Why settings or a file have no table, with the refusal's number.
#[derive(Clone, Copy, PartialEq, Eq)]
pub enum IdsRefusal {
    // Settings of another length.
    Misplaced = 3,
    // No file of ids, or a value that is none.
    BadForm = 22,
    EqualValues = 23,
}

impl IdsRefusal {
    pub fn number(self) -> u32
        ensures { result ≡ number_of self }
    {
        self as u32
    }
}

fn is_letter(b: u8) -> bool
    ensures { result ≡ is_letter b }
{
    matches!(b, 33..=126) && b != b','
}

// Whether the first four bytes are a value.
fn is_value(id: &[u8]) -> bool
    requires { 4 ≤ length id.now }
    ensures { result ≡ is_value (take 4 id.now) }
{
    is_letter(id[0]) && is_letter(id[1]) && is_letter(id[2]) && is_letter(id[3])
}

// Whether all are values. (4 ≤ STEP is a clause: a computed const argument is none of Rattle.)
fn are_values<const STEP: usize>(ids: &[[u8; STEP]]) -> bool
    requires { 4 ≤ STEP }
    ensures { result ≡ are_values (map (take 4) ids.now) }
{
    for id in ids {
        if !is_value(id) {
            return false;
        }
    }
    true
}

// Whether two begin with the same four bytes.
fn are_same(id: &[u8], other: &[u8]) -> bool
    requires { (4 ≤ length id.now) × (4 ≤ length other.now) }
    ensures { result ≡ same (take 4 id.now) (take 4 other.now) }
{
    u32_at(id, 0) == u32_at(other, 0)
}

// Whether the value is one of the others.
fn stands_among<const STEP: usize>(id: &[u8; STEP], others: &[[u8; STEP]]) -> bool
    requires { 4 ≤ STEP }
    ensures { result ≡ some_is (take 4 id.now) (map (take 4) others.now) }
{
    for other in others {
        if are_same(other, id) {
            return true;
        }
    }
    false
}

// Whether any two are equal.
fn two_equal<const STEP: usize>(ids: &[[u8; STEP]]) -> bool
    requires { 4 ≤ STEP }
    ensures { result ≡ two_equal (map (take 4) ids.now) }
{
    for (i, id) in ids.iter().enumerate() {
        if stands_among(id, &ids[i + 1..]) {
            return true;
        }
    }
    false
}

// Why the fifteen are no table.
fn fault<const STEP: usize>(ids: &[[u8; STEP]]) -> Result<(), IdsRefusal>
    requires { (4 ≤ STEP) × (length ids.now ≡ count) }
    ensures { answer_of result ≡ fault_of (checked (map (take 4) ids.now)) }
{
    if !are_values(ids) {
        return Err(IdsRefusal::BadForm);
    }
    if two_equal(ids) {
        return Err(IdsRefusal::EqualValues);
    }
    Ok(())
}

// Whether a comma stands behind each of the fifteen from `from` on, and byte 10 behind the last.
fn has_marks(s: &[u8], from: usize) -> bool
    requires { from + line_size ≤ length s.now }
    ensures { result ≡ marked count (drop from s.now) }
{
    for i in 0..COUNT - 1 {
        if s[from + IN_LINE * i + 4] != b',' {
            return false;
        }
    }
    s[from + LINE - 1] == b'\n'
}

// Whether a line begins with the names.
fn has_names(line: &[u8], names: &[u8]) -> bool
    requires { (line_size ≤ length line.now) × (length names.now ≡ 60) }
    ensures { result ≡ same_all (groups 5 count line.now) (groups 4 count names.now) }
{
    for i in 0..COUNT {
        if u32_at(line, IN_LINE * i) != u32_at(names, IN_SETTINGS * i) {
            return false;
        }
    }
    true
}

// Whether a file is two lines of fifteen, the first the heading.
fn has_form(file: &[u8]) -> bool
    ensures { result ≡ formed file.now }
{
    file.len() == FILE && has_marks(file, 0) && has_marks(file, LINE) && has_names(file, &PUBLISHED)
}

// The values of a file into the settings.
fn copy_values(settings: &mut [u8], file: &[u8])
    requires { (length settings.old ≡ settings_size) × (length file.now ≡ file_size) }
    ensures { settings.new ≡ over settings.old 0 (joined (groups 5 count (drop line_size file.now))) }
{
    for i in 0..COUNT {
        let value = u32_at(file, LINE + IN_LINE * i);
        put_u32(settings, IN_SETTINGS * i, value);
    }
}

// The published ids into the settings, and zeros behind them. 0; 3 where the settings have another length, and nothing is altered.
pub fn published(settings: &mut [u8]) -> u32
    ensures { ◌≡◌ {A = List ℕ × ℕ} (settings.new, result) (begun settings.old) }
{
    if settings.len() != SETTINGS {
        return IdsRefusal::Misplaced.number();
    }
    settings.fill(0);
    put_bytes(settings, 0, &PUBLISHED);
    0
}

// The values of a file into the settings, or why not, and nothing is altered.
fn load(settings: &mut [u8], file: &[u8]) -> Result<(), IdsRefusal>
    ensures { ◌≡◌ {A = List ℕ × ℕ} (settings.new, answer_of result) (loaded settings.old file.now) }
{
    if settings.len() != SETTINGS {
        return Err(IdsRefusal::Misplaced);
    }
    if !has_form(file) {
        return Err(IdsRefusal::BadForm);
    }
    let (values, _) = file[LINE..].as_chunks::<IN_LINE>();
    fault(values)?;
    copy_values(settings, file);
    Ok(())
}

// The values of a file into the settings; what stands behind the table stays. 0; 3, 22 or 23, in this order, and nothing is altered.
pub fn load_ids(settings: &mut [u8], file: &[u8]) -> u32
    ensures { ◌≡◌ {A = List ℕ × ℕ} (settings.new, result) (loaded settings.old file.now) }
{
    match load(settings, file) {
        Ok(()) => 0,
        Err(why) => why.number(),
    }
}

// The table of settings that are lent. Refused with 3, 22 or 23, in this order.
pub fn table_in(settings: &[u8]) -> Result<Ids, IdsRefusal>
    ensures { lent_of result ≡ lent_in settings.now }
{
    if settings.len() != SETTINGS {
        return Err(IdsRefusal::Misplaced);
    }
    let (words, _) = settings.as_chunks::<IN_SETTINGS>();
    fault(&words[..COUNT])?;
    let quit = u32_at(settings, 56) as u64;
    Ok(Ids {
        stat: u64_at(settings, 0),
        list: u64_at(settings, 8),
        send: u64_at(settings, 16),
        recv: u64_at(settings, 24),
        data: u64_at(settings, 32),
        okay: u64_at(settings, 40),
        dent: u64_at(settings, 48),
        quit,
    })
}
