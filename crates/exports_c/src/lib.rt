// The static library: each function of crate `exports` under its own name for C, with its clauses. A slice crosses as an address and a length.
#![tactic(auto)]

ghost use Rattle.std.specs.Prelude.{◌≡◌};
ghost use Rattle.boundary.specs.Crossing.{crossed, set, cross_settings, cross_ids};
ghost use Rattle.boundary_step.specs.Opened.{open_crossed};
ghost use Rattle.calendar.specs.Crossing.{cross_date};
ghost use Rattle.hours.specs.Settings.{loaded_hours, cross_may_push};
ghost use Rattle.hours_totals.specs.Crossing.{timed_open, timed_start, timed_read, timed_wrote, timed_fault};
ghost use Rattle.time_index.specs.Crossing.{laid, indexed, cross_index_open, cross_index_add, cross_index_between, cross_index_latest, cross_index_entry};
ghost use Rattle.panel_side.specs.Crossing.{spoke, sliced, cross_speak, cross_heard};

#[unsafe(no_mangle)]
pub extern "C" fn yuglasno_settings(settings: &mut [u8]) -> u32
    ensures { set settings.new result ≡ cross_settings settings.old }
{
    exports::yuglasno_settings(settings)
}

#[unsafe(no_mangle)]
pub extern "C" fn yuglasno_ids(settings: &mut [u8], file: &[u8]) -> u32
    ensures { set settings.new result ≡ cross_ids settings.old file.now }
{
    exports::yuglasno_ids(settings, file)
}

#[unsafe(no_mangle)]
pub extern "C" fn yuglasno_hours(settings: &mut [u8], file: &[u8]) -> u32
    ensures { set settings.new result ≡ loaded_hours settings.old file.now }
{
    exports::yuglasno_hours(settings, file)
}

#[unsafe(no_mangle)]
pub extern "C" fn yuglasno_may_push(settings: &[u8], moment: u32) -> u32
    ensures { result ≡ cross_may_push settings.now moment }
{
    exports::yuglasno_may_push(settings, moment)
}

#[unsafe(no_mangle)]
pub extern "C" fn yuglasno_date(moment: u32, out: &mut [u8]) -> u32
    ensures { laid out.new result ≡ cross_date moment out.old }
{
    exports::yuglasno_date(moment, out)
}

#[unsafe(no_mangle)]
pub extern "C" fn yuglasno_open(
    rec: &mut [u8],
    settings: &[u8],
    banner: &[u8],
    rx: usize,
    msg: usize,
) -> u32
    ensures { open_crossed rec.new result ≡ timed_open rec.old settings.now banner.now rx msg }
{
    exports::yuglasno_open(rec, settings, banner, rx, msg)
}

#[unsafe(no_mangle)]
pub extern "C" fn yuglasno_start(
    rec: &mut [u8],
    rx: &mut [u8],
    msg: &mut [u8],
    lent: &[u8],
    call: u32,
    a: u32,
    b: u32,
    moment: u32,
    out: &mut [u8],
) -> u32
    ensures { crossed rec.new rx.new msg.new out.new result ≡ timed_start rec.old rx.old msg.old lent.now call a b moment out.old }
{
    exports::yuglasno_start(rec, rx, msg, lent, call, a, b, moment, out)
}

#[unsafe(no_mangle)]
pub extern "C" fn yuglasno_read(
    rec: &mut [u8],
    rx: &mut [u8],
    msg: &mut [u8],
    lent: &[u8],
    count: usize,
    out: &mut [u8],
) -> u32
    ensures { crossed rec.new rx.new msg.new out.new result ≡ timed_read rec.old rx.old msg.old lent.now count out.old }
{
    exports::yuglasno_read(rec, rx, msg, lent, count, out)
}

#[unsafe(no_mangle)]
pub extern "C" fn yuglasno_wrote(
    rec: &mut [u8],
    rx: &mut [u8],
    msg: &mut [u8],
    lent: &[u8],
    out: &mut [u8],
) -> u32
    ensures { crossed rec.new rx.new msg.new out.new result ≡ timed_wrote rec.old rx.old msg.old lent.now out.old }
{
    exports::yuglasno_wrote(rec, rx, msg, lent, out)
}

#[unsafe(no_mangle)]
pub extern "C" fn yuglasno_fault(
    rec: &mut [u8],
    rx: &mut [u8],
    msg: &mut [u8],
    lent: &[u8],
    kind: u32,
    code: u32,
    out: &mut [u8],
) -> u32
    ensures { crossed rec.new rx.new msg.new out.new result ≡ timed_fault rec.old rx.old msg.old lent.now kind code out.old }
{
    exports::yuglasno_fault(rec, rx, msg, lent, kind, code, out)
}

#[unsafe(no_mangle)]
pub extern "C" fn yuglasno_index_open(slots: &mut [u8], area: usize) -> u32
    ensures { laid slots.new result ≡ cross_index_open slots.old area }
{
    exports::yuglasno_index_open(slots, area)
}

#[unsafe(no_mangle)]
pub extern "C" fn yuglasno_index_add(
    slots: &mut [u8],
    area: &mut [u8],
    told: u32,
    reply: &[u8],
    rx: &[u8],
) -> u32
    ensures { indexed slots.new area.new result ≡ cross_index_add slots.old area.old told reply.now rx.now }
{
    exports::yuglasno_index_add(slots, area, told, reply, rx)
}

#[unsafe(no_mangle)]
pub extern "C" fn yuglasno_index_between(
    slots: &[u8],
    area: usize,
    from: i64,
    to: i64,
    out: &mut [u8],
) -> u32
    ensures { laid out.new result ≡ cross_index_between slots.now area from to out.old }
{
    exports::yuglasno_index_between(slots, area, from, to, out)
}

#[unsafe(no_mangle)]
pub extern "C" fn yuglasno_index_latest(slots: &[u8], area: usize, time: i64, out: &mut [u8]) -> u32
    ensures { laid out.new result ≡ cross_index_latest slots.now area time out.old }
{
    exports::yuglasno_index_latest(slots, area, time, out)
}

#[unsafe(no_mangle)]
pub extern "C" fn yuglasno_index_entry(
    slots: &[u8],
    area: usize,
    rank: usize,
    out: &mut [u8],
) -> u32
    ensures { laid out.new result ≡ cross_index_entry slots.now area rank out.old }
{
    exports::yuglasno_index_entry(slots, area, rank, out)
}

#[unsafe(no_mangle)]
pub extern "C" fn yuglasno_speak(
    settings: &[u8],
    kind: u32,
    numbers: &[u8],
    lent: &[u8],
    out: &mut [u8],
    told: &mut [u8],
) -> u32
    ensures { spoke out.new told.new result ≡ cross_speak settings.now kind numbers.now lent.now out.old told.old }
{
    exports::yuglasno_speak(settings, kind, numbers, lent, out, told)
}

#[unsafe(no_mangle)]
pub extern "C" fn yuglasno_heard(settings: &[u8], bytes: &[u8], out: &mut [u8]) -> u32
    ensures { sliced out.new result ≡ cross_heard settings.now bytes.now out.old }
{
    exports::yuglasno_heard(settings, bytes, out)
}
