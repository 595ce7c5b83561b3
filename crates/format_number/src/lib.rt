// Numbers in bytes, the lowest byte first, and bytes copied over others (000's sync/format.rs).
#![tactic(auto)]

ghost use Rattle.std.specs.Prelude.{◌≡◌, pos};
ghost use Rattle.protocol.specs.Bytes.{whole, put, bytes_of};
ghost use Rattle.protocol.specs.Records.{u32_at, u64_at, i64_at};
ghost use Rattle.format_number.specs.Words.{words};

// The number that the four bytes at off spell; 0 where they are not all there, as `whole` has it. (One function for each width: a generic one would take a
// trait of two integers for one line.)
pub fn u32_at(s: &[u8], off: usize) -> u32
    ensures { result ≡ whole 4 0 (u32_at 0) s.now off }
{
    let Some(rest) = s.get(off..) else {
        return 0;
    };
    let Some(bytes) = rest.first_chunk() else {
        return 0;
    };
    u32::from_le_bytes(*bytes)
}

// The same of eight bytes.
pub fn u64_at(s: &[u8], off: usize) -> u64
    ensures { result ≡ whole 8 0 (u64_at 0) s.now off }
{
    let Some(rest) = s.get(off..) else {
        return 0;
    };
    let Some(bytes) = rest.first_chunk() else {
        return 0;
    };
    u64::from_le_bytes(*bytes)
}

// The same of eight bytes, as a signed number: two's complement.
pub fn i64_at(s: &[u8], off: usize) -> i64
    ensures { result ≡ whole 8 (pos 0) (i64_at 0) s.now off }
{
    u64_at(s, off).cast_signed()
}

// The four bytes of x over those at off; nothing where they do not fit.
pub fn put_u32(out: &mut [u8], off: usize, x: u32)
    ensures { out.new ≡ put out.old off (bytes_of 4 x) }
{
    if out.len() < off || out.len() - off < 4 {
        return;
    }
    out[off..off + 4].copy_from_slice(&x.to_le_bytes());
}

// The same with the eight bytes of x.
pub fn put_u64(out: &mut [u8], off: usize, x: u64)
    ensures { out.new ≡ put out.old off (bytes_of 8 x) }
{
    if out.len() < off || out.len() - off < 8 {
        return;
    }
    out[off..off + 8].copy_from_slice(&x.to_le_bytes());
}

// The bytes of src over those at off; nothing where they do not fit.
pub fn put_bytes(out: &mut [u8], off: usize, src: &[u8])
    ensures { out.new ≡ put out.old off src.now }
{
    if out.len() < off || out.len() - off < src.len() {
        return;
    }
    // byte by byte: `copy_from_slice` of any length makes the library ask for `memmove`
    for i in 0..src.len() {
        out[off + i] = src[i];
    }
}

// The numbers in eight bytes each over those at off; nothing where they do not fit.
pub fn put_u64s<const N: usize>(out: &mut [u8], off: usize, numbers: [u64; N])
    ensures { out.new ≡ put out.old off (words numbers.entry) }
{
    if out.len() < off || (out.len() - off) / 8 < numbers.len() {
        return;
    }
    for (i, n) in numbers.iter().enumerate() {
        let at = off + 8 * i;
        out[at..at + 8].copy_from_slice(&n.to_le_bytes());
    }
}
