// Fields of two and four bytes in a list of bytes, the lower byte first (document 01, "The job's bytes"): reading them, and writing them.

#![tactic(auto)]

ghost use Rattle.std.specs.Prelude.{◌≡◌, ◌+◌, ◌*◌, ◌≤◌, length, take, drop};
ghost use Rattle.format.specs.Fields.{number, bytes};
ghost use Rattle.format.specs.Places.{field_at};
ghost use Rattle.fields.specs.Written.{put_at};

// The number that two bytes at a place are.
pub fn u16_at(s: &[u8], at: usize) -> u16
    requires { at + 2 ≤ length s.now }
    ensures { result ≡ number (take 2 (drop at s.now)) }
{
    u16::from_le_bytes([s[at], s[at + 1]])
}

// The same of four bytes.
pub fn u32_at(s: &[u8], at: usize) -> u32
    requires { at + 4 ≤ length s.now }
    ensures { result ≡ number (take 4 (drop at s.now)) }
{
    u32::from_le_bytes([s[at], s[at + 1], s[at + 2], s[at + 3]])
}

// The bytes of a field at a place, all 0 where the bytes end before it does.
fn field<const N: usize>(s: &[u8], at: usize) -> [u8; N]
    ensures { number result ≡ field_at N s.now at }
{
    let mut field = [0; N];
    if N <= s.len() && at <= s.len() - N {
        field.copy_from_slice(&s[at..at + N]);
    }
    field
}

// The field of two bytes at a place, 0 where the bytes end before it does.
pub fn field16(s: &[u8], at: usize) -> u16
    ensures { result ≡ field_at 2 s.now at }
{
    u16::from_le_bytes(field(s, at))
}

// The same of four bytes.
pub fn field32(s: &[u8], at: usize) -> u32
    ensures { result ≡ field_at 4 s.now at }
{
    u32::from_le_bytes(field(s, at))
}

// These bytes from a place on.
fn put(out: &mut [u8], at: usize, new: &[u8])
    requires { at + length new.now ≤ length out.old }
    ensures { out.new ≡ put_at out.old at new.now }
{
    out[at..at + new.len()].copy_from_slice(new);
}

// A number as two bytes, the lower first.
pub fn put16(out: &mut [u8], at: usize, value: u16)
    requires { at + 2 ≤ length out.old }
    ensures { out.new ≡ put_at out.old at (bytes 2 value) }
{
    put(out, at, &value.to_le_bytes());
}

// As four bytes.
pub fn put32(out: &mut [u8], at: usize, value: u32)
    requires { at + 4 ≤ length out.old }
    ensures { out.new ≡ put_at out.old at (bytes 4 value) }
{
    put(out, at, &value.to_le_bytes());
}
