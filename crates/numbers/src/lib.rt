// Little-endian numbers read from lent bytes, from their digits to the base of 256, as the definition has them: `from_le_bytes` would need each byte named
// in an array first, which is no plainer.
#![tactic(auto)]

ghost use Rattle.std.specs.Prelude.{◌+◌, ◌<◌, ◌≤◌, ◌≡◌, length, get_or};
ghost use Rattle.numbers.specs.Number.{number};

pub fn byte(s: &[u8], at: usize) -> u32
    requires { at < length s.now }
    ensures { (result ≡ get_or s.now at 0) × (result < 256) }
{
    u32::from(s[at])
}

pub fn get16(s: &[u8], at: usize) -> u32
    requires { at + 2 ≤ length s.now }
    ensures { (result ≡ number 2 s.now at) × (result < 65536) }
{
    byte(s, at) + 256 * byte(s, at + 1)
}

pub fn get32(s: &[u8], at: usize) -> u32
    requires { at + 4 ≤ length s.now }
    ensures { (result ≡ number 4 s.now at) × (result < 4294967296) }
{
    get16(s, at) + 65536 * get16(s, at + 2)
}
