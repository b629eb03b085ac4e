// The CRC-10 of frames, up to eight bits at a time.
#![tactic(auto)]

ghost use Rattle.std.specs.Prelude.{◌≡◌, ◌^◌, ◌<◌, ◌≤◌, take, drop};
ghost use Rattle.bits.specs.Bits.{bits, value, bits_of};
ghost use Rattle.gf2.specs.Register.{feed};
ghost use Rattle.crc.specs.Crc.{g10, crc10_of};

// The k bits v into the register of CRC-10. One table serves each k: leading zeros leave the remainder of v as it is.
fn feed10(r: u16, v: u16, k: usize) -> u16
    requires { (r < 1024) × (k ≤ 8) × (v < 2 ^ k) }
    ensures { result ≡ value (feed g10 (bits_of 10 r) (bits_of k v)) }
{
    let i = (r >> (10 - k)) ^ v;
    ((r << k) % 1024) ^ crc_tables::remainder10(i as u8) as u16
}

// The CRC-10 of the count bits of s from bit at on; bits past the end of s are not there.
pub fn crc10(s: &[u8], at: usize, count: usize) -> u16
    ensures { result ≡ crc10_of (take count (drop at (bits s.now))) }
{
    let mut r: u16 = 0;
    // The next bit is bit o of byte q: its number in bits could be too large for a usize.
    let mut q = at / 8;
    let mut o = at % 8;
    let mut left = count;
    // A turn takes a part of one byte, of one to eight bits: no iterator hands these out.
    while 0 < left {
        if s.len() <= q {
            return r;
        }
        let k = numbers::smaller(8 - o, left);
        let part = bit_parts::read_part(s, q, o, k) as u16;
        r = feed10(r, part, k);
        q += (o + k) / 8;
        o = (o + k) % 8;
        left -= k;
    }
    r
}
