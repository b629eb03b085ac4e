// The CRC-32 of headers, eight bytes at a time.
#![tactic(auto)]

ghost use Rattle.std.specs.Prelude.{◌≡◌, [], ◌∷◌, ◌*◌, ◌/◌, ◌<◌, length, take};
ghost use Rattle.bits.specs.Bits.{bits, value, bits_of};
ghost use Rattle.gf2.specs.Polynomial.{check_bits};
ghost use Rattle.gf2.specs.Register.{feed};
ghost use Rattle.crc.specs.Crc.{g32, crc32_of};

// A bit into the register of CRC-32: where it differs from the one that leaves at the top, the generator is added.
fn feed_bit(r: u32, b: u32) -> u32
    requires { b < 2 }
    ensures { result ≡ value (feed g32 (bits_of 32 r) (bits_of 1 b)) }
{
    let k = (r >> 31) ^ b;
    (r << 1) ^ (k * 0x04C1_1DB7)
}

// A byte into the register, bit by bit. It uses no table: the compiler inlines a table that has one caller, and check_group is that one.
fn feed_byte(r: u32, b: u8) -> u32
    ensures { result ≡ value (feed g32 (bits_of 32 r) (bits_of 8 b)) }
{
    let mut z = r;
    for i in 0..8usize {
        z = feed_bit(z, (b as u32 >> (7 - i)) % 2);
    }
    z
}

// What eight bytes leave in a register of zeros, each by the table of as many bytes as come after it. The last ones are summed first, since only
// the first four wait for the register.
fn check_group(b0: u8, b1: u8, b2: u8, b3: u8, b4: u8, b5: u8, b6: u8, b7: u8) -> u32
    ensures { result ≡ value (check_bits g32 (bits (b0 ∷ b1 ∷ b2 ∷ b3 ∷ b4 ∷ b5 ∷ b6 ∷ b7 ∷ []))) }
{
    crc_tables::table0(b7)
        ^ crc_tables::table1(b6)
        ^ crc_tables::table2(b5)
        ^ crc_tables::table3(b4)
        ^ crc_tables::table4(b3)
        ^ crc_tables::table5(b2)
        ^ crc_tables::table6(b1)
        ^ crc_tables::table7(b0)
}

// Eight bytes into the register of CRC-32: it is added to the first four.
fn feed_group(r: u32, g: &[u8]) -> u32
    requires { length g.now ≡ 8 }
    ensures { result ≡ value (feed g32 (bits_of 32 r) (bits g.now)) }
{
    check_group(
        ((r >> 24) % 256) as u8 ^ g[0],
        ((r >> 16) % 256) as u8 ^ g[1],
        ((r >> 8) % 256) as u8 ^ g[2],
        (r % 256) as u8 ^ g[3],
        g[4],
        g[5],
        g[6],
        g[7],
    )
}

// The register after the whole groups of eight bytes of s.
fn feed_groups(s: &[u8]) -> u32
    ensures { result ≡ crc32_of (bits (take (length s.now / 8 * 8) s.now)) }
{
    let mut r: u32 = 0xFFFF_FFFF;
    for group in s.chunks_exact(8) {
        r = feed_group(r, group);
    }
    r
}

// The CRC-32 of all of s: eight bytes at a time, then the bytes that are left.
pub fn crc32(s: &[u8]) -> u32
    ensures { result ≡ crc32_of (bits s.now) }
{
    let mut r = feed_groups(s);
    let tail = s.chunks_exact(8).remainder();
    for byte in tail {
        r = feed_byte(r, *byte);
    }
    r
}
