// Reading a header: the tests in their order, and the header.
#![tactic(auto)]

ghost use Rattle.std.specs.Prelude.{◌≡◌, length};
ghost use Rattle.header.specs.Tests.{crc_wrong};
ghost use Rattle.header.specs.Header.{no_header, header_refusal, header_read_of};
ghost use Rattle.header_reader.specs.Parts.{front_found, extension_found};

use header::{Extension, Front, Header, HeaderReading};

// A part, and whether its fixed bits are as they should be.
#[derive(Clone, Copy)]
pub struct FrontFound {
    pub fixed: bool,
    pub front: Front,
}

#[derive(Clone, Copy)]
pub struct ExtensionFound {
    pub fixed: bool,
    pub extension: Extension,
}

// Bytes 0 to 98.
fn find_front(h: &[u8]) -> FrontFound
    requires { length h.now ≡ 188 }
    ensures { result ≡ front_found h.now }
{
    let layout = header_tables::front_layout();
    let mut v = header_arrays::zeros::<119>();
    let fixed = segments::read_fields(&h[0..99], &layout, &mut v);
    let front = header_fields::front_of(&v);
    FrontFound { fixed, front }
}

// Bytes 99 to 183.
fn find_extension(h: &[u8]) -> ExtensionFound
    requires { length h.now ≡ 188 }
    ensures { result ≡ extension_found h.now }
{
    let layout = header_tables::extension_layout();
    let mut v = header_arrays::zeros::<26>();
    let fixed = segments::read_fields(&h[99..184], &layout, &mut v);
    let extension = header_fields::extension_of(&v);
    ExtensionFound { fixed, extension }
}

fn crc_wrong(h: &[u8]) -> bool
    requires { length h.now ≡ 188 }
    ensures { result ≡ crc_wrong h.now }
{
    crc32::crc32(&h[4..188]) != 0
}

// A header of zeros.
fn no_header() -> Header
    ensures { result ≡ no_header }
{
    let none = header_arrays::zeros::<119>();
    let front = header_fields::front_of(&none);
    let nothing = header_arrays::zeros::<26>();
    let extension = header_fields::extension_of(&nothing);
    Header { front, extension }
}

// The refusal of 188 bytes, when its parts have been found.
fn refusal_of(h: &[u8], front: FrontFound, extension: ExtensionFound) -> u8
    requires { length h.now ≡ 188 × (front ≡ front_found h.now) × (extension ≡ extension_found h.now) }
    ensures { result ≡ header_refusal h.now }
{
    let found = front.front;
    if found.packet >> 24 != 0x47 {
        return 12;
    }
    if crc_wrong(h) {
        return 13;
    }
    if found.form != 1 {
        return 14;
    }
    if !front.fixed {
        return 15;
    }
    let states = found.states;
    if header_arrays::has(&states, 3) {
        return 15;
    }
    if !extension.fixed {
        return 15;
    }
    0
}

// The refusal of any bytes, or 0.
pub fn refusal(h: &[u8]) -> u8
    ensures { result ≡ header_refusal h.now }
{
    if h.len() != 188 {
        return 1;
    }
    refusal_of(h, find_front(h), find_extension(h))
}

// A header read: its refusal, or 0 with the header, which is all 0 on a refusal.
pub fn read(h: &[u8]) -> HeaderReading
    ensures { result ≡ header_read_of h.now }
{
    if h.len() != 188 {
        return HeaderReading {
            number: 1,
            header: no_header(),
        };
    }
    let first = find_front(h);
    let second = find_extension(h);
    let number = refusal_of(h, first, second);
    if number != 0 {
        return HeaderReading {
            number,
            header: no_header(),
        };
    }
    let front = first.front;
    let extension = second.extension;
    HeaderReading {
        number: 0,
        header: Header { front, extension },
    }
}
