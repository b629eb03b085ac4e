// The cable multiplex frame header, 188 bytes: what it holds, and what reading and writing it answer. The rules are in specs/; `header_reader`, `header_legality` and
// `header_writer` compute them, and `header_inserter` lays a frame into it.
#![tactic(auto)]

// The header up to its extension, 99 bytes. Streams are numbered from 1 and slots from 2, so that the first element is that of stream 1 or slot 2.
#[derive(Clone, Copy)]
pub struct Front {
    // 32 bits, byte 0 of the header highest
    pub packet: u64,
    pub sync: u64,
    pub change: u64,
    pub method: u64,
    pub form: u64,
    // 1 for a valid stream
    pub valid: [u64; 15],
    // stream ids, and beside them the original network ids
    pub streams: [u64; 15],
    pub networks: [u64; 15],
    // reception states
    pub states: [u64; 15],
    // a bit that is carried as it stands
    pub carried: u64,
    pub emergency: u64,
    // the stream of each slot, 0 for an empty one
    pub slots: [u64; 52],
}

// The extension, 85 bytes: the 204 AC bits as 25 bytes and then 4 bits.
#[derive(Clone, Copy)]
pub struct Extension {
    pub ac: [u64; 26],
}

// A header without its fixed bits and its CRC, which are derived.
#[derive(Clone, Copy)]
pub struct Header {
    pub front: Front,
    pub extension: Extension,
}

// What reading a header answers: the refusal's number, or 0 with the header, which is all 0 on a refusal.
#[derive(Clone, Copy)]
pub struct HeaderReading {
    pub number: u8,
    pub header: Header,
}
