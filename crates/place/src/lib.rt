// Where a hypocentre is: the frame's field values as degrees and kilometres, and the desk's place as field values. The rules are in specs/;
// `place_images` and `place_desk` compute them.
#![tactic(auto)]

// A place as three doubles: degrees, south and west negative, and kilometres.
#[derive(Clone, Copy)]
pub struct Place {
    pub latitude: f64,
    pub longitude: f64,
    pub depth: f64,
}

// A place as a frame's field values: tenths of a degree with their flags, and kilometres.
#[derive(Clone, Copy)]
pub struct Fields {
    // 1 for south
    pub south: u64,
    pub latitude: u64,
    // 1 for west
    pub west: u64,
    pub longitude: u64,
    pub depth: u64,
}

// What the desk's place becomes.
#[derive(Clone, Copy)]
pub enum Conversion {
    Converted(Fields),
    Refused(u8),
}

// Tenths of a degree with the flag for south or west, which is 1.
#[derive(Clone, Copy)]
pub struct SignedTenths {
    pub flag: u64,
    pub tenths: u64,
}
