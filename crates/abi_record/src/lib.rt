// A frame's record over plain numbers: its fields in their order, then the tuner's number and the number of repaired places. Both functions require that
// there are as many values as a record has: their callers have tested the length of what they were lent.
#![tactic(auto)]

ghost use Rattle.std.specs.Prelude.{◌≡◌, length};
ghost use Rattle.abi_record.specs.Values.{value_count, values_of, record_at};

use frame::{FIELDS, Origin, Record};

// How many values a record has, and where the two after its fields stand.
pub const VALUES: usize = 21;

const TUNER: usize = 19;

const REPAIRED: usize = 20;

// The values of a record.
pub fn put_record(contents: Record, values: &mut [u64])
    requires { length values.old ≡ value_count }
    ensures { values.new ≡ values_of contents }
{
    let fields = frame_fields::fields_of(contents);
    abi::copy(&fields, &mut values[0..FIELDS]);
    let origin = contents.origin;
    let tuner = origin.tuner;
    values[TUNER] = abi_tuner::tuner_number(tuner) as u64;
    values[REPAIRED] = origin.repaired as u64;
}

// The record that has these values. No rule looks at where it came from: of the number of repaired places the low 8 bits are kept.
pub fn record_at(values: &[u64]) -> Record
    requires { length values.now ≡ value_count }
    ensures { result ≡ record_at values.now }
{
    let origin = Origin {
        tuner: abi_tuner::tuner_of(values[TUNER]),
        repaired: (values[REPAIRED] % 256) as u8,
    };
    frame_fields::record_of(origin, &values[0..FIELDS])
}
