// A header's fields, out of the order of the layout and into it. Nothing here is an entry point of the box.
#![tactic(auto)]

ghost use Rattle.std.specs.Prelude.{◌≡◌};
ghost use Rattle.header.specs.Fields.{front_fields, front_of, extension_of};

use header::{Extension, Front};

// The front that has these fields.
pub fn front_of(v: &[u64; 119]) -> Front
    ensures { result ≡ front_of v.now }
{
    let valid = header_arrays::run::<15>(v, 5, 1);
    let streams = header_arrays::run::<15>(v, 20, 2);
    let networks = header_arrays::run::<15>(v, 21, 2);
    let states = header_arrays::run::<15>(v, 50, 1);
    let slots = header_arrays::run::<52>(v, 67, 1);
    Front {
        packet: v[0],
        sync: v[1],
        change: v[2],
        method: v[3],
        form: v[4],
        valid,
        streams,
        networks,
        states,
        carried: v[65],
        emergency: v[66],
        slots,
    }
}

// The extension that has these fields.
pub fn extension_of(v: &[u64; 26]) -> Extension
    ensures { result ≡ extension_of v.now }
{
    let ac = header_arrays::run::<26>(v, 0, 1);
    Extension { ac }
}

// The fields of a front.
pub fn front_fields(front: Front) -> [u64; 119]
    ensures { result ≡ front_fields front }
{
    let mut v = header_arrays::zeros::<119>();
    v[0] = front.packet;
    v[1] = front.sync;
    v[2] = front.change;
    v[3] = front.method;
    v[4] = front.form;
    let valid = front.valid;
    header_arrays::put_values(&valid, &mut v, 5);
    let streams = front.streams;
    let networks = front.networks;
    header_arrays::put_pairs(&streams, &networks, &mut v, 20);
    let states = front.states;
    header_arrays::put_values(&states, &mut v, 50);
    v[65] = front.carried;
    v[66] = front.emergency;
    let slots = front.slots;
    header_arrays::put_values(&slots, &mut v, 67);
    v
}
