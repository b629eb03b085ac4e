// What C and Rust programs call; include/gvozdyana.h declares it all.
//
// Every exported function takes any numbers and any bytes of any length; where a frame or record is judged, the first number names the edition (0 the
// first, 1 area safety, any other is taken for the first). Most return a status: the refusal's number in the low 8 bits, 0 where there is none, and above
// them what else they tell; gvz_capture_source, gvz_capture_numbers and gvz_crc32 refuse nothing and return their answer itself. A record, ledger, word, place or
// field buffer whose length is wrong is refusal 1, before anything else is looked at, and a refusal leaves every lent buffer as it was. The definitions
// stand in the specs/ of the crates that are called.
#![tactic(auto)]

ghost use Rattle.std.specs.Prelude.{◌≡◌};
ghost use Rattle.dsc.specs.Marks.{unmarked, marked};
ghost use Rattle.abi_edition.specs.Edition.{edition_of};
ghost use Rattle.abi_tuner.specs.Tuner.{tuner_of};
ghost use Rattle.abi_repair.specs.Repair.{repair_status, repair_word};
ghost use Rattle.abi_frame.specs.Frame.{frame_read_status, frame_read_record, frame_write_status, frame_write_bytes, warned_status};
ghost use Rattle.abi_marked_frame.specs.Judged.{judge_marked_status};
ghost use Rattle.abi_place.specs.Place.{report_status, report_place, desk_status, desk_fields};
ghost use Rattle.abi_receiver.specs.Receiver.{follow_status, capture_source, capture_numbers};
ghost use Rattle.abi_ledger.specs.Ledger.{count_status, count_numbers, length_status, print_status, print_text, parse_status, parse_numbers};
ghost use Rattle.abi_header.specs.Header.{header_read_status, header_read_values, header_write_status, header_write_bytes};
ghost use Rattle.abi_laying.specs.Laying.{lay_in_status, take_out_status};
ghost use Rattle.header_laying.specs.Laying.{lay_in_of, take_out_of};
ghost use Rattle.bits.specs.Bits.{bits};
ghost use Rattle.crc.specs.Crc.{crc32_of};

// The repair asked for alone.
#[unsafe(no_mangle)]
pub extern "C" fn gvz_repair(frame: &[u8], word: &mut [u8]) -> u32
    ensures value { result ≡ repair_status unmarked frame.now word.old }
    ensures word_after { word.new ≡ repair_word unmarked frame.now word.old }
{
    abi_repair::repair(frame, word)
}

// The same answers by the second engine.
#[unsafe(no_mangle)]
pub extern "C" fn gvz_repair_register(frame: &[u8], word: &mut [u8]) -> u32
    ensures value { result ≡ repair_status unmarked frame.now word.old }
    ensures word_after { word.new ≡ repair_word unmarked frame.now word.old }
{
    abi_repair::repair_register(frame, word)
}

// The repair with doubtful marks: the unmarked places in which the word differs stand above the number.
#[unsafe(no_mangle)]
pub extern "C" fn gvz_repair_marked(frame: &[u8], marks: &[u8], word: &mut [u8]) -> u32
    ensures value { result ≡ repair_status (marked marks.now) frame.now word.old }
    ensures word_after { word.new ≡ repair_word (marked marks.now) frame.now word.old }
{
    abi_repair::repair_marked(frame, marks, word)
}

#[unsafe(no_mangle)]
pub extern "C" fn gvz_frame_read(edition: u32, tuner: u32, frame: &[u8], values: &mut [u64]) -> u32
    ensures value { result ≡ frame_read_status (edition_of edition) unmarked (tuner_of tuner) frame.now values.old }
    ensures values_after { values.new ≡ frame_read_record (edition_of edition) unmarked (tuner_of tuner) frame.now values.old }
{
    abi_frame::frame_read(edition, tuner, frame, values)
}

#[unsafe(no_mangle)]
pub extern "C" fn gvz_frame_read_marked(
    edition: u32,
    tuner: u32,
    frame: &[u8],
    marks: &[u8],
    values: &mut [u64],
) -> u32
    ensures value { result ≡ frame_read_status (edition_of edition) (marked marks.now) (tuner_of tuner) frame.now values.old }
    ensures values_after { values.new ≡ frame_read_record (edition_of edition) (marked marks.now) (tuner_of tuner) frame.now values.old }
{
    abi_marked_frame::frame_read_marked(edition, tuner, frame, marks, values)
}

// By the first edition.
#[unsafe(no_mangle)]
pub extern "C" fn gvz_frame_judge_marked(frame: &[u8], marks: &[u8]) -> u32
    ensures { result ≡ judge_marked_status frame.now marks.now }
{
    abi_marked_frame::frame_judge_marked(frame, marks)
}

#[unsafe(no_mangle)]
pub extern "C" fn gvz_frame_write(edition: u32, values: &[u64], frame: &mut [u8]) -> u32
    ensures value { result ≡ frame_write_status (edition_of edition) values.now frame.old }
    ensures frame_after { frame.new ≡ frame_write_bytes (edition_of edition) values.now frame.old }
{
    abi_frame::frame_write(edition, values, frame)
}

#[unsafe(no_mangle)]
pub extern "C" fn gvz_warned(values: &[u64], area: u64) -> u32
    ensures { result ≡ warned_status values.now area }
{
    abi_frame::warned(values, area)
}

#[unsafe(no_mangle)]
pub extern "C" fn gvz_report(edition: u32, values: &[u64], place: &mut [f64]) -> u32
    ensures value { result ≡ report_status (edition_of edition) values.now place.old }
    ensures place_after { place.new ≡ report_place (edition_of edition) values.now place.old }
{
    abi_place::report(edition, values, place)
}

#[unsafe(no_mangle)]
pub extern "C" fn gvz_desk(latitude: f64, longitude: f64, depth: f64, fields: &mut [u64]) -> u32
    ensures value { result ≡ desk_status latitude longitude depth fields.old }
    ensures fields_after { fields.new ≡ desk_fields latitude longitude depth fields.old }
{
    abi_place::desk(latitude, longitude, depth, fields)
}

#[unsafe(no_mangle)]
pub extern "C" fn gvz_follow(edition: u32, state: u32, frame: &[u8]) -> u32
    ensures { result ≡ follow_status (edition_of edition) state frame.now }
{
    abi_receiver::follow(edition, state, frame)
}

#[unsafe(no_mangle)]
pub extern "C" fn gvz_capture_source(edition: u32, main: &[u8], spare: &[u8], n: u64) -> u32
    ensures { result ≡ capture_source (edition_of edition) main.now spare.now n }
{
    abi_receiver::capture_source(edition, main, spare, n)
}

#[unsafe(no_mangle)]
pub extern "C" fn gvz_capture_numbers(edition: u32, main: &[u8], spare: &[u8], n: u64) -> u32
    ensures { result ≡ capture_numbers (edition_of edition) main.now spare.now n }
{
    abi_receiver::capture_numbers(edition, main, spare, n)
}

// The day's ledger: a frame counted, how many bytes the report has, the report printed, and read.
#[unsafe(no_mangle)]
pub extern "C" fn gvz_ledger_count(edition: u32, ledger: &mut [u64], frame: &[u8]) -> u32
    ensures value { result ≡ count_status (edition_of edition) ledger.old frame.now }
    ensures ledger_after { ledger.new ≡ count_numbers (edition_of edition) ledger.old frame.now }
{
    abi_ledger::ledger_count(edition, ledger, frame)
}

#[unsafe(no_mangle)]
pub extern "C" fn gvz_ledger_length(ledger: &[u64]) -> u32
    ensures { result ≡ length_status ledger.now }
{
    abi_ledger::ledger_length(ledger)
}

#[unsafe(no_mangle)]
pub extern "C" fn gvz_ledger_print(ledger: &[u64], text: &mut [u8]) -> u32
    ensures value { result ≡ print_status ledger.now text.old }
    ensures text_after { text.new ≡ print_text ledger.now text.old }
{
    abi_ledger::ledger_print(ledger, text)
}

#[unsafe(no_mangle)]
pub extern "C" fn gvz_ledger_parse(text: &[u8], ledger: &mut [u64]) -> u32
    ensures value { result ≡ parse_status text.now ledger.old }
    ensures ledger_after { ledger.new ≡ parse_numbers text.now ledger.old }
{
    abi_ledger::ledger_parse(text, ledger)
}

#[unsafe(no_mangle)]
pub extern "C" fn gvz_header_read(header: &[u8], values: &mut [u64]) -> u32
    ensures value { result ≡ header_read_status header.now values.old }
    ensures values_after { values.new ≡ header_read_values header.now values.old }
{
    abi_header::header_read(header, values)
}

#[unsafe(no_mangle)]
pub extern "C" fn gvz_header_write(values: &[u64], header: &mut [u8]) -> u32
    ensures value { result ≡ header_write_status values.now header.old }
    ensures header_after { header.new ≡ header_write_bytes values.now header.old }
{
    abi_header::header_write(values, header)
}

#[unsafe(no_mangle)]
pub extern "C" fn gvz_lay_in(edition: u32, header: &mut [u8], frame: &[u8]) -> u32
    ensures value { result ≡ lay_in_status (edition_of edition) unmarked header.old frame.now }
    ensures header_after { header.new ≡ lay_in_of (edition_of edition) unmarked header.old frame.now }
{
    abi_laying::lay_in(edition, header, frame)
}

#[unsafe(no_mangle)]
pub extern "C" fn gvz_lay_in_marked(
    edition: u32,
    header: &mut [u8],
    frame: &[u8],
    marks: &[u8],
) -> u32
    ensures value { result ≡ lay_in_status (edition_of edition) (marked marks.now) header.old frame.now }
    ensures header_after { header.new ≡ lay_in_of (edition_of edition) (marked marks.now) header.old frame.now }
{
    abi_laying::lay_in_marked(edition, header, frame, marks)
}

#[unsafe(no_mangle)]
pub extern "C" fn gvz_take_out(header: &mut [u8]) -> u32
    ensures value { result ≡ take_out_status header.old }
    ensures header_after { header.new ≡ take_out_of header.old }
{
    abi_laying::take_out(header)
}

// The CRC-32 of any bytes, as a header's is taken: nothing is refused, and the answer is the CRC itself.
#[unsafe(no_mangle)]
pub extern "C" fn gvz_crc32(bytes: &[u8]) -> u32
    ensures { result ≡ crc32_of (bits bytes.now) }
{
    crc32::crc32(bytes)
}
