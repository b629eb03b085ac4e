// The 204 AC bits of a header's extension as a table.
ghost use Rattle.std.specs.Prelude.{◌≡◌};
ghost use Rattle.header_tables.specs.AcTables.{ac_ones};

// All of them 1, as the extension's fields have them.
pub fn ac_ones() -> [u64; 26]
    ensures { result ≡ ac_ones }
{
    [
        255, 255, 255, 255, 255, 255, 255, 255, 255, 255, 255, 255, 255, 255, 255, 255, 255, 255,
        255, 255, 255, 255, 255, 255, 255, 15,
    ]
}
