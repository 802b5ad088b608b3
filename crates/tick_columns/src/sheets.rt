// A sheet's records by columns: read from it, and places and speeds written back.
ghost use Rattle.std.specs.Prelude.{◌≡◌, ◌*◌, length};
ghost use Rattle.rules.specs.Sheet.{count_of};
ghost use Rattle.tick_columns.specs.Columns.{Read, Writable, written};

use rules::{RECORD_SIZE, VELOCITY_START};
use sheet::{read_flags, read_pairs, write_pairs};

pub fn read_columns(sheet: &[u8], places: &mut [f64], speeds: &mut [f64], flags: &mut [u64])
    requires { (length places.old ≡ count_of sheet.now * 2) × (length speeds.old ≡ count_of sheet.now * 2) × (length flags.old ≡ count_of sheet.now) }
    ensures { Read sheet.now places.new speeds.new flags.new }
{
    read_pairs(sheet, RECORD_SIZE, 0, places);
    read_pairs(sheet, RECORD_SIZE, VELOCITY_START, speeds);
    read_flags(sheet, flags);
}

// Flags stay as they are.
pub fn write_columns(sheet: &mut [u8], places: &[f64], speeds: &[f64])
    requires { Writable sheet.old places.now speeds.now }
    ensures { sheet.new ≡ written sheet.old places.now speeds.now }
{
    write_pairs(sheet, RECORD_SIZE, 0, places);
    write_pairs(sheet, RECORD_SIZE, VELOCITY_START, speeds);
}
