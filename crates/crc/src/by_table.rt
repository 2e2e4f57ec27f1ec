// The check a byte at a time, by a table: the form that holds for any polynomial. Its proof asks of the table only its rule, entry by entry.
ghost use Rattle.std.specs.Prelude.{◌≡◌};
ghost use Rattle.crc.specs.Crc.{crc_byte, crc_from};
ghost use Rattle.crc.specs.Table.{Follows};

use crate::table::TABLE;

// One byte more, by a table that follows the rule.
fn crc_byte(entries: &[u16; 256], crc: u16, b: u8) -> u16
    requires { Follows entries.now }
    ensures { result ≡ crc_byte crc b }
{
    let i = ((crc ^ (b as u16)) % 256) as usize;
    (crc >> 8) ^ entries[i]
}

// The check of any slice from any start, by any table that follows the rule.
fn crc_by(entries: &[u16; 256], start: u16, buffer: &[u8]) -> u16
    requires { Follows entries.now }
    ensures { result ≡ crc_from start buffer.now }
{
    let mut crc = start;
    for b in buffer {
        crc = crc_byte(entries, crc, *b);
    }
    crc
}

// The check of any slice from any start, by `TABLE`.
pub fn crc_plain(start: u16, buffer: &[u8]) -> u16
    ensures { result ≡ crc_from start buffer.now }
{
    let entries = TABLE;
    crc_by(&entries, start, buffer)
}
