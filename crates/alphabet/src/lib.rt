// The default alphabet of GSM 03.38 and its extension: code points of septets and septets of code points, each by a table.
#![tactic(auto)]

pub mod tables;

ghost use Rattle.std.specs.Prelude.{◌≡◌, ◌-◌, ◌<◌, get_or};
ghost use Rattle.laws.specs.Search.{lookup};
ghost use Rattle.alphabet.specs.Paper.{code_point, pair_septet, septet_of};
ghost use Rattle.alphabet.specs.Inner.{column, pair_point_by, point_by, septet_by};

use tables::{CODE_POINTS, EXTENSION, SEPTETS};

// What stands for the septet of a code point that has none.
// Stays a number: the tables are octets, and no septet is FF.
pub const NONE: u8 = 0xFF;

// The code point of a septet, which is the low seven bits of its octet.
#[tactic(auto, unfolding(crate::specs::Paper::code_point, crate::specs::Paper::alphabet))]
pub fn code_point(septet: u8) -> u16
    ensures { result ≡ code_point septet }
{
    code_point_by(&CODE_POINTS, septet)
}

// The septet that is written for a code point, or `NONE`.
pub fn septet(code: u16) -> u8
    ensures { result ≡ septet_of code }
{
    septet_by(&SEPTETS, code)
}

// The septet that follows 1B where a code point is written, or `NONE`.
pub fn pair_septet(code: u16) -> u8
    ensures { result ≡ pair_septet code }
{
    look_up(&EXTENSION, 1, code, NONE as u16) as u8
}

// The code point of 1B and a septet; a table has those of septets that the extension does not list.
pub fn pair_point_by(table: &[u16; 128], septet: u8) -> u16
    ensures { result ≡ pair_point_by table.now septet }
{
    let own = code_point_by(table, septet);
    look_up(&EXTENSION, 0, (septet % 128) as u16, own)
}

// What stands beside a key in its column, or another number.
// Stays a number of a column: it is one search for both ways through the table.
fn look_up(rows: &[[u16; 2]], by: usize, key: u16, other: u16) -> u16
    requires { by < 2 }
    ensures { result ≡ lookup (column by) (column (1 - by)) rows.now key other }
{
    for row in rows {
        if row[by] == key {
            return row[1 - by];
        }
    }
    other
}

// The tables are lent to what looks things up: a constant is laid out wherever it is named.

// The code point that a table has for a septet.
pub fn code_point_by(table: &[u16; 128], septet: u8) -> u16
    ensures { result ≡ point_by table.now septet }
{
    entry(table, (septet % 128) as usize, 0)
}

// The septet that a table has for a code point, `NONE` past it.
pub fn septet_by(table: &[u8; 938], code: u16) -> u8
    ensures { result ≡ septet_by table.now code }
{
    entry(table, code as usize, NONE)
}

// The entry at a place of a table, or another value past its end.
fn entry<T: Copy, const N: usize>(table: &[T; N], place: usize, other: T) -> T
    ensures { result ≡ get_or table.now place other }
{
    table.get(place).copied().unwrap_or(other)
}
