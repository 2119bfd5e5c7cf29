// The rows of a lent table: nine numbers for each record.
ghost use Rattle.std.specs.Prelude.{◌≡◌, ◌+◌, ◌*◌, ◌≤◌, length};
ghost use Rattle.words.specs.Le.{puts};
ghost use Rattle.reader.specs.Rows.{row_in};

use rules::Record;
use words::number::joined;

// The numbers of a row.
pub(crate) const ROW: usize = 9;

// A record's row.
fn row_of(r: Record) -> [u64; ROW]
    ensures { result ≡ row_in r }
{
    let w = r.words;
    [
        u32::from(r.kind) as u64,
        r.at.0,
        r.offset.0,
        w.hash[0],
        w.hash[1],
        w.hash[2],
        w.hash[3],
        joined(w.a, w.b),
        joined(w.c, w.d),
    ]
}

// A record, into a row of the table.
pub(crate) fn put_row(table: &mut [u64], count: usize, r: Record)
    requires { 9 * count + 9 ≤ length table.old }
    ensures { table.new ≡ puts table.old (9 * count) (row_in r) }
{
    let row = row_of(r);
    let at = ROW * count;
    for i in 0..ROW {
        table[at + i] = row[i];
    }
}
