// An entry in the lent table: thirteen numbers.
ghost use Rattle.std.specs.Prelude.{◌≡◌, ◌+◌, ◌≤◌, length};
ghost use Rattle.standing.specs.Put.{put_at};
ghost use Rattle.lists.specs.Lists.{octet_numbers, time_numbers, entry_numbers};

use entries::Entry;
use products::ForecastTime;
use standing::put_numbers;

// Numbers of an entry.
pub(crate) const ENTRY: usize = 13;

// 1 and the value, or 0 and a number that says nothing.
fn octet_numbers(octet: Option<u8>) -> [u64; 2]
    ensures { result ≡ octet_numbers octet }
{
    match octet {
        Some(n) => [1, n as u64],
        None => [0, 0],
    }
}

// 1, unit and time, or 0 and two numbers that say nothing.
fn time_numbers(time: Option<ForecastTime>) -> [u64; 3]
    ensures { result ≡ time_numbers time }
{
    match time {
        Some(t) => [1, t.unit as u64, t.time as u64],
        None => [0, 0, 0],
    }
}

// The thirteen numbers of an entry.
fn entry_numbers(entry: Entry) -> [u64; ENTRY]
    ensures { result ≡ entry_numbers entry }
{
    let category = octet_numbers(entry.category);
    let number = octet_numbers(entry.number);
    let time = time_numbers(entry.time);
    let surface = octet_numbers(entry.surface);
    [
        entry.message,
        entry.submessage,
        entry.offset.0,
        entry.discipline as u64,
        category[0],
        category[1],
        number[0],
        number[1],
        time[0],
        time[1],
        time[2],
        surface[0],
        surface[1],
    ]
}

// Stores an entry from index `at` on.
pub(crate) fn put_entry(table: &mut [u64], at: usize, entry: Entry)
    requires { at + 13 ≤ length table.old }
    ensures { table.new ≡ put_at at (entry_numbers entry) table.old }
{
    put_numbers(table, at, &entry_numbers(entry));
}
