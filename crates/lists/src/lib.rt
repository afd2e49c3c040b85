// The reader of a list (document 02, Ticket 1): the lines of a lent text, as entries in a lent
// table.
#![tactic(auto)]

ghost use Rattle.std.specs.Prelude.{◌≡◌};
ghost use Rattle.lists.specs.Lists.{read_of};
ghost use Rattle.lists.specs.End.{list_end};

mod line;
mod table;

use index::End;
use line::line_at;
use table::{ENTRY, put_entry};

// Why a list is not read to its end.
#[derive(Clone, Copy)]
pub enum ListRefusal {
    // 21: a line is not in this form; its number, from 1.
    NotInForm(u64),
    // 14: an entry is due, and the table is full.
    TableFull,
}

// How many entries stand in the table, and how the reading ended.
#[derive(Clone, Copy)]
pub struct ListAnswer {
    pub entries: u64,
    pub end: Result<(), ListRefusal>,
}

// Reads the lines of a text one after the other and stores an entry for each, thirteen numbers, up
// to the first line that is not in form (21, with its number) or finds no room (14), and counts
// them; the rest of the table is untouched.
pub fn read_list(text: &[u8], table: &mut [u64]) -> ListAnswer
    ensures answer { result ≡ (read_of text.now table.old).answer }
    ensures table { table.new
        ≡ (read_of text.now table.old).table }
{
    let room = (table.len() / ENTRY) as u64;
    let mut read: u64 = 0;
    let mut at: usize = 0;
    while at < text.len() {
        let Some((entry, next)) = line_at(text, at) else {
            return ListAnswer {
                entries: read,
                end: Err(ListRefusal::NotInForm(read + 1)),
            };
        };
        if room <= read {
            return ListAnswer {
                entries: read,
                end: Err(ListRefusal::TableFull),
            };
        }
        put_entry(table, read as usize * ENTRY, entry);
        read += 1;
        at = next;
    }
    ListAnswer {
        entries: read,
        end: Ok(()),
    }
}

// How the reading ended, in numbers.
pub fn list_end(end: Result<(), ListRefusal>) -> End
    ensures { result ≡ list_end end }
{
    match end {
        Ok(()) => End {
            outcome: 0,
            place: 0,
            offset: 0,
            detail: 0,
        },
        Err(ListRefusal::NotInForm(line)) => End {
            outcome: 21,
            place: 0,
            offset: 0,
            detail: line,
        },
        Err(ListRefusal::TableFull) => End {
            outcome: 14,
            place: 0,
            offset: 0,
            detail: 0,
        },
    }
}
