// The reader of a list: a table is lent, and the answer is how many entries stand in it and how the
// reading ended.
ghost use Rattle.std.specs.Prelude.{◌≡◌};
ghost use Rattle.lists.specs.Lists.{read_of};
ghost use Rattle.buttresk.specs.Lists.{read_answer_of};

use lists::{ListAnswer, list_end, read_list};

#[repr(C)]
#[derive(Clone, Copy)]
pub struct ReadAnswer {
    pub entries: u64,
    pub outcome: u64,
    pub place: u64,
    pub offset: u64,
    pub detail: u64,
}

impl From<ListAnswer> for ReadAnswer {
    // The entries of an answer, and the four numbers of its end.
    fn from(answer: ListAnswer) -> ReadAnswer
        ensures { result ≡ read_answer_of answer }
    {
        let end = list_end(answer.end);
        ReadAnswer {
            entries: answer.entries,
            outcome: end.outcome,
            place: end.place,
            offset: end.offset,
            detail: end.detail,
        }
    }
}

// Reads a list. The table is lent as numbers, thirteen to an entry; what is left over is no room.
// Entries that were stored before a refusal stand, and room beyond their count is untouched.
#[unsafe(no_mangle)]
pub extern "C" fn buttresk_read_list(text: &[u8], entries: &mut [u64]) -> ReadAnswer
    ensures answer { result
        ≡ read_answer_of (read_of text.now entries.old).answer }
    ensures entries { entries.new
        ≡ (read_of text.now entries.old).table }
{
    ReadAnswer::from(read_list(text, entries))
}
