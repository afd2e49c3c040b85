// A section in the list.
ghost use Rattle.std.specs.Prelude.{◌≡◌};
ghost use Rattle.index.specs.Lines.{unlisted};

use framing::{Offset, Section};
use order::Place;

#[derive(Clone, Copy)]
pub struct Listed {
    pub place: Place,
    pub section: Section,
}

// What stands for the last section before there is one: nothing asks for it until a section is
// listed.
pub fn unlisted() -> Listed
    ensures { result ≡ unlisted }
{
    Listed {
        place: Place(0),
        section: Section {
            number: 0,
            offset: Offset(0),
            length: 0,
        },
    }
}
