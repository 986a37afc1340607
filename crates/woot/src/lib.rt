// The types of the replicated text: identifiers, operations, characters, the document, the replica, and what the calls
// return. The rules that they live by are in specs/; the crate `convergence` has the theorems about them.
#![tactic(auto)]

ghost use Rattle.std.specs.Prelude.{◌≡◌};
ghost use Rattle.woot.specs.Operations.{is_visible};
ghost use Rattle.woot.specs.State.{initial};
ghost use Rattle.woot.specs.Memory.{stored};

use answers::{Answer, Refusal};

// The name of a character: the site that typed it and that site's clock then. (Document 01: identifier.)
#[derive(Clone, Copy, PartialEq, Eq)]
pub struct Identifier {
    pub site: u8,
    pub clock: u16,
}

impl Identifier {
    // The marks that stand before the first character and after the last; no character has them.
    pub const BEGIN: Identifier = Identifier { site: 0, clock: 0 };

    pub const END: Identifier = Identifier { site: 0, clock: 1 };

    // Takes any two numbers: the calls judge them.
    pub fn new(site: u8, clock: u16) -> Self
        ensures { result ≡ record { site = site; clock = clock } }
    {
        Identifier { site, clock }
    }
}

// A replica's own number and logical clock. (Document 01: the laptop's record.)
#[derive(Clone, Copy)]
pub struct Site {
    pub number: u8,
    pub clock: u16,
}

// A character to be inserted, with the two that it was typed between. (Document 01: insert.)
#[derive(Clone, Copy)]
pub struct Insert {
    pub id: Identifier,
    pub code_point: u32,
    pub previous: Identifier,
    pub next: Identifier,
}

// A character to be deleted or restored, and who asks for it: the character is to have been deleted and restored this
// many times. (Document 02: what an `E` line says, and its turn.)
#[derive(Clone, Copy)]
pub struct Toggle {
    pub sender: u8,
    pub target: Identifier,
    pub toggles: u8,
}

// What the sites send each other.
#[derive(Clone, Copy)]
pub enum Operation {
    Insert(Insert),
    Toggle(Toggle),
}

// A character in its place, with the count of its deletions and restorations, its causal length. One that is deleted
// stays, no longer visible. (Document 01: row; document 02: turn.)
#[derive(Clone, Copy)]
pub struct Character {
    pub id: Identifier,
    pub code_point: u32,
    pub toggles: u8,
    pub previous: Identifier,
    pub next: Identifier,
}

impl Character {
    // Whether it is visible: restored as often as it was deleted. (Document 01: shown.)
    pub fn is_visible(self) -> bool
        ensures { result ≡ is_visible self }
    {
        self.toggles % 2 == 0
    }
}

// Where characters are found by their keys, which are identifiers as numbers: each key belongs to one of 1,024 chains.
// A chain is a tree, so that keys which share one cannot make it long: its head names its first character, and each
// character has two links to later ones, among which the next bit of the key chooses. A link names a character by one
// more than its index, and 0 none.
#[derive(Clone, Copy)]
pub struct Table {
    pub heads: [u16; CHAINS],
    pub links: [u16; LINKS],
}

// How many chains a table has, and how many links.
pub const CHAINS: usize = 1024;

pub const LINKS: usize = 2048;

// How many characters a document has slots for, and how many pending operations.
pub const CHARACTERS: usize = 1024;

pub const PENDING: usize = 512;

// Where the columns of the characters begin, behind that of their keys, and how many numbers the four have.
pub const PREVIOUS_KEYS: usize = 1024;

pub const NEXT_KEYS: usize = 2048;

pub const CODE_POINTS: usize = 3072;

pub const CHARACTER_NUMBERS: usize = 4096;

// The same of the pending operations' columns, the first of which holds their own keys.
pub const FIRST_KEYS: usize = 512;

pub const SECOND_KEYS: usize = 1024;

pub const VALUES: usize = 1536;

pub const PENDING_NUMBERS: usize = 2048;

// The characters in order, each in the same slot of four columns that lie one behind another in one array: its key,
// which is its identifier as a number, its previous's, its next's, and its code point. The counts of their toggles lie
// beside them. The pending operations, earliest first, each in the same slot of four columns: of an insert its own key,
// its previous's and its next's, and its code point; of a toggle 0, the target's key, 0, and 256 times the sender and
// the count. The counts say how many slots are in use; a character is found by the table. (Document 01: the sheet
// without its record.)
#[derive(Clone, Copy)]
pub struct Document {
    pub characters: [u32; CHARACTER_NUMBERS],
    pub toggles: [u8; CHARACTERS],
    pub length: usize,
    pub pending: [u32; PENDING_NUMBERS],
    pub waiting: usize,
    pub table: Table,
}

// One site's copy of the text. (Document 01: sheet.)
#[derive(Clone, Copy)]
pub struct Replica {
    pub site: Site,
    pub document: Document,
}

impl Replica {
    // A replica with no characters, nothing pending and clock 0. Takes any number: the calls judge it.
    // (Document 01: an empty sheet.)
    pub fn empty(number: u8) -> Self
        ensures { result ≡ stored (initial number) }
    {
        Replica {
            site: Site { number, clock: 0 },
            document: Document {
                characters: [0u32; CHARACTER_NUMBERS],
                toggles: [0u8; CHARACTERS],
                length: 0,
                pending: [0u32; PENDING_NUMBERS],
                waiting: 0,
                table: Table {
                    heads: [0u16; CHAINS],
                    links: [0u16; LINKS],
                },
            },
        }
    }
}

// What inserting, deleting and restoring here come to where they are not refused: the operation to be sent, and how many
// were carried out and how many discarded.
#[derive(Clone, Copy)]
pub struct Sent {
    pub operation: Operation,
    pub integrated: usize,
    pub discarded: usize,
}

// What receiving returns: the answer, and the replica as it is then.
#[derive(Clone, Copy)]
pub struct Receipt {
    pub answer: Answer,
    pub replica: Replica,
}

// What receiving with a cursor returns: the answer, the replica as it is then, and how far the cursor moves. (Document
// 02: the shift.)
#[derive(Clone, Copy)]
pub struct ReceiptAt {
    pub answer: Answer,
    pub replica: Replica,
    pub shift: i32,
}

// What inserting, deleting and restoring here return.
#[derive(Clone, Copy)]
pub struct Generated {
    pub answer: Result<Sent, Refusal>,
    pub replica: Replica,
}
