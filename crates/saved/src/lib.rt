// Saved replicas and archives: the types and the definitions of their format, and the theorems about it. `loading`
// reads them, and `saving` writes them.
#![tactic(auto)]

ghost use Rattle.std.specs.Prelude.{◌≡◌};
ghost use Rattle.saved.specs.Format.{site_head, last_toggle_field, toggle_field};
ghost use Rattle.saved.specs.Rows.{version_of};

use answers::Refusal;
use woot::Replica;

// The head words of the lines of a site, in the first form and in the second, of a character, and of a character with
// its place.
pub const FIRST_SITE: [u8; 1] = [83];

pub const SITE: [u8; 2] = [83, 50];

pub const CHARACTER: u8 = 67;

pub const PLACED: u8 = 80;

// The forms of a saved replica: document 01's, and that of document 02, Req 05.
#[derive(Clone, Copy)]
pub enum Version {
    First,
    Second,
}

impl Version {
    // The head word of a site's line.
    pub fn site_head(self) -> &'static [u8]
        ensures { result.now ≡ site_head self }
    {
        match self {
            Version::First => &FIRST_SITE,
            Version::Second => &SITE,
        }
    }

    // The limit of the number that says a character's toggles.
    pub fn last_toggle_field(self) -> u64
        ensures { result ≡ last_toggle_field self }
    {
        match self {
            Version::First => 1,
            Version::Second => 255,
        }
    }

    // The number that says so many toggles, and the toggles that such a number says.
    pub fn toggle_field(self, number: u64) -> u64
        ensures { result ≡ toggle_field self number }
    {
        match self {
            Version::First => exchanged(number),
            Version::Second => number,
        }
    }
}

// 0 for 1 and 1 for 0; any other number as it is.
fn exchanged(number: u64) -> u64
    ensures { result ≡ toggle_field Version.First number }
{
    match number {
        0 => 1,
        1 => 0,
        _ => number,
    }
}

// The rows of a file: those of a saved replica in one of its forms, or those of an archive, each with its place.
// (Document 02, Req 10.) It stays an enum: an archive is a kind of file, and no saved replica that lacks its form.
#[derive(Clone, Copy)]
pub enum Rows {
    Saved(Version),
    Archived,
}

impl Rows {
    // The form of the lines beside them.
    pub fn version(self) -> Version
        ensures { result ≡ version_of self }
    {
        match self {
            Rows::Saved(version) => version,
            Rows::Archived => Version::Second,
        }
    }
}

// What reading returns: the answer, and beside it the replica; beside a refusal an empty one of no site. It stays a
// struct: `loaded` promises that empty replica, too.
#[derive(Clone, Copy)]
pub struct Loaded {
    pub answer: Result<(), Refusal>,
    pub replica: Replica,
}
