// What a call was handed beside a saved replica, and which refusal over all of it comes first.
ghost use Rattle.std.specs.Prelude.{◌≡◌};
ghost use Rattle.codec.specs.Calls.{read_as, said_by};
ghost use Rattle.woot.specs.Ranges.{character_id};
ghost use Rattle.c_calls.specs.Calls.{one_line, named};
ghost use Rattle.c_calls.specs.Inputs.{first_of};

use answers::Refusal;
use woot::Operation;

// Reads one line, after which no byte may follow.
pub(crate) fn read_one(line: &[u8]) -> Result<Operation, Refusal>
    ensures { result ≡ read_as (one_line line.now) (said_by line.now) }
{
    let after = codec::rest(line);
    if after.len() != 0 {
        return Err(Refusal::Layout);
    }
    codec::read_operation(line)
}

// Whether two numbers name a character.
pub(crate) fn names_character(site: u64, clock: u64) -> bool
    ensures { result ≡ character_id (named site clock) }
{
    if site < 1 {
        return false;
    }
    if 16 < site {
        return false;
    }
    if clock < 1 {
        return false;
    }
    clock <= 65535
}

// The refusal of a saved replica or of what else was handed, the earlier one where both have one.
pub(crate) fn first_of(answer: Result<(), Refusal>, other: Refusal) -> Refusal
    ensures { result ≡ first_of answer other }
{
    match answer {
        Ok(()) => other,
        Err(one) => one.earlier(other),
    }
}
