// The number that a call returns: a reply and two lengths, or a length and a shift, in the bits of one `u64`.
ghost use Rattle.std.specs.Prelude.{◌≡◌};
ghost use Rattle.answers.specs.declared.Answer.TheVariants.{Refused};
ghost use Rattle.effects.specs.Results.{in_bits, result as result_of, number_of, silent};

use answers::{Answer, Refusal};

// The parts in their bits.
fn join(
    word: u64,
    refusal: u64,
    integrated: usize,
    discarded: usize,
    written: usize,
    line: usize,
) -> u64
    ensures { result ≡ in_bits word refusal integrated discarded written line }
{
    let low = word % 4 + refusal % 64 * 4;
    let counts = (integrated as u64) % 4096 * 256 + (discarded as u64) % 4096 * 1048576;
    let lengths = (written as u64) % 65536 * 4294967296 + (line as u64) % 65536 * 281474976710656;
    low + counts + lengths
}

// What a call returns that answers so and has written so many bytes.
pub fn number_of(answer: Answer, written: usize, line: usize) -> u64
    ensures { result ≡ number_of (result_of answer written line) }
{
    match answer {
        Answer::Done {
            integrated,
            discarded,
        } => join(0, 0, integrated, discarded, written, line),
        Answer::Deferred => join(1, 0, 0, 0, written, line),
        Answer::Duplicate => join(2, 0, 0, 0, written, line),
        Answer::Refused(q) => join(3, q.number(), 0, 0, written, line),
    }
}

// A refusal, with nothing written.
pub fn number_of_refusal(refusal: Refusal) -> u64
    ensures { result ≡ number_of (silent (Refused refusal)) }
{
    number_of(Answer::Refused(refusal), 0, 0)
}
