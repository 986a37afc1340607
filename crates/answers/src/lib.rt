// What the calls answer: the refusals with their numbers and the order in which they are checked, and the answers that
// document 01 names. The rules are told in these words, so this crate stands below them.
#![tactic(auto)]

ghost use Rattle.std.specs.Prelude.{◌≡◌};
ghost use Rattle.answers.specs.Answers.{number, rank, earlier, changes};

// Why a call is turned away; specs/ gives each its number. (Document 01: the grounds for turning a call away.)
// They stand in their checking order.
#[derive(Clone, Copy, PartialEq, Eq)]
pub enum Refusal {
    // 1: a line or a saved replica lacks its layout.
    Layout,
    // 2: a number, a mark or a neighbour that may not stand where it does.
    Range,
    // 17: a heap has more inserts, or more toggles, than a document has characters.
    HeapFull,
    // 18: a list's total, clocks or sequence are wrong.
    Mislisted,
    // 19: an archive's places are not 1 to the number of its rows, each once, or its identifiers do not rise.
    Misarranged,
    // 20: a text that is to be pasted is not UTF-8.
    NotUtf8,
    // 3: the replica is not well formed.
    Form,
    // 15: toggles above 1, which the first form of a saved replica cannot say.
    Unrepresentable,
    // 16: the characters are none that received operations could have made.
    Unreachable,
    // 4: no such insertion point or visible character.
    Position,
    // 13: the character to be restored is not held, or is visible.
    NotHidden,
    // 14: the character to be restored has the highest count of toggles.
    LastToggle,
    // 5: the clock is at its end.
    Clock,
    // 6: the identifier about to be used is taken. Reserved: no call answers it.
    Taken,
    // 7: the identifier stands for another insert.
    Conflict,
    // 8: previous does not stand above next.
    Crossed,
    // 9: characters between, and no candidate.
    Unplaceable,
    // 10: the sender has its full share pending.
    SenderFull,
    // 11: the document is full.
    DocumentFull,
    // 12: the lent output is too short.
    Output,
}

impl Refusal {
    // The number that the papers give it.
    pub fn number(self) -> u64
        ensures { result ≡ number self }
    {
        match self {
            Refusal::Layout => 1,
            Refusal::Range => 2,
            Refusal::HeapFull => 17,
            Refusal::Mislisted => 18,
            Refusal::Misarranged => 19,
            Refusal::NotUtf8 => 20,
            Refusal::Form => 3,
            Refusal::Unrepresentable => 15,
            Refusal::Unreachable => 16,
            Refusal::Position => 4,
            Refusal::NotHidden => 13,
            Refusal::LastToggle => 14,
            Refusal::Clock => 5,
            Refusal::Taken => 6,
            Refusal::Conflict => 7,
            Refusal::Crossed => 8,
            Refusal::Unplaceable => 9,
            Refusal::SenderFull => 10,
            Refusal::DocumentFull => 11,
            Refusal::Output => 12,
        }
    }

    // Its place in the checking order. It stays beside `number`: the two are tables of the papers, and not one of the
    // other.
    pub fn rank(self) -> u64
        ensures { result ≡ rank self }
    {
        match self {
            Refusal::Layout => 1,
            Refusal::Range => 2,
            Refusal::HeapFull => 3,
            Refusal::Mislisted => 4,
            Refusal::Misarranged => 5,
            Refusal::NotUtf8 => 6,
            Refusal::Form => 7,
            Refusal::Unrepresentable => 8,
            Refusal::Unreachable => 9,
            Refusal::Position => 10,
            Refusal::NotHidden => 11,
            Refusal::LastToggle => 12,
            Refusal::Clock => 13,
            Refusal::Taken => 14,
            Refusal::Conflict => 15,
            Refusal::Crossed => 16,
            Refusal::Unplaceable => 17,
            Refusal::SenderFull => 18,
            Refusal::DocumentFull => 19,
            Refusal::Output => 20,
        }
    }

    // The one of two that comes first in the checking order. With a derived order and `min`, or with `min_by_key`, the
    // proof did not close: neither order was found to be that of the ranks.
    #[tactic(auto, using(std::proofs::lemmas::Bool::Decides::nat_tests), unfolding(crate::specs::Answers::earlier))]
    pub fn earlier(self, other: Refusal) -> Refusal
        ensures { result ≡ earlier self other }
    {
        if self.rank() <= other.rank() {
            self
        } else {
            other
        }
    }
}

// What receiving answers. (Document 01: done with carried and thrown, waits, known, refused.) It stays an enum of four:
// the document tells them side by side, and a Result of three would nest one enum in another.
#[derive(Clone, Copy)]
pub enum Answer {
    Done { integrated: usize, discarded: usize },
    Deferred,
    Duplicate,
    Refused(Refusal),
}

impl Answer {
    // Whether it is one that changes the replica.
    #[tactic(auto, unfolding(crate::specs::Answers::changes))]
    pub fn is_change(self) -> bool
        ensures { result ≡ changes self }
    {
        matches!(self, Answer::Done { .. } | Answer::Deferred)
    }
}
