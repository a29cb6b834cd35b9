//! The words and the slot of the table that a turn stands on.
ghost use Rattle.std.specs.Prelude.{◌≡◌, ◌+◌, ◌%◌, ◌^◌};

/// The word of the next ticket.
pub(crate) const TICKET: usize = 0;

/// The word of the ticket that is served.
pub(crate) const SERVING: usize = 1;

/// The word of the history's length.
pub(crate) const LENGTH: usize = 2;

/// The word of the next pass's number.
pub(crate) const MADE: usize = 3;

/// The slot of the value.
pub(crate) const VALUE: usize = 0;

/// How many words follow for threads to sleep on. The rule of the turn says nothing of them.
const BELLS: u64 = 64;

/// What the words of a new turn are: no ticket, none served, no entry, and the number 0 is that of the first pass.
pub(crate) const FIRST_WORDS: [u64; 68] = [
    0, 0, 0, 1, //
    0, 0, 0, 0, 0, 0, 0, 0, 0, 0, 0, 0, 0, 0, 0, 0, //
    0, 0, 0, 0, 0, 0, 0, 0, 0, 0, 0, 0, 0, 0, 0, 0, //
    0, 0, 0, 0, 0, 0, 0, 0, 0, 0, 0, 0, 0, 0, 0, 0, //
    0, 0, 0, 0, 0, 0, 0, 0, 0, 0, 0, 0, 0, 0, 0, 0, //
];

/// The word on which whoever has this ticket sleeps. Tickets that are a multiple of 64 apart share one.
pub(crate) fn bell(ticket: u64) -> usize
    ensures { result ≡ 4 + ticket % 64 }
{
    MADE + 1 + (ticket % BELLS) as usize
}

/// So many tickets and so many numbers are drawn at most, and the history is at most so long.
pub(crate) const MOST: u64 = 1 << 62;

/// What a sleep on a word compares: its low 32 bits.
pub(crate) fn low_half(word: u64) -> u32
    ensures { result ≡ word % 2 ^ 32 }
{
    (word % (1 << 32)) as u32
}
