use ring_words::WordName;

/// One event: a single load, store, or, and, or swap on one word of a page.
///
/// In `LoadByte` and `StoreByte` the number `at` is the byte's place in the caller's buffer or
/// payload. The order of the events of a call is that of libxenvchan's io.c, which also loads the
/// end's own indices: no event here does.
#[derive(Clone, Copy, Debug, PartialEq, Eq)]
pub enum Op {
    /// Takes the word's value.
    Load { word: WordName },
    /// Takes a ring byte, which becomes byte `at` of the buffer.
    LoadByte { word: WordName, at: u32 },
    /// Writes a value, and takes 0.
    Store { word: WordName, value: u64 },
    /// Writes byte `at` of the payload to a ring byte, and takes 0.
    StoreByte { word: WordName, at: u32 },
    /// Sets bits, and takes the word as it was.
    Or { word: WordName, bits: u64 },
    /// Keeps only these bits, and takes the word as it was.
    And { word: WordName, bits: u64 },
    /// Writes a value, and takes the word as it was.
    Swap { word: WordName, value: u64 },
    /// No event: the end is between two calls.
    Nothing,
}

/// An event that was made, with the value that it took: the word as it was, except 0 for a plain store.
/// Contracts use lists of these; a running program makes none.
#[derive(Clone, Copy, Debug, PartialEq, Eq)]
pub struct PastEvent {
    /// What was done, and to which word.
    pub op: Op,
    /// The value taken.
    pub taken: u64,
}
