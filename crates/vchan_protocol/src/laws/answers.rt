//! Laws of what an answer tells of its call, whatever values its events take.
ghost use Rattle.vchan_protocol.specs.Answering.AnswerLaw.{EachAnswerTellsItsTransfer, EachAnswerHasItsCause, EachAnswerHasItsTrace};
ghost use Rattle.vchan_protocol.specs.OneEnd.IndexLaw.{IndicesAreOwnCounts};

/// A call has moved what its answer tells. After `Wrote` of at least one byte, and after `Sent`, it has
/// stored exactly that many bytes and loaded none, and has stored its own producer index once: its own
/// count moved on by that number. After `Got` it has loaded exactly that many bytes and stored none, and
/// has stored its own consumer index once, in the same way. After every other answer it has stored and
/// loaded no byte of a ring, and stored no index.
pub fn each_answer_tells_its_transfer()
    ensures { EachAnswerTellsItsTransfer }
{}

/// A call gives an answer if and only if the answer's cause is in what the call has loaded: the last pair
/// of indices, the peer's live byte and gone word, the order words, the pending word.
pub fn each_answer_has_its_cause()
    ensures { EachAnswerHasItsCause }
{}

/// When an end has its answer, its trail is the whole call with that answer.
pub fn each_answer_has_its_trace()
    ensures { EachAnswerHasItsTrace }
{}

/// Whatever its peer has stored, an honest end stores in its own indices its own counts, moved on
/// by the bytes that the call has stored or loaded. It writes to an index in no other way.
pub fn indices_are_own_counts()
    ensures { IndicesAreOwnCounts }
{}
