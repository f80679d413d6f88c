//! The law of epochs. A law is a function with no body, whose contract states it.
ghost use Rattle.vchan_persist.specs.Epochs.{EpochsApart};

/// The answer to a client is a function of its own input: two lists of clients with the same
/// client, at any place in each, give it the same answer, whatever the other clients stored.
pub fn epochs_apart()
    ensures { EpochsApart }
{}
