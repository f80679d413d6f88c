ghost use Rattle.std.specs.Prelude.{◌≡◌, ◌+◌, ◌==◌, ◌≤◌, ◌<◌, not, [], ◌∷◌, length, filter};
ghost use Rattle.std.specs.List.{list_any};
ghost use Rattle.call_broker.specs.declared.calls.TheConstants.{MOST_PAGES};

use arrayvec::ArrayVec;

/// The greatest number of live calls of an ordered pair.
pub(crate) const MOST_LIVE: usize = 16;

/// The greatest number of pages of an ordered pair.
pub(crate) const MOST_PAGES: u32 = 65_536;

/// The calls of one ordered pair of domains.
#[derive(Drop)]
pub(crate) struct Calls {
    /// The ports of the live ones, the newest first.
    pub(crate) live: ArrayVec<u32, MOST_LIVE>,
    /// How many calls there have been; the next port follows from it.
    pub(crate) count: u32,
    ghost within_pages: { count ≤ MOST_PAGES },
}

impl Calls {
    /// Returns the calls of a pair that has had none.
    pub(crate) fn none() -> Calls
        ensures live { result.live.items ≡ [] }
        ensures count { result.count ≡ 0 }
    {
        Calls {
            live: ArrayVec::new(),
            count: 0,
        }
    }

    /// Adds a live call with this port.
    pub(crate) fn add(&mut self, port: u32)
        requires room { length self.old.live.items < MOST_LIVE }
        requires pages { self.old.count < MOST_PAGES }
        ensures live { self.new.live.items ≡ port ∷ self.old.live.items }
        ensures count { self.new.count ≡ self.old.count + 1 }
    {
        self.live.insert(0, port);
        self.count += 1;
    }

    /// Ends the live call with this port.
    pub(crate) fn end(&mut self, port: u32)
        ensures live { self.new.live.items ≡ filter (λ p. not (p == port)) self.old.live.items }
        ensures count { self.new.count ≡ self.old.count }
    {
        self.live.retain(|live| *live != port);
    }

    /// Returns whether a live call has this port.
    pub(crate) fn has_port(&self, port: u32) -> bool
        ensures { result ≡ list_any (λ p. p == port) self.now.live.items }
    {
        self.live.as_slice().contains(&port)
    }

    /// Returns how many calls are live.
    pub(crate) fn live_count(&self) -> u32
        ensures { result ≡ length self.now.live.items }
    {
        self.live.len() as u32
    }
}
