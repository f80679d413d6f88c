//! How many bytes an end of a page in memory has moved since the page was opened.
ghost use Rattle.std.specs.Prelude.{◌≡◌, ◌<◌, ◌≤◌, ◌^◌, ℕ, ◌+◌, ◌∷◌, ◌++◌, [], List, ◌↔◌, IsSome};

/// How many bytes an end has sent and got. Each count stays at its greatest number once it gets there.
#[derive(Clone, Copy, Debug)]
pub struct Totals {
    sent: u64,
    got: u64,
}

impl Totals {
    ghost use Rattle.ring_words.specs.Rings.{diff};
    ghost use Rattle.vchan_core.specs.Page.Counts.{capped};

    pub(crate) const NONE: Totals = Totals { sent: 0, got: 0 };

    pub(crate) fn sent(self) -> u64
        ensures { result ≡ self.sent }
    {
        self.sent
    }

    pub(crate) fn got(self) -> u64
        ensures { result ≡ self.got }
    {
        self.got
    }

    /// Counts how far an end's own count of the ring that it writes has moved on.
    #[inline(always)]
    pub(crate) fn count_sent(&mut self, before: u32, now: u32)
        ensures { self.new ≡ record self.old { sent = capped (self.old.sent + diff now before) } }
    {
        let shown = now.wrapping_sub(before);
        self.sent = self.sent.saturating_add(u64::from(shown));
    }

    /// Counts how far an end's own count of the ring that it reads has moved on.
    #[inline(always)]
    pub(crate) fn count_got(&mut self, before: u32, now: u32)
        ensures { self.new ≡ record self.old { got = capped (self.old.got + diff now before) } }
    {
        let got = now.wrapping_sub(before);
        self.got = self.got.saturating_add(u64::from(got));
    }

    /// For the proof of a caller whose event moves no own count: the counts stay.
    #[inline(always)]
    pub(crate) fn stays(&self)
        ensures sent { (prod : ℕ) → self.now.sent ≡ capped (self.now.sent + diff prod prod) }
        ensures got { (cons : ℕ) → self.now.got ≡ capped (self.now.got + diff cons cons) }
    {
        let _sent = self.sent();
        let _got = self.got();
    }

    /// Counts how far an end's own counts, of the ring that it writes and of the one that it reads, have moved
    /// on.
    #[inline(always)]
    pub(crate) fn count(&mut self, before: (u32, u32), now: (u32, u32))
        ensures sent { self.new.sent ≡ capped (self.old.sent + diff now.0 before.0) }
        ensures got { self.new.got ≡ capped (self.old.got + diff now.1 before.1) }
        ensures low { (before.0 < 2 ^ 32) × (before.1 < 2 ^ 32) }
    {
        self.count_sent(before.0, now.0);
        self.count_got(before.1, now.1);
    }
}
