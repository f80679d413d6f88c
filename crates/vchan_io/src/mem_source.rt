ghost use Rattle.std.specs.Prelude.{◌≡◌, ◌≤◌, ◌<◌, ◌↔◌, [], take, drop, ◌++◌, length, IsErr, IfOk, OnErr, Some};
ghost use Rattle.vchan_io.specs.Counts.{one_more, IsNextToFail};
ghost use Rattle.vchan_io.specs.MemSource.{given_count, after_given, after_failed_read};

use crate::faults::Failed;
use crate::source::Source;
use std::marker::Model;

/// A source over bytes in memory. Each call gives at most a set number of bytes, and chosen calls fail.
/// Contracts see its bytes.
#[derive(Debug, Drop)]
pub struct MemSource {
    bytes: Vec<u8>,
    given: usize,
    most: usize,
    fails: Vec<u64>,
    calls: u64,
    faults: u64,
}

impl Model for MemSource {
    ghost use Rattle.std.specs.Prelude.{drop, length, ◌≤◌};
    ghost use Rattle.vchan_io.specs.MemSource.{MemSourceState};

    ghost Value = { MemSourceState };

    ghost view = { λ s. record { left = drop s.given s.bytes.items; most = s.most; fails = s.fails.items; calls = s.calls; faults = s.faults } };

    ghost invariant = { λ s. (s.given ≤ length s.bytes.items) × (1 ≤ s.most) };
}

impl MemSource {
    /// Makes a source of `bytes`. Each read gives at most `most` of them. A read fails if and only if its
    /// number, counted from 1, is in `fails`.
    pub fn new(bytes: Vec<u8>, most: usize, fails: Vec<u64>) -> MemSource
        requires { 1 ≤ most }
        ensures left { result.left ≡ bytes.items }
        ensures most { result.most ≡ most }
        ensures fails { result.fails ≡ fails.items }
        ensures calls { result.calls ≡ 0 }
        ensures faults { result.faults ≡ 0 }
    {
        MemSource {
            bytes,
            given: 0,
            most,
            fails,
            calls: 0,
            faults: 0,
        }
    }
}

impl Source for MemSource {
    ghost left = { λ s. Some s.left };

    ghost faults = { λ s. s.faults };

    fn read(&mut self, buf: &mut [u8]) -> Result<usize, Failed>
        ensures fails { IsErr result ↔ IsNextToFail self.old.fails self.old.calls }
        ensures count { IfOk result (λ count. count ≡ given_count self.old (length buf.old)) }
        ensures given { IfOk result (λ count. buf.new ≡ take count self.old.left ++ drop count buf.old) }
        ensures end { IfOk result (λ count. count ≡ 0 → 0 < length buf.old → self.new.left ≡ []) }
        ensures ok { IfOk result (λ count. self.new ≡ after_given self.old count) }
        ensures err { OnErr result (self.new ≡ after_failed_read self.old) }
        ensures untouched { OnErr result (buf.new ≡ buf.old) }
        ensures counted { self.old.faults ≤ self.new.faults }
    {
        self.calls = self.calls.saturating_add(1);
        if self.calls < u64::MAX && self.fails.contains(&self.calls) {
            self.faults = self.faults.saturating_add(1);
            return Err(Failed);
        }
        let left = &self.bytes[self.given..];
        let count = buf.len().min(self.most).min(left.len());
        buf[..count].copy_from_slice(&left[..count]);
        self.given += count;
        Ok(count)
    }
}
