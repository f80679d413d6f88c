//! A whole run of a service over the pieces of its input.
ghost use Rattle.std.specs.Prelude.{◌≡◌, IfOk, flat_map};

use crate::service::Service;
use std::alloc::Global;
use std::marker::Model;
use vchan_io::Memory;

/// What a service gave for its whole input. Contracts see it as a triple.
#[derive(Debug, Drop)]
pub struct Answer {
    stdout: Vec<u8>,
    stderr: Vec<u8>,
    code: i32,
}

impl Model for Answer {
    ghost use Rattle.service_gate.specs.Triple.{Triple};

    ghost Value = { Triple };

    ghost view = { λ a. record { stdout = a.stdout.items; stderr = a.stderr.items; code = a.code } };
}

impl Answer {
    /// Returns the bytes on stdout.
    pub fn stdout(&self) -> &[u8]
        ensures { result.now ≡ self.now.stdout }
    {
        &self.stdout
    }

    /// Returns the bytes on stderr.
    pub fn stderr(&self) -> &[u8]
        ensures { result.now ≡ self.now.stderr }
    {
        &self.stderr
    }

    /// Returns the exit code.
    pub fn code(&self) -> i32
        ensures { result ≡ self.now.code }
    {
        self.code
    }

    /// Returns the bytes on stdout, those on stderr, and the exit code.
    pub fn into_parts(self) -> (Vec<u8>, Vec<u8>, i32)
        ensures stdout { result.0.items ≡ self.stdout }
        ensures stderr { result.1.items ≡ self.stderr }
        ensures code { result.2 ≡ self.code }
    {
        let Answer {
            stdout,
            stderr,
            code,
        } = self;
        (stdout, stderr, code)
    }
}

/// Runs a service over the pieces of its input and to its end. Returns what the service owed at
/// first for all pieces joined, so it makes no difference how the input was cut.
///
/// # Errors
///
/// `Memory` if memory runs out; no other.
pub fn serve<S: Service>(alloc: Global, mut service: S, pieces: &[&[u8]]) -> Result<Answer, Memory>
    ensures { IfOk result (λ answer. answer ≡ S.owes service (flat_map (λ piece. piece.now) pieces.now)) }
{
    let mut stdout = Vec::new(alloc);
    let mut stderr = Vec::new(alloc);
    for piece in pieces {
        service.feed(piece, &mut stdout, &mut stderr)?;
    }
    let code = service.end(&mut stdout, &mut stderr)?;
    Ok(Answer {
        stdout,
        stderr,
        code,
    })
}
