//! Random whole calls, driven to their end: each answers as the service alone does.
ghost use Rattle.std.specs.Prelude.{◌<◌};
ghost use Rattle.session_drive.specs.Driving.{IsSpeech};

use ring_words::check_orders;
use service_gate::{Builtin, serve};
use session_drive::{CallPage, Speech, drive};
use std::alloc::Global;
use std::test::Fail;

/// How many calls are driven.
const CALLS: u32 = 10_000;

const NAMES: [&[u8]; 8] = [
    b"echo",
    b"upper",
    b"count",
    b"first+0",
    b"first+77",
    b"split",
    b"exit+0",
    b"exit+255",
];

/// The numbers of a linear congruential generator, of which the high bits are used.
#[derive(Drop)]
struct Random {
    state: u64,
}

impl Random {
    fn below(&mut self, bound: u32) -> u32
        requires { 0 < bound }
        ensures { result < bound }
    {
        self.state = self
            .state
            .wrapping_mul(6_364_136_223_846_793_005)
            .wrapping_add(1_442_695_040_888_963_407);
        (self.state >> 33) as u32 % bound
    }

    /// How one side speaks: any version, and messages of any length or of few bytes.
    fn speech(&mut self) -> Speech
        ensures { IsSpeech result }
    {
        let most = [3, 300, 65_536][self.below(3) as usize];
        Speech {
            version: 2 + self.below(2),
            chunk: 1 + self.below(most),
        }
    }

    /// Few bytes, or more than a small ring holds.
    fn input(&mut self, alloc: Global) -> Result<Vec<u8>, Fail> {
        let most = [2, 40, 1_500][self.below(3) as usize];
        let mut input = Vec::new(alloc);
        for _ in 0..self.below(most) {
            input.push(self.below(256) as u8)?;
        }
        Ok(input)
    }
}

/// A random call answers what the service gives for its input, within its turns.
fn one_call(alloc: Global, random: &mut Random) -> Result<(), Fail> {
    let name = NAMES[random.below(8) as usize];
    let Some(service) = Builtin::named(name) else {
        return Err(Fail::from("no service of this name"));
    };
    let orders = check_orders(10, 11 + random.below(3) as u16)?;
    let start = random.below(u32::MAX);
    let (caller, serving) = (random.speech(), random.speech());
    let input = random.input(alloc)?;
    let want = serve(alloc, service, &[input.as_slice()])?;
    let most = 2 * (499 + 36 * input.len() as u128);
    let end = drive(
        alloc,
        input,
        service,
        caller,
        serving,
        CallPage { orders, start },
    )?;
    let same = end.code == want.code()
        && end.stdout.as_slice() == want.stdout()
        && end.stderr.as_slice() == want.stderr();
    if !same {
        return Err(Fail::from("another answer"));
    }
    if end.turns >= most {
        return Err(Fail::from("too many turns"));
    }
    Ok(())
}

#[test]
fn random_calls(rt: HostRuntime) -> Result<(), Fail> {
    let mut random = Random { state: 20_261_202 };
    for _ in 0..CALLS {
        one_call(rt.alloc(), &mut random)?;
    }
    Ok(())
}
