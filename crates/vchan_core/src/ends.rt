//! What a page in memory keeps of its two ends.
ghost use Rattle.std.specs.Prelude.{◌≡◌, ◌≤◌, ◌<◌, ◌+◌, ◌^◌, ◌∷◌, ◌++◌, [], List, length, true, false, ◌↔◌, IsSome};
ghost use Rattle.std.specs.Borrow.{sem};

use crate::machine::Machine;
use crate::phase::{Next, Phase};
use crate::totals::Totals;
use ring_words::{Role, Words};
use vchan_protocol::Answer;

/// What a page keeps of one end.
#[derive(Drop)]
pub struct End {
    pub(crate) machine: Machine,
    /// How many bytes the end has sent and got.
    pub(crate) moved: Totals,
    /// Whether the end was turned over to a hostile user.
    pub(crate) turned: bool,
}

impl End {
    ghost use Rattle.vchan_protocol.specs.Table.Plan.{after, next_op, past};
    ghost use Rattle.vchan_protocol.specs.Table.Ends.{Standing, standing_after, read_size};
    ghost use Rattle.vchan_protocol.specs.declared.call.Call.{Call};
    ghost use Rattle.vchan_protocol.specs.declared.op.PastEvent.{PastEvent};
    ghost use Rattle.vchan_core.specs.OneMachine.Phases.{standing, rest, rest_or_answer, IsIdle, payload_needed, buffer_needed, payload_at, buffer_at, Stands, StandsOrAnswered};
    ghost use Rattle.vchan_core.specs.WholeCall.EventAt.{MakesEventAt, sent_on, got_on};

    /// Makes an end that has moved no byte, and isn't turned.
    pub(crate) fn new(machine: Machine) -> End
        ensures { result ≡ record { machine = machine; moved = record { sent = 0; got = 0 }; turned = false } }
    {
        End {
            machine,
            moved: Totals::NONE,
            turned: false,
        }
    }

    /// Turns the end over to a hostile user: its call is dropped.
    pub(crate) fn turn(&mut self)
        ensures idle { IsIdle self.new.machine }
        ensures standing { standing self.new.machine ≡ standing self.old.machine }
        ensures moved { self.new.moved ≡ self.old.moved }
        ensures turned { self.new.turned ≡ true }
    {
        self.machine.drop_call();
        self.turned = true;
    }

    /// Gives the value of an event to the end that made it, and counts what the event moved: an own index that
    /// moves on by some bytes shows that many, or releases the places of that many.
    #[inline(always)]
    pub(crate) fn took(&mut self, value: u64) -> Option<Answer>
        requires { ¬ IsIdle self.old.machine }
        ensures sent { self.new.moved.sent ≡ sent_on self.old.moved self.old.machine self.new.machine }
        ensures got { self.new.moved.got ≡ got_on self.old.moved self.old.machine self.new.machine }
        ensures turned { self.new.turned ≡ self.old.turned }
        ensures low { ((standing self.old.machine).prod < 2 ^ 32) × ((standing self.old.machine).cons < 2 ^ 32) }
        ensures rest { rest_or_answer result self.new.machine ≡ after (rest self.old.machine) value }
        ensures idle { IsSome result ↔ IsIdle self.new.machine }
        ensures standing { standing self.new.machine ≡ standing_after (standing self.old.machine) (next_op (rest self.old.machine)) }
        ensures payload_left { payload_needed self.new.machine ≤ payload_needed self.old.machine }
        ensures buffer_left { buffer_needed self.new.machine ≤ buffer_needed self.old.machine }
        ensures past { (begun : Standing) → (call : Call) → (events : List PastEvent) → Stands begun call events self.old.machine
            → StandsOrAnswered begun call (events ++ past (next_op (rest self.old.machine)) value ∷ []) result self.new.machine }
    {
        let before = self.machine.counts();
        let answer = self.machine.took(value);
        self.moved.count(before, self.machine.counts());
        answer
    }

    /// Makes the event of a phase on these words, and counts what it moved.
    #[inline(always)]
    pub(crate) fn event(
        &mut self,
        role: Role,
        phase: Phase,
        words: &mut Words,
        payload: &[u8],
        buf: &mut [u8],
    ) -> Next
        requires role { self.old.machine.role ≡ role }
        requires orders { words.old.orders ≡ self.old.machine.orders }
        requires payload { payload_at phase ≤ length payload.now }
        requires buf { buffer_at (read_size (standing self.old.machine)) phase ≤ length buf.old }
        ensures orders { words.new.orders ≡ words.old.orders }
        ensures event { MakesEventAt words.old.orders self.old.machine phase words.old.list payload.now buf.old self.new.machine result words.new.list buf.new }
        ensures sent { self.new.moved.sent ≡ sent_on self.old.moved self.old.machine self.new.machine }
        ensures got { self.new.moved.got ≡ got_on self.old.moved self.old.machine self.new.machine }
        ensures turned { self.new.turned ≡ self.old.turned }
    {
        self.machine
            .event(role, phase, words, payload, buf, &mut self.moved)
    }
}

/// The two ends of a page, each by its role.
#[derive(Drop)]
pub struct Ends {
    pub(crate) server: End,
    pub(crate) client: End,
}

impl Ends {
    ghost use Rattle.vchan_core.specs.Page.Ends.{end_of, LendsEnd};

    /// Returns an end.
    #[inline(always)]
    pub(crate) fn of(&self, who: Role) -> &End
        ensures { result.now ≡ end_of self.now who }
    {
        match who {
            Role::Server => &self.server,
            Role::Client => &self.client,
        }
    }

    /// Returns an end, for its caller to change.
    #[inline(always)]
    pub(crate) fn of_mut(&mut self, who: Role) -> &mut End
        ensures* writes_back { sem 𝓛 (LendsEnd self.entry who result) }
        ensures value { result.now ≡ end_of self.old who }
    {
        match who {
            Role::Server => &mut self.server,
            Role::Client => &mut self.client,
        }
    }
}
