//! All pages of a hostile domain.
ghost use Rattle.std.specs.Prelude.{◌≡◌, ◌≤◌, ◌+◌, ◌∷◌, [], ℕ, length, map, vec_capacity};
ghost use Rattle.std.specs.List.{flat_map};
ghost use Rattle.ring_words.specs.declared.order.Orders.{Orders};
ghost use Rattle.vchan_protocol.specs.Hostile.Turned.{MayPoke};
ghost use Rattle.task_duties.specs.Hostile.Given.{HostilePlan};
ghost use Rattle.task_duties.specs.Hostile.Stores.{field_of};

use crate::domain::HostileDomain;
use crate::page::TurnedPage;
use ring_words::WordName;
use scenario_file::ActPage;
use script_words::next_number;
use task_duties::{DataEnd, PagePlace, RetiredEnd};
use vchan_rule::End;

/// The header's fields, in the order by which a drawn number names one.
const FIELDS: [WordName; 10] = [
    WordName::LeftCons,
    WordName::LeftProd,
    WordName::RightCons,
    WordName::RightProd,
    WordName::LeftOrder,
    WordName::RightOrder,
    WordName::CliLive,
    WordName::SrvLive,
    WordName::CliNotify,
    WordName::SrvNotify,
];

/// The pages of a domain, the control page first.
#[derive(Drop)]
pub struct Pages<'p> {
    /// The control page.
    pub control: TurnedPage<'p>,
    /// The data pages.
    pub payload: Vec<TurnedPage<'p>>,
}

impl<'p> Pages<'p> {
    ghost use Rattle.task_duties.specs.Hostile.Stores.{poked, scribbled, stored, drawn_on, role_at};
    ghost use Rattle.scenario_file.specs.Generator.{Drawn};
    ghost use Rattle.vchan_protocol.specs.Table.Ends.{peer_pending};
    ghost use Rattle.hostile_task.specs.Plan.{plan_of, AreApart};
    ghost use Rattle.std.specs.List.{AllZip as EachPair};
    ghost use Rattle.task_duties.specs.declared.place.PagePlace.TheVariants.{Control};
    ghost use Rattle.hostile_task.specs.Pages.{AreAfter, places_in, IsTurnedOver, IsDataTurnedOver, IsLaid, IsRetiredOf};
    ghost use Rattle.std.specs.List.{AllByRecursion as Each};
    ghost use Rattle.hostile_task.specs.UnderWay.{HaveOrders, HaveRoles};

    /// Turns the ends of a domain over to it, the end of its control page first. `turned` has room for the
    /// data pages.
    pub fn turn(
        domain: u32,
        control: End<'p>,
        payload: Vec<DataEnd<'p>>,
        mut turned: Vec<TurnedPage<'p>>,
    ) -> Pages<'p>
        requires laid { Each IsLaid payload.items }
        requires empty { turned.items ≡ [] }
        requires room { length payload.items ≤ vec_capacity turned }
        ensures control { IsTurnedOver (Control domain) control.entry result.control }
        ensures payload { EachPair IsDataTurnedOver payload.entry.items result.payload.items }
    {
        let control = TurnedPage::turn(PagePlace::Control { domain }, control);
        for given in payload {
            turned.push_reserved(TurnedPage::of_data(given));
        }
        Pages {
            control,
            payload: turned,
        }
    }

    /// Stores a value to a word of each page that the act names, if a hostile user reaches the
    /// word.
    pub fn poke(&mut self, domain: &HostileDomain, page: &ActPage, word: WordName, value: u64)
        requires { HaveOrders (plan_of domain.now []) self.old }
        ensures { AreAfter (λ place. poked (plan_of domain.now []) place page.now word value) self.old self.new }
    {
        self.control.poke(domain, page, word, value);
        for payload in self.payload.iter_mut() {
            payload.poke(domain, page, word, value);
        }
    }

    /// Signals the peers of all ends.
    pub fn signal(&mut self)
        ensures { (domain : ℕ) → HaveRoles domain self.old → AreAfter (λ place. stored (peer_pending (role_at domain place)) 1 ∷ []) self.old self.new }
    {
        self.control.signal();
        for payload in self.payload.iter_mut() {
            payload.signal();
        }
    }

    /// Makes this many stores, each drawn by three numbers of the generator.
    pub fn scribble(&mut self, seed: u32, count: u32)
        requires seed { seed ≤ 65535 }
        requires apart { AreApart (places_in self.old) }
        ensures { (plan : HostilePlan) → plan.places ≡ places_in self.old → AreAfter (λ place. scribbled plan place seed count) self.old self.new }
    {
        let mut x = seed;
        for _ in 0..count {
            let page = next_number(x);
            let word = next_number(page);
            let value = next_number(word);
            self.store_drawn(page, word, value);
            x = value;
        }
    }

    // Makes the store of three drawn numbers.
    fn store_drawn(&mut self, page: u32, word: u32, value: u32)
        requires apart { AreApart (places_in self.old) }
        ensures { (plan : HostilePlan) → plan.places ≡ places_in self.old → AreAfter (λ place. drawn_on plan place (record { page = page; word = word; value = value })) self.old self.new }
    {
        let field = field_of(word);
        let at = page as usize % (self.payload.len() + 1);
        if at == 0 {
            self.control.end.store(field, u64::from(value));
        } else {
            self.payload[at - 1].end.store(field, u64::from(value));
        }
    }

    /// Retires all ends, and returns them in their order, in a list that has room for them.
    pub fn retire(self, mut ends: Vec<RetiredEnd>) -> Vec<RetiredEnd>
        requires empty { ends.items ≡ [] }
        requires room { length self.payload.items + 1 ≤ vec_capacity ends }
        ensures { EachPair IsRetiredOf (self.entry.control ∷ self.entry.payload.items) result.items }
    {
        let Pages { control, payload } = self;
        ends.push_reserved(control.retire());
        for page in payload {
            ends.push_reserved(page.retire());
        }
        ends
    }
}

/// Returns the field of the header that a drawn number names.
pub fn field_of(number: u32) -> WordName
    ensures field { result ≡ field_of number }
    ensures reached { (orders : Orders) → MayPoke orders result }
{
    FIELDS[number as usize % FIELDS.len()]
}
