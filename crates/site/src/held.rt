// What a site holds beside its net, in the kind that was chosen.
ghost use Rattle.std.specs.Prelude.{◌≡◌, IfOk};
ghost use Rattle.net.specs.Table.{Table};
ghost use Rattle.net.specs.View.{table_of};
ghost use Rattle.answers.specs.declared.verb.HeldVerb.TheVariants.{Grades};
ghost use Rattle.script.specs.Words.{word_bytes};
ghost use Rattle.site.specs.Commands.{HeldIn};
ghost use Rattle.site.specs.Model.{held_in, new_in};

use answers::answer::Answer;
use answers::trouble::Trouble;
use answers::verb::{HeldVerb, KindName};
use hands::holding::Holding;
use kinds::airtime::by::ByAirtime;
use kinds::chance::by::ByChance;
use kinds::margin::by::ByMargin;
use net::star::Net;
use std::alloc::{AllocError, Global};

// A book and its memory, in any of the kinds.
// The kind is chosen at run time, and each kind has types of its own: what is done with them needs an arm for each.
#[derive(Drop)]
pub enum AnyHolding {
    ByAirtime(Holding<ByAirtime>),
    ByChance(Holding<ByChance>),
    ByMargin(Holding<ByMargin>),
}

impl AnyHolding {
    // What is held beside a new net: a book that is not started, and every link has grade 0.
    pub(crate) fn new(heap: Global, kind: KindName, net: &Net) -> Result<AnyHolding, AllocError>
        ensures { IfOk result (λ h. held_in h ≡ new_in kind (table_of net.now)) }
    {
        let (stations, links) = (net.stations(), net.links());
        match kind {
            KindName::Airtime => Ok(AnyHolding::ByAirtime(Holding::new(heap, stations, links)?)),
            KindName::Chance => Ok(AnyHolding::ByChance(Holding::new(heap, stations, links)?)),
            KindName::Margin => Ok(AnyHolding::ByMargin(Holding::new(heap, stations, links)?)),
        }
    }

    // Takes the grades that the words of a line spell, over whatever net.
    pub(crate) fn take_grades(&mut self, heap: Global, words: &[&[u8]]) -> Result<Answer, Trouble>
        ensures { (t : Table) → HeldIn t Grades (held_in self.old) (word_bytes words.now) result (held_in self.new) }
    {
        match self {
            AnyHolding::ByAirtime(held) => held.take_grades(heap, words),
            AnyHolding::ByChance(held) => held.take_grades(heap, words),
            AnyHolding::ByMargin(held) => held.take_grades(heap, words),
        }
    }

    // Carries out a line that asks something of what is held.
    pub(crate) fn obey(
        &mut self,
        heap: Global,
        net: &Net,
        words: &[&[u8]],
        verb: HeldVerb,
    ) -> Result<Answer, Trouble>
        ensures { HeldIn (table_of net.now) verb (held_in self.old) (word_bytes words.now) result (held_in self.new) }
    {
        match self {
            AnyHolding::ByAirtime(held) => held.obey(heap, net, words, verb),
            AnyHolding::ByChance(held) => held.obey(heap, net, words, verb),
            AnyHolding::ByMargin(held) => held.obey(heap, net, words, verb),
        }
    }
}
