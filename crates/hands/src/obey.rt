// What is asked of what is held, by the command that a line names.
ghost use Rattle.net.specs.View.{table_of};
ghost use Rattle.script.specs.Words.{word_bytes};
ghost use Rattle.hands.specs.Calls.{CallLine, Lawful};
ghost use Rattle.hands.specs.Held.{held_by, memory_of};
ghost use Rattle.hands.specs.Lines.{HeldLine};

use crate::holding::Holding;
use answers::answer::{Answer, ToLabel};
use answers::trouble::Trouble;
use answers::verb::{CallVerb, HeldVerb};
use kinds::kind::Kind;
use net::star::Net;
use reading::read::Readable;
use reading::single::Single;
use std::alloc::Global;

impl<K: Kind> Holding<K>
where
    K::Label: ToLabel,
    K::Grade: Single,
{
    // Makes a call of the book.
    fn call(
        &mut self,
        heap: Global,
        net: &Net,
        words: &[&[u8]],
        verb: CallVerb,
    ) -> Result<Answer, Trouble>
        ensures { CallLine K.Label.label (Lawful K.Kind (table_of net.now)) K.Grade.Spelt.Readable K.Grade.makes verb (memory_of self.old) (word_bytes words.now) result (memory_of self.new) }
    {
        match verb {
            CallVerb::Start => self.start(net, words),
            CallVerb::Work => self.work(net, words),
            CallVerb::Regrade => self.regrade(net, words),
            CallVerb::Ask => self.ask(net, words),
            CallVerb::Route => self.route(heap, net, words),
        }
    }
}

impl<K: Kind> Holding<K>
where
    K::Label: Readable + ToLabel,
    K::Grade: Readable + Single,
{
    // Carries out a line, whose words these are.
    pub fn obey(
        &mut self,
        heap: Global,
        net: &Net,
        words: &[&[u8]],
        verb: HeldVerb,
    ) -> Result<Answer, Trouble>
        ensures { HeldLine K.Kind K.Label.Readable K.Label.label K.Grade.Readable K.Grade.Spelt.Readable K.Grade.makes K.Grade.zero (table_of net.now) verb (held_by self.old) (word_bytes words.now) result (held_by self.new) }
    {
        match verb {
            HeldVerb::Grades => self.take_grades(heap, words),
            HeldVerb::List => self.take_list(words),
            HeldVerb::Call(verb) => self.call(heap, net, words, verb),
            HeldVerb::Check => self.check(net, words),
            HeldVerb::Labels => self.labels(heap, words),
            HeldVerb::Entries => self.entries(words),
            HeldVerb::Poke => self.poke(words),
            HeldVerb::Resize => self.resize(heap, words),
            HeldVerb::Enter => self.enter(words),
            HeldVerb::Pick => self.pick(words),
            HeldVerb::Empty => self.empty(words),
            HeldVerb::Waiting => self.waiting(words),
        }
    }
}
