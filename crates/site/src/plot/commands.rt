// What the commands do to an open site. The first word of a line is the command itself.
ghost use Rattle.std.specs.Prelude.{◌≡◌, false, is_some};
ghost use Rattle.net.specs.Judged.{net_fault};
ghost use Rattle.net.specs.Table.{table};
ghost use Rattle.net.specs.View.{table_of};
ghost use Rattle.script.specs.Words.{word_bytes};
ghost use Rattle.site.specs.Model.{held_in};
ghost use Rattle.site.specs.Plots.{model_of};
ghost use Rattle.site.specs.Commands.{KindLine, PathLine, Graded, SiteLine};

use super::Site;
use crate::held::AnyHolding;
use crate::way::propose;
use answers::answer::{Answer, Label};
use answers::trouble::Trouble;
use answers::verb::{HeldVerb, KindName, SiteVerb};
use kinds::airtime::by::ByAirtime;
use kinds::chance::by::ByChance;
use kinds::margin::by::ByMargin;
use net::star::Net;
use reading::read::read_rest;
use std::alloc::Global;

impl Site {
    // Chooses a kind: what is held is new.
    pub(crate) fn choose(&mut self, heap: Global, words: &[&[u8]]) -> Result<Answer, Trouble>
        ensures { KindLine (model_of self.old) (word_bytes words.now) result (model_of self.new) }
    {
        let [_, word] = words else {
            return Err(Trouble::NoKind);
        };
        let kind = KindName::try_from(*word)?;
        self.held = AnyHolding::new(heap, kind, &self.net())?;
        Ok(Answer::Kind(kind))
    }

    // The net of the site's lists.
    pub(crate) fn net(&self) -> Net<'_>
        ensures { table_of result ≡ (model_of self.now).links }
    {
        net_of(self.starts.as_slice(), self.heads.as_slice())
    }

    // The grade of the way whose links the words spell.
    pub(crate) fn path(&self, heap: Global, words: &[&[u8]]) -> Result<Answer, Trouble>
        ensures { PathLine (model_of self.now) (word_bytes words.now) result }
    {
        let way = read_rest(heap, words)?;
        graded(&self.net(), &self.held, way.as_slice())
    }

    // Carries out a line that asks something of the site.
    pub(crate) fn obey(
        &mut self,
        heap: Global,
        words: &[&[u8]],
        verb: SiteVerb,
    ) -> Result<Answer, Trouble>
        ensures { SiteLine verb (model_of self.old) (word_bytes words.now) result (model_of self.new) }
    {
        match verb {
            SiteVerb::Kind => self.choose(heap, words),
            SiteVerb::Path => self.path(heap, words),
            // Grades may be of any length, so no net is made for them.
            SiteVerb::Held(HeldVerb::Grades) => self.held.take_grades(heap, words),
            SiteVerb::Held(verb) => {
                let net = net_of(self.starts.as_slice(), self.heads.as_slice());
                self.held.obey(heap, &net, words, verb)
            }
        }
    }
}

// The net of two lists that are one.
fn net_of<'a>(starts: &'a [u16], heads: &'a [u16]) -> Net<'a>
    requires { is_some (net_fault (table starts.now heads.now)) ≡ false }
    ensures { table_of result ≡ table starts.entry.now heads.entry.now }
{
    let mut net = Net::single();
    net.fill(starts, heads).unwrap();
    net
}

// The grade of a way in the kind that the site has.
fn graded(net: &Net, held: &AnyHolding, way: &[u16]) -> Result<Answer, Trouble>
    ensures { Graded (table_of net.now) (held_in held.now) way.now result }
{
    // An arm for each kind, as for all that is done with what is held.
    match held {
        AnyHolding::ByAirtime(held) => propose::<ByAirtime>(net, held.grades(), way).map(
            Label::Airtime,
        ),
        AnyHolding::ByChance(held) => propose::<ByChance>(net, held.grades(), way).map(
            Label::Chance,
        ),
        AnyHolding::ByMargin(held) => propose::<ByMargin>(net, held.grades(), way).map(
            Label::Margin,
        ),
    }
    .map(Answer::Path)
    .map_err(Trouble::NotPath)
}
