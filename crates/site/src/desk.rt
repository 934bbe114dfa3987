// Carrying out a script line by line.
ghost use Rattle.std.specs.Prelude.{◌≡◌, None, Some};
ghost use Rattle.script.specs.Words.{word_bytes};
ghost use Rattle.site.specs.Commands.{NetLine, Commanded, comment, Obeys, Obeyed};
ghost use Rattle.site.specs.Desks.{desk_of};
ghost use Rattle.site.specs.Replies.{Replied};

use crate::plot::Site;
use crate::plot::acts::NotOpened;
use answers::answer::Answer;
use answers::trouble::{Failed, Trouble};
use answers::verb::Verb;
use reading::net_line::read_net;
use refusals::told::Fault;
use script::words::words;
use std::alloc::{AllocError, Global};

// Where a script is carried out, line by line: the site that it works on, once a net was accepted. It has no `Model`, as the site has none.
#[derive(Drop)]
pub struct Desk {
    site: Option<Site>,
}

impl Desk {
    pub fn new() -> Desk
        ensures { desk_of result ≡ None }
    {
        Desk { site: None }
    }

    // Opens a new site, if the lists are a net; else all stays as it was.
    fn open(&mut self, heap: Global, words: &[&[u8]]) -> Result<Answer, Trouble>
        ensures { NetLine (desk_of self.old) (word_bytes words.now) result (desk_of self.new) }
    {
        let (starts, heads) = read_net(heap, words)?;
        match Site::open(heap, starts, heads) {
            Ok(site) => {
                let net = site.net();
                let answer = Answer::Net(net.stations(), net.links());
                self.site = Some(site);
                Ok(answer)
            }
            Err(NotOpened::Refused(fault)) => Ok(Answer::Refused(fault.told())),
            Err(NotOpened::Memory) => Err(Trouble::Memory),
        }
    }

    // Carries out a command, whose words these are.
    fn command(&mut self, heap: Global, words: &[&[u8]], verb: Verb) -> Result<Answer, Trouble>
        ensures { Commanded (Some verb) (desk_of self.old) (word_bytes words.now) result (desk_of self.new) }
    {
        match verb {
            Verb::Net => self.open(heap, words),
            Verb::Site(verb) => self
                .site
                .as_mut()
                .ok_or(Trouble::NoNet)?
                .obey(heap, words, verb),
        }
    }

    // Carries out a line, whose words these are; a line without a word and a comment have no answer.
    fn follow(&mut self, heap: Global, words: &[&[u8]]) -> Result<Option<Answer>, Trouble>
        ensures { Obeys (desk_of self.old) (word_bytes words.now) result (desk_of self.new) }
    {
        match words.first() {
            Some(word) if !is_comment(word) => {
                self.command(heap, words, Verb::try_from(*word)?).map(Some)
            }
            _ => Ok(None),
        }
    }

    // Carries out one line of a script: what it answers, or nothing where it is blank or a comment.
    pub fn obey(&mut self, heap: Global, line: &[u8]) -> Result<Option<Answer>, Trouble>
        ensures { Obeyed (desk_of self.old) line.now result (desk_of self.new) }
    {
        let found = words(heap, line)?;
        self.follow(heap, found.as_slice())
    }

    // The text that answers one line of a script, which has this number, or nothing where the line has no answer.
    pub fn reply(
        &mut self,
        heap: Global,
        number: u64,
        line: &[u8],
    ) -> Result<Option<String>, AllocError>
        ensures { Replied (desk_of self.old) number line.now result (desk_of self.new) }
    {
        // A `match`: `transpose` over a closure that allocates is no plainer.
        match self.obey(heap, line) {
            Ok(None) => Ok(None),
            Ok(Some(answer)) => format!(in heap; "{answer}").map(Some),
            Err(trouble) => {
                let failed = Failed {
                    line: number,
                    trouble,
                };
                format!(in heap; "{failed}").map(Some)
            }
        }
    }
}

// Whether the line that begins with this word is a comment.
fn is_comment(word: &[u8]) -> bool
    ensures { result ≡ comment word.now }
{
    word.first() == Some(&b'#')
}
