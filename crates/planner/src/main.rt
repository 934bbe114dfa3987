// The planner's program: reads a site script from a file or from standard input, and answers each command by one line.
#![tactic(auto)]

use anyhow::{Context, bail};
use site::desk::Desk;
use std::fmt::Display;
use std::io::{BufRead, BufReader};
use std::process::ExitCode;
use std::{env, fs};

const HELP: &str = "usage: planner [--help | FILE]

Reads a site script from FILE, or from standard input, and answers each command by one line.

  net <starts..> / <heads..>     a new site over this table of links
  kind airtime|chance|margin     how links are graded; all but the net is new then
  grades <grades..>              the grades of the links, in their order
  list first-in|two-ended|small-label
  list threshold <step>
  list bucket <width> <span>     a new candidate list, which is empty
  path <links..>                 the grade of that path

The plan from a gateway:

  start <gateway>                begins anew: only the gateway has a label, and it waits
  work <allowed>                 at most so many picks; answers picks made, stations waiting
  regrade <link> <grade>         a new grade; answers labels lost, stations new to the list
  ask <station>                  its label and entry, or none; then stations waiting
  route <station> <places>       the links of its route, if there are so many places
  check <gateway>                whether labels and entries are a tree of best paths from there

The memory by hand (handed: only the first so many labels are handed over to the list):

  labels                         the labels of all stations
  entries                        the entries of all stations
  poke label|entry|grade <index> <value>
                                 overwrites one element
  resize labels|entries|grades <count>
                                 another length: the list is cut, or filled up
  enter <station> [handed]       the station waits; answers new or waiting
  pick [handed]                  takes a waiting station, or none
  empty                          no station waits
  waiting                        how many stations wait

Blank lines and lines that begin with # are passed over. What cannot be used is refused by a number:
refused <number> place <place> layer <layer>. A line that cannot be carried out answers error line <n>: <why>,
and the script goes on.
";

// Answers the script of this name line by line, so that each answer is out before the next line is waited for.
fn serve<N: Display, R: BufRead + Drop>(
    rt: &HostRuntime,
    name: &N,
    mut reader: R,
) -> anyhow::Result<()> {
    let heap = rt.alloc();
    let mut desk = Desk::new();
    // All lines are read into one buffer, which keeps the room of the longest: `split` would take a fresh one for each, and a line without a word takes no other memory.
    // Reading a line and carrying it out have their messages in arms of their own: as arguments of `context`, the two made a blank line cost more than twice as much.
    let mut line = Vec::new(heap);
    for number in 1..u64::MAX {
        line.clear();
        let count = match reader.read_until(b'\n', &mut line) {
            Ok(count) => count,
            Err(error) => {
                return Err(error).context(format_args!("cannot read line {number} of {name}"));
            }
        };
        if count == 0 {
            break;
        }
        if line.last() == Some(&b'\n') {
            let _ = line.pop();
        }
        let reply = match desk.reply(heap, number, line.as_slice()) {
            Ok(reply) => reply,
            Err(error) => {
                return Err(error).context(format_args!("cannot answer line {number} of {name}"));
            }
        };
        if let Some(text) = reply {
            println!(rt; "{text}").context(format_args!(
                "cannot write the answer to line {number} of {name}"
            ))?;
        }
    }
    Ok(())
}

fn run(rt: &HostRuntime) -> anyhow::Result<()> {
    let mut args = env::args(rt)
        .context("cannot read the arguments as text")?
        .skip(1);
    let Some(path) = args.next() else {
        let reader = BufReader::new(rt.alloc(), rt.stdin()).context("cannot begin")?;
        return serve(rt, &"standard input", reader);
    };
    let path = path.as_str();
    if args.next().is_some() {
        bail!("one script at a time: planner [--help | FILE]");
    }
    if path == "--help" {
        return print!(rt; "{HELP}").context("cannot write the help");
    }
    if path.starts_with('-') {
        bail!("no such option: planner [--help | FILE]; a file of that name is ./{path:?}");
    }
    let file = fs::open(rt, path).context(format_args!("cannot open {path:?}"))?;
    let reader = BufReader::new(rt.alloc(), file).context("cannot begin")?;
    serve(rt, &format_args!("{path:?}"), reader)
}

fn main(rt: HostRuntime) -> ExitCode {
    match run(&rt) {
        Ok(()) => ExitCode::SUCCESS,
        Err(error) => {
            // Where the message cannot be written, the status tells it alone.
            let _ = eprintln!(rt; "planner: {error:#}");
            ExitCode::FAILURE
        }
    }
}
