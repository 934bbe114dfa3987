// The law of runs.
ghost use Rattle.net.specs.View.{table_of};
ghost use Rattle.runs.specs.Law.{Law};

use kinds::kind::Kind;
use lists::list::CandidateList;
use net::star::Net;

// The law of runs holds over this net, for every kind and every candidate list: for callers of the single calls.
pub fn law_stands<K: Kind, L: CandidateList<K>>(net: &Net)
    ensures { Law K.Kind L.CandidateList (table_of net.now) }
{
    let _ = net;
}
