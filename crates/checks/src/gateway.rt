// The test of the gateway, which asks nothing of the net and the grades.
ghost use Rattle.std.specs.Prelude.{◌≡◌, ◌<◌, length};
ghost use Rattle.net.specs.Judged.{judged};
ghost use Rattle.plans.specs.Faults.{rooted};
ghost use Rattle.plans.specs.Plan.{plan};
ghost use Rattle.plans.specs.Tests.{unless};
ghost use Rattle.refusals.specs.declared.check.CheckFault.TheVariants as fault;

use crate::same::same;
use kinds::kind::Kind;
use refusals::check::CheckFault;
use walks::entry::OWN;

// Refuses a gateway without the start label or without its own entry.
pub(crate) fn test_gateway<K: Kind>(
    gateway: u16,
    labels: &[K::Label],
    entries: &[u16],
) -> Result<(), CheckFault>
    requires labels { gateway < length labels.now }
    requires entries { gateway < length entries.now }
    ensures { result ≡ judged (unless (rooted K.Kind gateway (plan labels.now entries.now)) fault.Gateway None) }
{
    let at = gateway as usize;
    if !same::<K>(labels[at], K::start()) || entries[at] != OWN {
        return Err(CheckFault::Gateway);
    }
    Ok(())
}
