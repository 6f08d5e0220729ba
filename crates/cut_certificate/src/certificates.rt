ghost use Rattle.std.specs.Prelude.{◌↔◌, IsTrue};
ghost use Rattle.zone_network.specs.Network.{IsNetwork};
ghost use Rattle.zone_network.specs.Dispatch.{IsBest};
ghost use Rattle.cut_certificate.specs.Chain.{Fit, IsAccepted, IsOnlyBestOutcome, dispatch_of};

use crate::chains::Chain;
use crate::feasible::is_feasible;
use crate::rows::is_proved;
use sample_totals::HourOutcome;
use zone_network::Network;

/// Whether the chain proves the outcome the best: with the chain's flows and generation it is feasible, and
/// each set proves its component. A yes proves that the outcome's unserved load, discharge and charge are
/// those of every best dispatch.
pub fn check_chain(net: &Network, outcome: &HourOutcome, chain: &Chain) -> bool
    requires { Fit net.now outcome.now chain.now }
    ensures exact { IsTrue result ↔ IsAccepted net.now outcome.now chain.now }
    ensures best { IsTrue result → IsBest net.now (dispatch_of net.now outcome.now chain.now) }
    ensures outcome { IsTrue result → IsOnlyBestOutcome net.now outcome.now }
{
    is_accepted(net, outcome, chain)
}

/// Whether the outcome with the chain's flows and generation is feasible and each set proves its component.
fn is_accepted(net: &Network, outcome: &HourOutcome, chain: &Chain) -> bool
    requires { Fit net.now outcome.now chain.now }
    ensures exact { IsTrue result ↔ IsAccepted net.now outcome.now chain.now }
    ensures valid { IsNetwork net.now }
{
    is_feasible(net, outcome, chain) && is_proved(net, outcome, chain)
}
