ghost use Rattle.std.specs.Prelude.{◌≡◌, ◌<◌};
ghost use Rattle.zone_network.specs.Network.{IsNetwork, link_count};
ghost use Rattle.transfer_flow.specs.Reach.{start_of, end_of, way};

use zone_network::Network;

/// The zone that a link leaves one way.
#[inline]
pub(crate) fn start_of(net: &Network, link: u32, forward: bool) -> u8
    requires { link < link_count net.now.shape }
    ensures value { result ≡ start_of net.now.shape link forward }
    ensures among { result < net.now.shape.zones }
    ensures valid { IsNetwork net.now }
{
    let ends = net.link(link);
    if forward { ends.from } else { ends.to }
}

/// The zone that it enters.
#[inline]
pub(crate) fn end_of(net: &Network, link: u32, forward: bool) -> u8
    requires { link < link_count net.now.shape }
    ensures value { result ≡ end_of net.now.shape link forward }
    ensures among { result < net.now.shape.zones }
{
    let ends = net.link(link);
    if forward { ends.to } else { ends.from }
}

/// The same way, or the other one where `towards` is false.
#[inline]
pub(crate) fn way(towards: bool, forward: bool) -> bool
    ensures { result ≡ way towards forward }
{
    if towards { forward } else { !forward }
}
