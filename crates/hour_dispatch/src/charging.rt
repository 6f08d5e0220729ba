ghost use Rattle.std.specs.Prelude.{◌≡◌, ℕ, ◌+◌, ◌<◌, ◌≤◌, length};
ghost use Rattle.zone_network.specs.Network.{device_count, supply_at};
ghost use Rattle.transfer_flow.specs.Flow.{spare_at};
ghost use Rattle.cut_certificate.specs.Chain.{served_in, discharge_in};
ghost use Rattle.hour_dispatch.specs.Balance.{IsInBalance};
ghost use Rattle.hour_dispatch.specs.Stages.{IsChargedIn, Keeps, nothing, set_count};

use ra_base::Amounts;
use sample_totals::HourOutcome;
use transfer_flow::Flow;
use zone_network::Network;

/// Raises the charge of each device as far as unused supply goes, from the first device to the last, and
/// writes it with the sets that prove it. What is served and discharged stays so.
pub(crate) fn charge(flow: &mut Flow, net: &Network, outcome: &mut HourOutcome, sets: &mut Amounts)
    requires balance { let served = served_in net.now outcome.old in
        IsInBalance net.now flow.old served (discharge_in outcome.old) nothing }
    requires unused { (z : ℕ) → z < net.now.shape.zones → spare_at flow.old z ≤ supply_at net.now z }
    requires charge { length outcome.old.charge ≡ device_count net.now.shape }
    requires sets { length sets.old ≡ set_count net.now.shape }
    ensures charged { IsChargedIn net.now flow.new outcome.new sets.new (device_count net.now.shape) }
    ensures stays { outcome.new ≡ record outcome.old { charge = outcome.new.charge } }
    ensures kept { Keeps (net.now.shape.zones + device_count net.now.shape) sets.old sets.new }
{
    for device in 0..net.devices() {
        charge_device(flow, net, device, outcome, sets);
    }
}

/// Raises the charge of the next device.
fn charge_device(
    flow: &mut Flow,
    net: &Network,
    device: u32,
    outcome: &mut HourOutcome,
    sets: &mut Amounts,
)
    requires device { device < device_count net.now.shape }
    requires before { IsChargedIn net.now flow.old outcome.old sets.old device }
    ensures charged { IsChargedIn net.now flow.new outcome.new sets.new (device + 1) }
    ensures stays { outcome.new ≡ record outcome.old { charge = outcome.new.charge } }
    ensures kept { Keeps (net.now.shape.zones + device_count net.now.shape) sets.old sets.new }
{
    let pull = flow.pull_or_search(net, net.device_zone(device), net.charge_cap(device));
    outcome.charge.set(device as usize, pull.moved);
    let first = net.zones() as usize + net.devices() as usize;
    sets.set(first + device as usize, pull.searched);
}
