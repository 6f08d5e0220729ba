ghost use Rattle.std.specs.Prelude.{◌≡◌, ◌+◌, ◌<◌, length};
ghost use Rattle.zone_network.specs.Network.{device_count, discharge_cap_at};
ghost use Rattle.cut_certificate.specs.Chain.{served_in};
ghost use Rattle.hour_dispatch.specs.Balance.{IsInBalance};
ghost use Rattle.hour_dispatch.specs.Stages.{IsSparedIn, IsUnused, Keeps, nothing, set_count};

use ra_base::Amounts;
use sample_totals::HourOutcome;
use transfer_flow::Flow;
use zone_network::Network;

/// Keeps the discharge of each device least, from the last device to the first, and writes it with the
/// sets that prove it. What is served stays served.
pub(crate) fn discharge(
    flow: &mut Flow,
    net: &Network,
    outcome: &mut HourOutcome,
    sets: &mut Amounts,
)
    requires balance { let served = served_in net.now outcome.old in
        IsInBalance net.now flow.old served (discharge_cap_at net.now) nothing }
    requires unused { IsUnused net.now flow.old (discharge_cap_at net.now) }
    requires discharge { length outcome.old.discharge ≡ device_count net.now.shape }
    requires sets { length sets.old ≡ set_count net.now.shape }
    ensures spared { IsSparedIn net.now flow.new outcome.new sets.new 0 }
    ensures stays { outcome.new ≡ record outcome.old { discharge = outcome.new.discharge } }
    ensures kept { Keeps net.now.shape.zones sets.old sets.new }
{
    for device in (0..net.devices()).rev() {
        discharge_device(flow, net, device, outcome, sets);
    }
}

/// Keeps the discharge of a device least: what can come from elsewhere takes its place.
fn discharge_device(
    flow: &mut Flow,
    net: &Network,
    device: u32,
    outcome: &mut HourOutcome,
    sets: &mut Amounts,
)
    requires device { device < device_count net.now.shape }
    requires after { IsSparedIn net.now flow.old outcome.old sets.old (device + 1) }
    ensures spared { IsSparedIn net.now flow.new outcome.new sets.new device }
    ensures stays { outcome.new ≡ record outcome.old { discharge = outcome.new.discharge } }
    ensures kept { Keeps net.now.shape.zones sets.old sets.new }
{
    let cap = net.discharge_cap(device);
    let pull = flow.pull_or_search(net, net.device_zone(device), cap);
    outcome.discharge.set(device as usize, cap - pull.moved);
    sets.set(net.zones() as usize + device as usize, pull.searched);
}
