ghost use Rattle.std.specs.Prelude.{◌≡◌, ◌==◌, ◌<◌, ◌≤◌, min, map, if◌then◌else◌};
ghost use Rattle.std.specs.List.{range_with_len};
ghost use Rattle.ra_base.specs.declared.limits.TheConstants.{MOST_LINK_MW};
ghost use Rattle.system_model.specs.System.{zone_count, storage_count, hourly_load};
ghost use Rattle.outage_chronology.specs.Standing.{is_up_at, was_up_at};
ghost use Rattle.sample_run.specs.UpSums.{AreSums};
ghost use Rattle.sample_run.specs.HourNetwork.{shape_of, network_of, zone_supply, device_caps, AreLinks};

use crate::up_sums::UpSums;
use outage_chronology::Chronology;
use storage_state::Storages;
use system_model::System;
use zone_network::Network;

/// Sets a network whose links are those of the hour where the chronology stands to that of the hour, by the
/// sums over what is up then and by what the storages hold. It takes no memory.
pub(crate) fn set_hour(
    net: &mut Network,
    system: &System,
    chronology: &Chronology<'_>,
    storages: &Storages<'_>,
    sums: &UpSums,
)
    requires shape { net.old.shape ≡ shape_of system.now }
    requires chronology { chronology.now.system ≡ system.now }
    requires storages { storages.now.system ≡ system.now }
    requires sums { AreSums system.now (is_up_at chronology.now) sums.now }
    requires links { AreLinks system.now (is_up_at chronology.now) net.old }
    ensures { net.new ≡ network_of system.now (is_up_at chronology.now) storages.now.energies
        chronology.now.hour }
{
    set_zones(net, system, chronology, sums);
    set_devices(net, system, chronology, storages);
}

/// Goes on to the hour where the chronology stands with the sums, and with the links where a line went out or
/// came back.
pub(crate) fn follow(
    sums: &mut UpSums,
    net: &mut Network,
    system: &System,
    chronology: &Chronology<'_>,
)
    requires shape { net.old.shape ≡ shape_of system.now }
    requires chronology { chronology.now.system ≡ system.now }
    requires sums { AreSums system.now (was_up_at chronology.now) sums.old }
    requires links { AreLinks system.now (was_up_at chronology.now) net.old }
    ensures sums { AreSums system.now (is_up_at chronology.now) sums.new }
    ensures links { AreLinks system.now (is_up_at chronology.now) net.new }
    ensures shape { net.new.shape ≡ net.old.shape }
{
    if sums.follow(system, chronology) {
        set_links(net, system, chronology, sums);
    }
}

/// Sets what each zone has and what it asks.
fn set_zones(net: &mut Network, system: &System, chronology: &Chronology<'_>, sums: &UpSums)
    requires shape { net.old.shape ≡ shape_of system.now }
    requires chronology { chronology.now.system ≡ system.now }
    requires sums { AreSums system.now (is_up_at chronology.now) sums.now }
    ensures supplies { net.new.supplies ≡
        map (zone_supply system.now (is_up_at chronology.now) chronology.now.hour)
        (range_with_len 0 (zone_count system.now)) }
    ensures loads { net.new.loads ≡
        map (hourly_load system.now chronology.now.hour) (range_with_len 0 (zone_count system.now)) }
    ensures rest { net.new ≡ record net.old { supplies = net.new.supplies; loads = net.new.loads } }
{
    for zone in 0..net.zones() {
        net.set_supply(zone, supply(system, chronology, sums, zone));
        net.set_load(zone, system.load(chronology.hour(), zone));
    }
}

/// What a zone has in the hour where the chronology stands, in MW.
pub(crate) fn supply(system: &System, chronology: &Chronology<'_>, sums: &UpSums, zone: u8) -> u32
    requires zone { zone < zone_count system.now }
    requires chronology { chronology.now.system ≡ system.now }
    requires sums { AreSums system.now (is_up_at chronology.now) sums.now }
    ensures value { result ≡ zone_supply system.now (is_up_at chronology.now) chronology.now.hour zone }
    ensures most { result ≤ MOST_LINK_MW }
{
    sums.units.get(zone as usize) + system.variable(chronology.hour(), zone)
}

/// Sets what each link carries.
pub(crate) fn set_links(
    net: &mut Network,
    system: &System,
    chronology: &Chronology<'_>,
    sums: &UpSums,
)
    requires shape { net.old.shape ≡ shape_of system.now }
    requires sums { AreSums system.now (is_up_at chronology.now) sums.now }
    ensures links { AreLinks system.now (is_up_at chronology.now) net.new }
    ensures rest { net.new ≡ record net.old { forwards = net.new.forwards; backwards = net.new.backwards } }
{
    for link in 0..net.links() {
        let at = link as usize;
        let stated = system.interface(link);
        let lines = sums.lines.get(at);
        let forward = limit(stated.forward, lines, sums.forward.get(at));
        let backward = limit(stated.backward, lines, sums.backward.get(at));
        net.set_link(link, forward, backward);
    }
}

/// The limit of an interface one way, by its stated limit, how many lines it has, and what those that are up
/// carry.
fn limit(stated: u32, lines: u32, carried: u32) -> u32
    ensures { result ≡ (if lines == 0 then stated else min stated carried) }
{
    // An interface without lines keeps its stated limit.
    if lines == 0 {
        stated
    } else {
        stated.min(carried)
    }
}

/// Sets what each device may discharge and charge.
fn set_devices(
    net: &mut Network,
    system: &System,
    chronology: &Chronology<'_>,
    storages: &Storages<'_>,
)
    requires shape { net.old.shape ≡ shape_of system.now }
    requires chronology { chronology.now.system ≡ system.now }
    requires storages { storages.now.system ≡ system.now }
    ensures discharge { net.new.discharge_caps ≡
        map (λ device.
        (device_caps system.now (is_up_at chronology.now) storages.now.energies device).discharge)
        (range_with_len 0 (storage_count system.now)) }
    ensures charge { net.new.charge_caps ≡
        map (λ device.
        (device_caps system.now (is_up_at chronology.now) storages.now.energies device).charge)
        (range_with_len 0 (storage_count system.now)) }
    ensures rest { net.new ≡ record net.old {
      discharge_caps = net.new.discharge_caps;
      charge_caps = net.new.charge_caps;
    } }
{
    for device in 0..net.devices() {
        let up = chronology.is_up(system.units() + device);
        let caps = storages.caps(device, up);
        net.set_caps(device, caps.discharge, caps.charge);
    }
}
