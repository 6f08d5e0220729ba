ghost use Rattle.std.specs.Prelude.{◌≡◌, ◌<◌, ◌≤◌};
ghost use Rattle.system_model.specs.Rates.{AreRates};
ghost use Rattle.system_model.specs.System.{IsValid};
ghost use Rattle.outage_chronology.specs.Outages.{component_count as count_of, component_rates};

use system_model::{Rates, System};

/// How many components there are: at most 2,688.
pub(crate) fn component_count(system: &System) -> u32
    ensures count { result ≡ count_of system.now }
    ensures most { result ≤ 2688 }
    ensures valid { IsValid system.now }
{
    system.units() + system.storages() + system.lines()
}

/// The rates of a component: the units come first, then the storages, then the lines.
pub(crate) fn rates_of(system: &System, component: u32) -> Rates
    requires { component < count_of system.now }
    ensures value { result ≡ component_rates system.now component }
    ensures range { AreRates result }
{
    let storages = system.units();
    let lines = storages + system.storages();
    if component < storages {
        system.unit(component).rates
    } else if component < lines {
        system.storage(component - storages).rates
    } else {
        system.line(component - lines).rates
    }
}
