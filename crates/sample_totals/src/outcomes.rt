ghost use Rattle.std.specs.Prelude.{◌≡◌, IfOk, replicate};

use ra_base::{Amounts, OutOfMemory};
use std::alloc::Global;

/// What an hour comes to: what each zone lacks, what each device does, and the cut.
#[derive(Drop)]
pub struct HourOutcome {
    /// The hour, from 0.
    pub hour: u32,
    /// The load that isn't served, by zone, in MW.
    pub unserved: Amounts,
    /// What each device discharges, in MW.
    pub discharge: Amounts,
    /// What each device charges, in MW.
    pub charge: Amounts,
    /// What each device holds after the hour, in kWh.
    pub energy: Amounts,
    /// The greatest tight set of zones, as a mask with bit `z` for zone `z`: what it lacks after its
    /// supply, its discharge caps and the limits into it is all the unserved load. 0 in an hour without
    /// unserved load.
    pub cut: u32,
}

impl HourOutcome {
    /// An outcome for so many zones and devices, all zero.
    pub fn new(alloc: Global, zones: u8, devices: u32) -> Result<HourOutcome, OutOfMemory>
        ensures { IfOk result (λ outcome. outcome ≡ record {
          hour = 0;
          unserved = replicate zones 0;
          discharge = replicate devices 0;
          charge = replicate devices 0;
          energy = replicate devices 0;
          cut = 0;
        }) }
    {
        let zones = zones as usize;
        let devices = devices as usize;
        Ok(HourOutcome {
            hour: 0,
            unserved: Amounts::zeros(alloc, zones)?,
            discharge: Amounts::zeros(alloc, devices)?,
            charge: Amounts::zeros(alloc, devices)?,
            energy: Amounts::zeros(alloc, devices)?,
            cut: 0,
        })
    }
}
