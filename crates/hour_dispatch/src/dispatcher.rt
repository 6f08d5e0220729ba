ghost use Rattle.std.specs.Prelude.{◌≡◌, IfOk};
ghost use Rattle.zone_network.specs.Network.{IsNetwork, ShapeParts};
ghost use Rattle.zone_network.specs.Cut.{IsCut};
ghost use Rattle.cut_certificate.specs.Chain.{AreSized, Fit, IsAccepted, IsOnlyBestOutcome, all_unserved};
ghost use Rattle.cut_certificate.specs.Least.{IsLeastUnserved};

use crate::charging::charge;
use crate::cutting::cut;
use crate::discharging::discharge;
use crate::generating::generate;
use crate::serving::serve;
use crate::starting::start;
use cut_certificate::Chain;
use ra_base::OutOfMemory;
use sample_totals::HourOutcome;
use std::alloc::Global;
use std::marker::Model;
use transfer_flow::Flow;
use zone_network::{Network, Shape};

/// Dispatches networks of one shape, hour by hour. It keeps its memory from hour to hour.
#[derive(Drop)]
pub struct Dispatcher {
    flow: Flow,
}

impl Model for Dispatcher {
    ghost Value = { ShapeParts };

    ghost view = { λ d. d.flow.shape };
}

impl Dispatcher {
    /// A dispatcher for networks of this shape.
    pub fn new(alloc: Global, shape: &Shape) -> Result<Dispatcher, OutOfMemory>
        ensures { IfOk result (λ dispatcher. dispatcher ≡ shape.now) }
    {
        Ok(Dispatcher {
            flow: Flow::new(alloc, shape)?,
        })
    }

    /// Sets the outcome's unserved load, discharge and charge, in MW, to those of the best dispatch, its cut
    /// to the greatest tight set, or 0 where all load is served, and the chain to one that proves it. The
    /// hour and the energies stay. It takes no memory. The order of comparison and the cut are this
    /// project's rules.
    pub fn best(&mut self, net: &Network, outcome: &mut HourOutcome, chain: &mut Chain)
        requires shape { self.old ≡ net.now.shape }
        requires sizes { AreSized net.now outcome.old chain.old }
        ensures shape { self.new ≡ net.now.shape }
        ensures fit { Fit net.now outcome.new chain.new }
        ensures accepted { IsAccepted net.now outcome.new chain.new }
        ensures best { IsOnlyBestOutcome net.now outcome.new }
        ensures cut { IsCut net.now (all_unserved net.now outcome.new) outcome.new.cut }
        ensures least { IsLeastUnserved net.now (all_unserved net.now outcome.new) }
        ensures hour { outcome.new.hour ≡ outcome.old.hour }
        ensures energy { outcome.new.energy ≡ outcome.old.energy }
    {
        start(&mut self.flow, net);
        serve(&mut self.flow, net, &mut outcome.unserved, &mut chain.sets);
        outcome.cut = cut(&self.flow, net, &outcome.unserved);
        discharge(&mut self.flow, net, outcome, &mut chain.sets);
        charge(&mut self.flow, net, outcome, &mut chain.sets);
        generate(&self.flow, net, chain);
    }
}
