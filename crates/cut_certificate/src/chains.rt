ghost use Rattle.std.specs.Prelude.{◌≡◌, IfOk};
ghost use Rattle.cut_certificate.specs.Chain.{empty_chain};

use crate::flow_lists::Flows;
use ra_base::{Amounts, OutOfMemory};
use std::alloc::Global;
use zone_network::Shape;

/// What proves an outcome the best: flows and generation that make it feasible, and a set of zones for
/// each component that can't be improved.
#[derive(Drop)]
pub struct Chain {
    /// The flow of each link, in MW.
    pub flows: Flows,
    /// What each zone generates, in MW.
    pub generation: Amounts,
    /// A mask with bit `z` for zone `z`: one for each zone's unserved load, then one for each device's
    /// discharge, then one for each device's charge. The mask 0 stands for a component at its bound.
    pub sets: Amounts,
}

impl Chain {
    /// A chain for networks of this shape, all zero.
    pub fn new(alloc: Global, shape: &Shape) -> Result<Chain, OutOfMemory>
        ensures { IfOk result (λ chain. chain ≡ empty_chain shape.now) }
    {
        let zones = shape.zones() as usize;
        let links = shape.links() as usize;
        let devices = shape.devices() as usize;
        Ok(Chain {
            flows: Flows::zeros(alloc, links)?,
            generation: Amounts::zeros(alloc, zones)?,
            sets: Amounts::zeros(alloc, zones + devices + devices)?,
        })
    }
}
