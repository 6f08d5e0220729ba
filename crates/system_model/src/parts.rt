use crate::components::{Interface, Line, Storage, Unit};
use ra_base::Text;
use std::alloc::Global;

/// The lists that a draft and a system keep.
#[derive(Drop)]
pub(crate) struct Parts {
    pub(crate) zone_names: Vec<Text>,
    pub(crate) units: Vec<Unit>,
    pub(crate) unit_names: Vec<Text>,
    pub(crate) interfaces: Vec<Interface>,
    pub(crate) interface_names: Vec<Text>,
    pub(crate) lines: Vec<Line>,
    pub(crate) line_names: Vec<Text>,
    pub(crate) storages: Vec<Storage>,
    pub(crate) storage_names: Vec<Text>,
    pub(crate) hours: u32,
    // For each hour one amount for each zone, so a zone's amount stands at `hour * zones + zone`.
    pub(crate) load: Vec<u32>,
    pub(crate) variable: Vec<u32>,
}
