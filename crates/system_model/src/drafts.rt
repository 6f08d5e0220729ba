ghost use Rattle.std.specs.Prelude.{◌≡◌, ◌+◌, ◌<◌, ◌≤◌, [], ◌∷◌, ◌++◌, length, vec_len, vec_capacity, OnOk, OnErr, IfOk};
ghost use Rattle.ra_base.specs.declared.limits.TheConstants.{MOST_ZONES, MOST_UNITS, MOST_INTERFACES, MOST_LINES, MOST_STORAGES, MOST_HOURS, MOST_POOLED_MW};
ghost use Rattle.system_model.specs.Components.{IsUnitAmong, IsInterfaceAmong, IsLineAmong, IsStorageAmong, pooled_capacity, pooled_charge, pooled_discharge};
ghost use Rattle.system_model.specs.System.{SystemParts, IsName, IsHourAmong, IsValid, amounts_of, no_parts, zone_count, unit_count, interface_count, line_count, storage_count, hour_count};
ghost use Rattle.system_model.specs.Parts.{parts_of, AreDraftParts};

use crate::components::{Interface, Line, Storage, Unit};
use crate::parts::Parts;
use crate::systems::System;
use ra_base::{Amounts, OutOfMemory, Text};
use std::alloc::Global;
use std::marker::Model;

/// A system in the making, seen as the parts that it has so far. They never pass a limit.
///
/// A call that finds no memory leaves the draft as it was.
#[derive(Drop)]
pub struct Draft {
    alloc: Global,
    parts: Parts,
}

impl Model for Draft {
    ghost Value = { SystemParts };

    ghost view = { λ d. parts_of d.parts };

    ghost invariant = { λ d. AreDraftParts d.parts };
}

impl Draft {
    /// A draft without parts. It takes no memory.
    pub fn new(alloc: Global) -> Draft
        ensures { result ≡ no_parts }
    {
        let parts = Parts {
            zone_names: Vec::new(alloc),
            units: Vec::new(alloc),
            unit_names: Vec::new(alloc),
            interfaces: Vec::new(alloc),
            interface_names: Vec::new(alloc),
            lines: Vec::new(alloc),
            line_names: Vec::new(alloc),
            storages: Vec::new(alloc),
            storage_names: Vec::new(alloc),
            hours: 0,
            load: Vec::new(alloc),
            variable: Vec::new(alloc),
        };
        Draft { alloc, parts }
    }

    /// Adds a zone behind those that are there. All zones come before the first hour.
    pub fn push_zone(&mut self, name: &[u8]) -> Result<(), OutOfMemory>
        requires room { zone_count self.old < MOST_ZONES }
        requires name { IsName name.now }
        requires before_hours { self.old.hours ≡ [] }
        ensures ok { OnOk result (self.new ≡ record self.old {
          zone_names = self.old.zone_names ++ name.now ∷ [];
        }) }
        ensures err { OnErr result (self.new ≡ self.old) }
    {
        let text = text_of(self.alloc, name)?;
        self.parts.zone_names.push(text)?;
        Ok(())
    }

    /// Adds a unit behind those that are there. Its zone is there already.
    pub fn push_unit(&mut self, name: &[u8], unit: Unit) -> Result<(), OutOfMemory>
        requires room { unit_count self.old < MOST_UNITS }
        requires name { IsName name.now }
        requires unit { IsUnitAmong (zone_count self.old) unit }
        requires pooled { pooled_capacity self.old.units + unit.capacity ≤ MOST_POOLED_MW }
        ensures ok { OnOk result (self.new ≡ record self.old {
          units = self.old.units ++ unit ∷ [];
          unit_names = self.old.unit_names ++ name.now ∷ [];
        }) }
        ensures err { OnErr result (self.new ≡ self.old) }
    {
        let text = text_of(self.alloc, name)?;
        self.parts.unit_names.reserve(1)?;
        self.parts.units.push(unit)?;
        self.parts.unit_names.push(text).unwrap();
        Ok(())
    }

    /// Adds an interface behind those that are there. Its zones are there already.
    pub fn push_interface(&mut self, name: &[u8], interface: Interface) -> Result<(), OutOfMemory>
        requires room { interface_count self.old < MOST_INTERFACES }
        requires name { IsName name.now }
        requires interface { IsInterfaceAmong (zone_count self.old) interface }
        ensures ok { OnOk result (self.new ≡ record self.old {
          interfaces = self.old.interfaces ++ interface ∷ [];
          interface_names = self.old.interface_names ++ name.now ∷ [];
        }) }
        ensures err { OnErr result (self.new ≡ self.old) }
    {
        let text = text_of(self.alloc, name)?;
        self.parts.interface_names.reserve(1)?;
        self.parts.interfaces.push(interface)?;
        self.parts.interface_names.push(text).unwrap();
        Ok(())
    }

    /// Adds a line behind those that are there. Its interface is there already.
    pub fn push_line(&mut self, name: &[u8], line: Line) -> Result<(), OutOfMemory>
        requires room { line_count self.old < MOST_LINES }
        requires name { IsName name.now }
        requires line { IsLineAmong (interface_count self.old) line }
        ensures ok { OnOk result (self.new ≡ record self.old {
          lines = self.old.lines ++ line ∷ [];
          line_names = self.old.line_names ++ name.now ∷ [];
        }) }
        ensures err { OnErr result (self.new ≡ self.old) }
    {
        let text = text_of(self.alloc, name)?;
        self.parts.line_names.reserve(1)?;
        self.parts.lines.push(line)?;
        self.parts.line_names.push(text).unwrap();
        Ok(())
    }

    /// Adds a storage behind those that are there. Its zone is there already.
    pub fn push_storage(&mut self, name: &[u8], storage: Storage) -> Result<(), OutOfMemory>
        requires room { storage_count self.old < MOST_STORAGES }
        requires name { IsName name.now }
        requires storage { IsStorageAmong (zone_count self.old) storage }
        requires pooled_charge { pooled_charge self.old.storages + storage.charge ≤ MOST_POOLED_MW }
        requires pooled_discharge { pooled_discharge self.old.storages + storage.discharge ≤ MOST_POOLED_MW }
        ensures ok { OnOk result (self.new ≡ record self.old {
          storages = self.old.storages ++ storage ∷ [];
          storage_names = self.old.storage_names ++ name.now ∷ [];
        }) }
        ensures err { OnErr result (self.new ≡ self.old) }
    {
        let text = text_of(self.alloc, name)?;
        self.parts.storage_names.reserve(1)?;
        self.parts.storages.push(storage)?;
        self.parts.storage_names.push(text).unwrap();
        Ok(())
    }

    /// Adds an hour behind those that are there, with its load and its variable generation in MW by zone.
    pub fn push_hour(&mut self, load: &Amounts, variable: &Amounts) -> Result<(), OutOfMemory>
        requires room { hour_count self.old < MOST_HOURS }
        requires amounts { IsHourAmong (zone_count self.old) (amounts_of load.now variable.now) }
        ensures ok { OnOk result (self.new ≡ record self.old {
          hours = self.old.hours ++ amounts_of load.now variable.now ∷ [];
        }) }
        ensures err { OnErr result (self.new ≡ self.old) }
    {
        self.parts.load.reserve(load.len())?;
        self.parts.variable.reserve(variable.len())?;
        append(&mut self.parts.load, load);
        append(&mut self.parts.variable, variable);
        self.parts.hours += 1;
        Ok(())
    }

    /// The system that has the draft's parts.
    pub fn finish(self) -> System
        requires zone { 0 < zone_count self }
        requires hour { 0 < hour_count self }
        ensures same { result ≡ self }
        ensures valid { IsValid result }
    {
        let Draft { alloc: _, parts } = self;
        System::of(parts)
    }
}

/// The name as a text of its own.
fn text_of(alloc: Global, name: &[u8]) -> Result<Text, OutOfMemory>
    ensures { IfOk result (λ text. text ≡ name.now) }
{
    let mut text = Text::new(alloc);
    text.push(name)?;
    Ok(text)
}

/// Adds the amounts at the end of a list that has room for them.
fn append(list: &mut Vec<u32>, amounts: &Amounts)
    requires { vec_len list.old + length amounts.now ≤ vec_capacity list.old }
    ensures { list.new.items ≡ list.old.items ++ amounts.now }
{
    for at in 0..amounts.len() {
        list.push(amounts.get(at)).unwrap();
    }
}
