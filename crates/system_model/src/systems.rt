ghost use Rattle.std.specs.Prelude.{◌≡◌, ◌+◌, ◌<◌, ◌≤◌, [], ◌∷◌, ◌++◌, length};
ghost use Rattle.ra_base.specs.declared.limits.TheConstants.{MOST_POOLED_MW};
ghost use Rattle.system_model.specs.Components.{IsUnitAmong, IsInterfaceAmong, IsLineAmong, IsStorageAmong};
ghost use Rattle.system_model.specs.System.{SystemParts, IsName, IsValid, zone_count, unit_count, interface_count, line_count, storage_count, hour_count, unit_at, interface_at, line_at, storage_at, hourly_load, hourly_variable, zone_name_at, unit_name_at, interface_name_at, line_name_at, storage_name_at};
ghost use Rattle.system_model.specs.Parts.{parts_of, AreSystemParts};

use crate::components::{Interface, Line, Storage, Unit};
use crate::parts::Parts;
use std::marker::Model;

/// A power system, seen as its parts. Whoever holds one holds a valid one: no part passes a limit,
/// and a zone and an hour are there. The counts say so to their callers.
///
/// No reader takes memory. Places count from 0.
#[derive(Drop)]
pub struct System {
    parts: Parts,
}

impl Model for System {
    ghost Value = { SystemParts };

    ghost view = { λ s. parts_of s.parts };

    ghost invariant = { λ s. AreSystemParts s.parts };
}

impl System {
    /// The system of a finished draft's lists.
    pub(crate) fn of(parts: Parts) -> System
        requires { AreSystemParts parts }
        ensures { result ≡ parts_of parts }
    {
        System { parts }
    }

    /// How many zones there are: 1 to 32.
    pub fn zones(&self) -> u8
        ensures count { result ≡ zone_count self.now }
        ensures valid { IsValid self.now }
    {
        self.parts.zone_names.len() as u8
    }

    /// How many units there are: at most 2,048.
    pub fn units(&self) -> u32
        ensures count { result ≡ unit_count self.now }
        ensures valid { IsValid self.now }
    {
        self.parts.units.len() as u32
    }

    /// How many interfaces there are: at most 128.
    pub fn interfaces(&self) -> u32
        ensures count { result ≡ interface_count self.now }
        ensures valid { IsValid self.now }
    {
        self.parts.interfaces.len() as u32
    }

    /// How many lines there are: at most 512.
    pub fn lines(&self) -> u32
        ensures count { result ≡ line_count self.now }
        ensures valid { IsValid self.now }
    {
        self.parts.lines.len() as u32
    }

    /// How many storages there are: at most 128.
    pub fn storages(&self) -> u32
        ensures count { result ≡ storage_count self.now }
        ensures valid { IsValid self.now }
    {
        self.parts.storages.len() as u32
    }

    /// How many hours there are: 1 to 8,784.
    pub fn hours(&self) -> u32
        ensures count { result ≡ hour_count self.now }
        ensures valid { IsValid self.now }
    {
        self.parts.hours
    }

    /// The unit at this place.
    pub fn unit(&self, at: u32) -> Unit
        requires { at < unit_count self.now }
        ensures value { result ≡ unit_at self.now at }
        ensures range { IsUnitAmong (zone_count self.now) result }
    {
        self.parts.units[at as usize]
    }

    /// The interface at this place.
    pub fn interface(&self, at: u32) -> Interface
        requires { at < interface_count self.now }
        ensures value { result ≡ interface_at self.now at }
        ensures range { IsInterfaceAmong (zone_count self.now) result }
    {
        self.parts.interfaces[at as usize]
    }

    /// The line at this place.
    pub fn line(&self, at: u32) -> Line
        requires { at < line_count self.now }
        ensures value { result ≡ line_at self.now at }
        ensures range { IsLineAmong (interface_count self.now) result }
    {
        self.parts.lines[at as usize]
    }

    /// The storage at this place.
    pub fn storage(&self, at: u32) -> Storage
        requires { at < storage_count self.now }
        ensures value { result ≡ storage_at self.now at }
        ensures range { IsStorageAmong (zone_count self.now) result }
    {
        self.parts.storages[at as usize]
    }

    /// The load of a zone in an hour, in MW: at most 200,000.
    pub fn load(&self, hour: u32, zone: u8) -> u32
        requires hour { hour < hour_count self.now }
        requires zone { zone < zone_count self.now }
        ensures value { result ≡ hourly_load self.now hour zone }
        ensures range { result ≤ MOST_POOLED_MW }
    {
        self.parts.load[hour as usize * self.parts.zone_names.len() + zone as usize]
    }

    /// The variable generation of a zone in an hour, in MW: at most 200,000.
    pub fn variable(&self, hour: u32, zone: u8) -> u32
        requires hour { hour < hour_count self.now }
        requires zone { zone < zone_count self.now }
        ensures value { result ≡ hourly_variable self.now hour zone }
        ensures range { result ≤ MOST_POOLED_MW }
    {
        self.parts.variable[hour as usize * self.parts.zone_names.len() + zone as usize]
    }

    /// The name of a zone: 1 to 64 bytes.
    pub fn zone_name(&self, zone: u8) -> &[u8]
        requires { zone < zone_count self.now }
        ensures value { result.now ≡ zone_name_at self.now zone }
        ensures range { IsName result.now }
    {
        self.parts.zone_names[zone as usize].bytes()
    }

    /// The name of a unit: 1 to 64 bytes.
    pub fn unit_name(&self, at: u32) -> &[u8]
        requires { at < unit_count self.now }
        ensures value { result.now ≡ unit_name_at self.now at }
        ensures range { IsName result.now }
    {
        self.parts.unit_names[at as usize].bytes()
    }

    /// The name of an interface: 1 to 64 bytes.
    pub fn interface_name(&self, at: u32) -> &[u8]
        requires { at < interface_count self.now }
        ensures value { result.now ≡ interface_name_at self.now at }
        ensures range { IsName result.now }
    {
        self.parts.interface_names[at as usize].bytes()
    }

    /// The name of a line: 1 to 64 bytes.
    pub fn line_name(&self, at: u32) -> &[u8]
        requires { at < line_count self.now }
        ensures value { result.now ≡ line_name_at self.now at }
        ensures range { IsName result.now }
    {
        self.parts.line_names[at as usize].bytes()
    }

    /// The name of a storage: 1 to 64 bytes.
    pub fn storage_name(&self, at: u32) -> &[u8]
        requires { at < storage_count self.now }
        ensures value { result.now ≡ storage_name_at self.now at }
        ensures range { IsName result.now }
    {
        self.parts.storage_names[at as usize].bytes()
    }
}
