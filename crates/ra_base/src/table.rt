use crate::Text;

/// The tables of a system's folder, in the order in which they are read.
#[derive(Clone, Copy, Debug, PartialEq, Eq)]
pub enum TableName {
    Zones,
    Units,
    Interfaces,
    Lines,
    Storages,
    Load,
    Variable,
}

/// The bytes of a folder's seven tables, each where there is such a table.
#[derive(Drop)]
pub struct TableBytes {
    pub zones: Option<Text>,
    pub units: Option<Text>,
    pub interfaces: Option<Text>,
    pub lines: Option<Text>,
    pub storages: Option<Text>,
    pub load: Option<Text>,
    pub variable: Option<Text>,
}
