//! Trials and a planner's folder: the same bytes for every number of workers.

use crate::answers::{quietly, words_of};
use ra_base::{
    MemoryConsole, MemoryShelf, MemorySink, NoPause, Status, TableBytes, TableName, Text,
};
use std::alloc::Global;
use std::sync::Wait;
use std::test::Fail;
use std::thread::Threads;
use system_maker::make_tables;

const CHECK_OF_7: &str =
    "zones 3 units 96 interfaces 3 lines 5 storages 2 hours 8784 capacity 7200 peak 6390 hour 828\nsamples 200\n";

const CHECK_OF_20: &str =
    "zones 3 units 96 interfaces 3 lines 5 storages 2 hours 8784 capacity 7200 peak 6420 hour 180\n";

// What is written for these words, which are answered.
pub(crate) fn written<T: Threads + Wait + Sync>(
    rt: &T,
    alloc: Global,
    words: &str,
    shelf: &mut MemoryShelf,
) -> Result<MemorySink, Fail> {
    let words = words_of(alloc, words)?;
    let mut out = MemorySink::new(alloc, 2_000_000)?;
    let mut err = MemorySink::new(alloc, 100)?;
    match quietly(rt, alloc, &words, shelf, &mut out, &mut err, &NoPause) {
        Status::Done => Ok(out),
        _ => Err("not answered".into()),
    }
}

// Two hundred samples in shares of seven: the last share has four.
#[test]
fn workers_write_the_bytes_of_one(rt: HostRuntime) -> Result<(), Fail> {
    let alloc = rt.alloc();
    let mut shelf = MemoryShelf::new(alloc);
    let one = "trial 7 --samples 200 --block 7";
    let four = "trial 7 --samples 200 --block 7 --workers 4";
    let alone = written(&rt, alloc, one, &mut shelf)?;
    let together = written(&rt, alloc, four, &mut shelf)?;
    assert!(rt; alone.bytes().starts_with(CHECK_OF_7.as_bytes()));
    assert_eq!(rt; together.bytes(), alone.bytes());
    Ok(())
}

fn put(shelf: &mut MemoryShelf, table: TableName, text: &Option<Text>) -> Result<(), Fail> {
    if let Some(text) = text {
        shelf.put("F", table, text.bytes())?;
    }
    Ok(())
}

pub(crate) fn shelf_of(alloc: Global, tables: &TableBytes) -> Result<MemoryShelf, Fail> {
    let mut shelf = MemoryShelf::new(alloc);
    put(&mut shelf, TableName::Zones, &tables.zones)?;
    put(&mut shelf, TableName::Units, &tables.units)?;
    put(&mut shelf, TableName::Interfaces, &tables.interfaces)?;
    put(&mut shelf, TableName::Lines, &tables.lines)?;
    put(&mut shelf, TableName::Storages, &tables.storages)?;
    put(&mut shelf, TableName::Load, &tables.load)?;
    put(&mut shelf, TableName::Variable, &tables.variable)?;
    Ok(shelf)
}

// The tables of a made system are read as it: a study of them writes what a trial of its number writes behind
// the line of the check.
#[test]
fn a_planners_folder(rt: HostRuntime) -> Result<(), Fail> {
    let alloc = rt.alloc();
    let mut shelf = shelf_of(alloc, &make_tables(alloc, 20)?)?;
    let check = written(&rt, alloc, "check F", &mut shelf)?;
    assert_eq!(rt; check.bytes(), CHECK_OF_20.as_bytes());
    let one = written(&rt, alloc, "study F --samples 20", &mut shelf)?;
    let made = written(&rt, alloc, "trial 20 --samples 20 --workers 4", &mut shelf)?;
    assert_eq!(rt;
        made.bytes().strip_prefix(CHECK_OF_20.as_bytes()),
        Some(one.bytes())
    );
    Ok(())
}
