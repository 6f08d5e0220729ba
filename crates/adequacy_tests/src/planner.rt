use crate::trials::{shelf_of, written};
use std::test::Fail;
use system_maker::make_tables;

// A program of sixty digits gives 8.8317928139641 hours and 846.9547099774064 MWh; with the new unit and 92 MW
// more load in each hour it gives less than that, with 93 MW more.
const INDEX: &str = "hours 8784 peak 6420 hour 180\nlole low 8.83179281396";

const CREDIT: &str = "credit elcc eue\ntarget low 846.9547099";

const UNIT: &str =
    "credit F --kind elcc --measure eue --capacity 100 --failure 0.001 --repair 0.02 --up-to 200";

// The indices of 96 units lie in their enclosures, and a new unit is worth between 92 and 93 MW.
#[test]
fn a_planners_folder(rt: HostRuntime) -> Result<(), Fail> {
    let alloc = rt.alloc();
    let mut shelf = shelf_of(alloc, &make_tables(alloc, 20)?)?;
    let index = written(&rt, alloc, "index F", &mut shelf)?;
    let bytes = index.bytes();
    let at = INDEX.len();
    assert!(rt; bytes.len() > 200 && bytes.starts_with(INDEX.as_bytes()));
    assert!(rt; bytes[at] <= b'4');
    assert!(rt; bytes[at + 1..].starts_with(b" high 8.83179281396"));
    assert!(rt; bytes[at + 20] >= b'5' && bytes[at + 20] - bytes[at] <= 3);
    assert!(rt; bytes[at + 21..].starts_with(b"\neue low 846.9547099"));
    let credit = written(&rt, alloc, UNIT, &mut shelf)?;
    let text = std::str::from_utf8(credit.bytes()).map_err(|_| "text")?;
    assert!(rt; text.starts_with(CREDIT));
    assert!(rt; text.contains("\nlow 92 at low ") && text.contains("\nhigh 93 at low "));
    Ok(())
}
