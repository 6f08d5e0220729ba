ghost use Rattle.std.specs.Prelude.{◌≡◌, IfOk, length};

use ra_base::OutOfMemory;
use sample_totals::{CutRow, HourOutcome, Part, SampleResult, Sums, Totals, enough, error, mean};
use std::alloc::Global;
use std::process::Abort;
use std::test::Fail;

// A threads' value: it may move between them, and they may share it.
fn is_shared<T: Send + Sync>(_value: &T) {}

#[test]
fn an_outcome_starts_at_zero(rt: HostRuntime) -> Result<(), Fail> {
    let outcome = HourOutcome::new(rt.alloc(), 3, 2)?;
    assert_eq!(rt; outcome.hour, 0);
    assert_eq!(rt; outcome.cut, 0);
    assert_eq!(rt; outcome.unserved.len(), 3);
    assert_eq!(rt; outcome.discharge.len(), 2);
    assert_eq!(rt; outcome.charge.len(), 2);
    assert_eq!(rt; outcome.energy.len(), 2);
    for z in 0..3 {
        assert_eq!(rt; outcome.unserved.get(z), 0);
    }
    for k in 0..2 {
        assert_eq!(rt; outcome.discharge.get(k), 0);
        assert_eq!(rt; outcome.charge.get(k), 0);
        assert_eq!(rt; outcome.energy.get(k), 0);
    }
    Ok(())
}

// The result of hours of two zones: what each zone lacks, and the cut.
fn result_of(
    rt: &impl Abort,
    alloc: Global,
    hours: &[(u32, u32, u32)],
) -> Result<SampleResult, OutOfMemory>
    ensures { IfOk result (λ r. length r.figures.zones ≡ 2) }
{
    assert!(rt; !hours.is_empty() && hours.len() <= 100);
    let mut outcome = HourOutcome::new(alloc, 2, 0)?;
    let mut result = SampleResult::new(alloc, 2, hours.len() as u32)?;
    'hours: for (first, second, cut) in hours {
        let (first, second, cut) = (*first, *second, *cut);
        assert!(rt; first <= 1_000);
        assert!(rt; second <= 1_000);
        assert!(rt; cut < 4);
        outcome.unserved.set(0, first);
        outcome.unserved.set(1, second);
        outcome.cut = cut;
        result.add_hour(&outcome);
        outcome.hour += 1;
    }
    Ok(result)
}

// Three days in which some hours fall short.
fn three_days() -> [(u32, u32, u32); 72] {
    let mut hours = [(0, 0, 0); 72];
    hours[0] = (1, 0, 1);
    hours[5] = (0, 2, 3);
    hours[6] = (3, 0, 3);
    hours[23] = (4, 0, 1);
    hours[24] = (0, 5, 2);
    hours[70] = (6, 1, 3);
    hours
}

const ROWS: [CutRow; 3] = [
    CutRow {
        mask: 1,
        hours: 2,
        unserved: 5,
    },
    CutRow {
        mask: 2,
        hours: 1,
        unserved: 5,
    },
    CutRow {
        mask: 3,
        hours: 3,
        unserved: 12,
    },
];

#[test]
fn a_result_counts_what_its_hours_left(rt: HostRuntime) -> Result<(), Fail> {
    let mut result = result_of(&rt, rt.alloc(), &three_days())?;
    assert_eq!(rt; result.hours(), 6);
    assert_eq!(rt; result.days(), 3);
    assert_eq!(rt; result.events(), 4);
    assert_eq!(rt; result.unserved(), 22);
    assert_eq!(rt; result.zone(0), 14);
    assert_eq!(rt; result.zone(1), 8);
    assert_eq!(rt; result.cuts(), ROWS.as_slice());
    result.clear();
    assert_eq!(rt; result.hours(), 0);
    assert_eq!(rt; result.unserved(), 0);
    assert!(rt; result.cuts().is_empty());
    Ok(())
}

// Sum, and sum of squares, of each part and of both zones.
fn sums_of(totals: &Totals) -> [(u128, u128); 6]
    requires { length totals.now.zones ≡ 2 }
{
    let of = |sums: Sums| (sums.total, sums.squares);
    [
        of(totals.part(Part::Hours)),
        of(totals.part(Part::Days)),
        of(totals.part(Part::Events)),
        of(totals.part(Part::Unserved)),
        of(totals.zone(0)),
        of(totals.zone(1)),
    ]
}

// Three days, an hour that is served, and two hours in which the second zone lacks 10 MW.
fn are_totals_of_three(rt: &impl Abort, totals: &Totals)
    requires { length totals.now.zones ≡ 2 }
{
    assert_eq!(rt; totals.samples(), 3);
    let expected = [(8, 40), (4, 10), (5, 17), (42, 884), (14, 196), (28, 464)];
    assert_eq!(rt; sums_of(totals), expected);
    let rows = totals.cuts();
    assert_eq!(rt; rows.len(), 3);
    assert_eq!(rt; rows[0], ROWS[0]);
    let second = CutRow {
        mask: 2,
        hours: 3,
        unserved: 25,
    };
    assert_eq!(rt; rows[1], second);
    assert_eq!(rt; rows[2], ROWS[2]);
}

#[test]
fn totals_are_sums_however_the_samples_are_split(rt: HostRuntime) -> Result<(), Fail> {
    let short = result_of(&rt, rt.alloc(), &three_days())?;
    let served = result_of(&rt, rt.alloc(), &[(0, 0, 0)])?;
    let once = result_of(&rt, rt.alloc(), &[(0, 10, 2), (0, 10, 2)])?;
    let mut first = Totals::new(rt.alloc(), 2)?;
    first.add(&short)?;
    first.add(&served)?;
    let mut more = Totals::new(rt.alloc(), 2)?;
    more.add(&once)?;
    let copy = first.copy(rt.alloc())?;
    first.merge(&more)?;
    more.merge(&copy)?;
    is_shared(&first);
    are_totals_of_three(&rt, &first);
    are_totals_of_three(&rt, &more);
    assert_eq!(rt; copy.samples(), 2);
    assert_eq!(rt; copy.part(Part::Unserved).total, 22);
    Ok(())
}

#[test]
fn means_and_errors_are_rounded_down(rt: HostRuntime) {
    // Samples, sum, sum of squares, mean and error in thousandths. The last row is that of
    // 1,756,800,000 and 1,756,799,999, whose squares a 64-bit float can't tell apart.
    for (samples, total, squares, mean_of, error_of) in [
        (1, 7, 49, 7_000, None),
        (2, 3, 5, 1_500, Some(500)),
        (3, 1, 1, 333, Some(333)),
        (
            2,
            3_513_599_999,
            6_172_692_476_486_400_001,
            1_756_799_999_500,
            Some(500),
        ),
    ] {
        let sums = Sums { total, squares };
        assert!(rt; samples > 0 && samples <= 1_000_000);
        assert!(rt; total <= u128::from(samples) * 1_756_800_000);
        assert!(rt; squares <= u128::from(samples) * 3_086_346_240_000_000_000);
        assert!(rt; total * total <= u128::from(samples) * squares);
        assert_eq!(rt;
            mean(sums, samples),
            mean_of,
            "mean of {total} over {samples}"
        );
        assert_eq!(rt;
            error(sums, samples),
            error_of,
            "error of {total} over {samples}"
        );
    }
}

#[test]
fn samples_are_enough_where_their_error_is_within_the_precision(rt: HostRuntime) {
    // Samples, sum, sum of squares, precision. The last rows are those of a million samples, of which half
    // leave nothing unserved and half all that they can: the products pass 128 bits.
    for (samples, total, squares, precision, expected) in [
        (1, 1_440, 2_073_600, None, true),
        (1, 1_440, 2_073_600, Some(10), false),
        (2, 2_880, 4_147_200, Some(10), true),
        (2, 0, 0, Some(1), true),
        (2, 3, 5, Some(333), false),
        (2, 3, 5, Some(334), true),
        (
            1_000_000,
            878_400_000_000_000,
            1_543_173_120_000_000_000_000_000,
            Some(1),
            false,
        ),
        (
            1_000_000,
            878_400_000_000_000,
            1_543_173_120_000_000_000_000_000,
            Some(2),
            true,
        ),
        (
            1_000_000,
            878_400_000_000_000,
            1_543_173_120_000_000_000_000_000,
            Some(1_000),
            true,
        ),
    ] {
        let sums = Sums { total, squares };
        assert!(rt; samples > 0 && samples <= 1_000_000);
        assert!(rt; total <= u128::from(samples) * 1_756_800_000);
        assert!(rt; squares <= u128::from(samples) * 3_086_346_240_000_000_000);
        assert!(rt; total * total <= u128::from(samples) * squares);
        if let Some(precision) = precision {
            assert!(rt; precision >= 1 && precision <= 1_000);
        }
        assert_eq!(rt;
            enough(sums, samples, precision),
            expected,
            "sum {total} over {samples}"
        );
    }
}
