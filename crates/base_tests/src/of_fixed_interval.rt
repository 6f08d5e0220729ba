use fixed_interval::*;
use ra_base::{OutOfMemory, Text};
use std::alloc::Global;

const ONE: u128 = 1 << 60;

fn low_and_high(alloc: Global, a: Enclosure) -> Result<(Text, Text), OutOfMemory> {
    let mut low = Text::new(alloc);
    let mut high = Text::new(alloc);
    put_low(&mut low, a)?;
    put_high(&mut high, a)?;
    Ok((low, high))
}

// One in the last place is 2^60 / 10^12 = 1,152,921.5 units. An end that is 1,152,921 units below 2 lacks
// less than that, so rounding it up carries into the whole part. One more unit below, and it lacks more.
#[test]
fn ends_have_twelve_places_rounded_outward(rt: HostRuntime) {
    let cases: [(u128, u128, &str, &str); 10] = [
        (0, 0, "0.000000000000", "0.000000000000"),
        (ONE, ONE, "1.000000000000", "1.000000000000"),
        (ONE / 2, ONE / 2, "0.500000000000", "0.500000000000"),
        (ONE / 3, ONE / 3 + 1, "0.333333333333", "0.333333333334"),
        (1, 1, "0.000000000000", "0.000000000001"),
        (ONE - 1, ONE - 1, "0.999999999999", "1.000000000000"),
        (
            10 * ONE - 1,
            10 * ONE - 1,
            "9.999999999999",
            "10.000000000000",
        ),
        (
            2 * ONE - 1_152_921,
            2 * ONE - 1_152_921,
            "1.999999999999",
            "2.000000000000",
        ),
        (
            2 * ONE - 1_152_922,
            2 * ONE - 1_152_922,
            "1.999999999998",
            "1.999999999999",
        ),
        (
            1 << 100,
            1 << 100,
            "1099511627776.000000000000",
            "1099511627776.000000000000",
        ),
    ];
    for (low, high, want_low, want_high) in cases {
        assert!(rt; low <= high && high <= 1 << 100);
        match low_and_high(rt.alloc(), Enclosure { low, high }) {
            Ok((got_low, got_high)) => {
                assert!(rt; got_low.bytes() == want_low.as_bytes(), "low end {low}");
                assert!(rt; got_high.bytes() == want_high.as_bytes(), "high end {high}");
            }
            Err(OutOfMemory) => panic!(rt; "out of memory at {low}"),
        }
    }
}

// A fiftieth of 2^60 is 23058430092136939.52.
#[test]
fn a_mean_is_rounded_outward(rt: HostRuntime) {
    let none = Enclosure { low: 0, high: 0 };
    let whole = Enclosure {
        low: ONE,
        high: ONE,
    };
    let fiftieth = mix(none, whole, 20_000_000, 980_000_000);
    assert_eq!(rt; fiftieth.low, 23_058_430_092_136_939);
    assert_eq!(rt; fiftieth.high, 23_058_430_092_136_940);
    let sum = add(fiftieth, whole);
    assert_eq!(rt; sum.low, ONE + 23_058_430_092_136_939);
    assert_eq!(rt; sum.high, ONE + 23_058_430_092_136_940);
    let thrice = scale(fiftieth, 3);
    assert_eq!(rt; thrice.low, 69_175_290_276_410_817);
    assert_eq!(rt; thrice.high, 69_175_290_276_410_820);
}
