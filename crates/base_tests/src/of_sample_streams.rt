use sample_streams::{HourDraws, SampleStream};
use std::test::Fail;

// A value that may move between threads, and that they may share.
fn is_shared<T: Send + Sync>(_value: &T) {}

#[test]
fn draws_are_the_words_of_an_independent_chacha(rt: HostRuntime) {
    // Seed, components, sample, draws before, the word.
    for (seed, components, sample, before, word) in [
        (1, 1, 0, 0, 2_699_648_719),
        (1, 1, 0, 1, 1_638_484_553),
        (258, 3, 0, 0, 231_641_764),
        (258, 3, 0, 2, 1_326_378_658),
        (258, 3, 7, 0, 1_337_923_582),
        (258, 3, 7, 16, 1_252_293_431),
        (u64::MAX, 96, 999_999, 0, 19_655_956),
        (u64::MAX, 96, 999_999, 95, 2_856_790_598),
        (u64::MAX, 96, 999_999, 99, 1_217_679_161),
    ] {
        assert!(rt; components > 0);
        let mut draws = SampleStream::new(seed, components);
        is_shared(&draws);
        let first = draws.next_draw();
        draws.start(sample);
        let mut drawn = draws.next_draw();
        if sample == 0 {
            assert_eq!(rt; first, drawn);
        }
        'skipped: for _ in 0..before {
            drawn = draws.next_draw();
        }
        assert_eq!(rt; drawn, word, "seed {seed} sample {sample} after {before}");
    }
}

#[test]
fn draws_at_once_are_those_one_by_one(rt: HostRuntime) {
    // 3 components. 200 draws from the start of a block on, and 200 from within one.
    let mut words = [0; 200];
    let mut draws = SampleStream::new(258, 3);
    draws.next_draws(&mut words);
    assert_eq!(rt; words[0], 231_641_764);
    assert_eq!(rt; words[2], 1_326_378_658);
    assert_eq!(rt; words[63], 898_186_322);
    assert_eq!(rt; words[64], 3_177_931_237);
    assert_eq!(rt; words[127], 2_087_655_054);
    assert_eq!(rt; words[128], 1_900_728_746);
    assert_eq!(rt; words[199], 2_030_114_579);
    draws.start(0);
    let first = draws.next_draw();
    assert_eq!(rt; first, 231_641_764);
    draws.next_draws(&mut words);
    assert_eq!(rt; words[1], 1_326_378_658);
    assert_eq!(rt; words[62], 898_186_322);
    assert_eq!(rt; words[198], 2_030_114_579);
    draws.start(7);
    draws.next_draws(&mut words);
    assert_eq!(rt; words[0], 1_337_923_582);
    assert_eq!(rt; words[100], 713_614_172);
}

#[test]
fn hours_have_the_words_of_an_independent_chacha(rt: HostRuntime) -> Result<(), Fail> {
    // Seed, components, sample, hour, component, the word. 16 hours are drawn at once.
    for (seed, components, sample, hour, component, word) in [
        (258, 3, 0, 0u16, 0, 231_641_764),
        (258, 3, 0, 0, 2, 1_326_378_658),
        (258, 3, 7, 5, 1, 1_252_293_431),
        (258, 3, 7, 7, 2, 1_898_295_353),
        (258, 3, 7, 8, 0, 1_928_838_787),
        (258, 3, 7, 9, 2, 1_283_560_691),
        (258, 3, 7, 15, 2, 3_764_234_864),
        (258, 3, 7, 16, 0, 3_007_495_943),
        (258, 103, 7, 0, 64, 1_420_578_901),
        (258, 103, 7, 15, 102, 1_406_944_700),
        (258, 103, 7, 16, 0, 1_918_252_255),
        (258, 103, 7, 31, 102, 3_470_073_280),
        (1, 2_000, 0, 1, 0, 2_934_474_361),
        (1, 2_000, 0, 2, 1_999, 1_850_980_047),
        (u64::MAX, 96, 999_999, 1, 3, 1_217_679_161),
    ] {
        let mut draws = HourDraws::new(rt.alloc(), seed, components)?;
        is_shared(&draws);
        draws.step();
        draws.start(sample);
        'passed: for _ in 0..u32::from(hour) {
            draws.step();
        }
        let words = draws.words();
        assert!(rt; component < words.len());
        assert_eq!(rt;
            words[component],
            word,
            "seed {seed} sample {sample} hour {hour}"
        );
    }
    Ok(())
}
