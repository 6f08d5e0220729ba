use NumberFault::{Empty, NotANumber, NotWhole, TooLarge};
use decimal_text::*;
use ra_base::Text;
use std::test::Fail;

#[derive(Drop)]
struct Case {
    field: &'static [u8],
    whole: Result<u64, NumberFault>,
    billionths: Result<u64, NumberFault>,
}

fn answers(
    field: &'static [u8],
    whole: Result<u64, NumberFault>,
    billionths: Result<u64, NumberFault>,
) -> Case {
    Case {
        field,
        whole,
        billionths,
    }
}

// A field that is no numeral has one fault for both readers.
fn fault(field: &'static [u8], fault: NumberFault) -> Case {
    answers(field, Err(fault), Err(fault))
}

#[test]
fn numerals(rt: HostRuntime) {
    let cases = [
        answers(b"155", Ok(155), Ok(155_000_000_000)),
        answers(b"155.0", Ok(155), Ok(155_000_000_000)),
        answers(b"155.5", Err(NotWhole { at: 4 }), Ok(155_500_000_000)),
        answers(b"1.55e2", Ok(155), Ok(155_000_000_000)),
        answers(b".5", Err(NotWhole { at: 1 }), Ok(500_000_000)),
        answers(b"0.0000000019", Err(NotWhole { at: 10 }), Ok(1)),
        answers(b"1e18", Ok(1_000_000_000_000_000_000), Err(TooLarge)),
        answers(b"1000000000000000001", Err(TooLarge), Err(TooLarge)),
        answers(b"1e9", Ok(1_000_000_000), Ok(1_000_000_000_000_000_000)),
        answers(
            b"0.0004761904761904762",
            Err(NotWhole { at: 5 }),
            Ok(476_190),
        ),
        answers(b"1e-04", Err(NotWhole { at: 0 }), Ok(100_000)),
        answers(b"1200e-2", Ok(12), Ok(12_000_000_000)),
        answers(b"12.03E+1", Err(NotWhole { at: 4 }), Ok(120_300_000_000)),
        answers(b"7.", Ok(7), Ok(7_000_000_000)),
        answers(b"0e99999999999999999999999999999999999999", Ok(0), Ok(0)),
        answers(
            b"1e99999999999999999999999999999999999999",
            Err(TooLarge),
            Err(TooLarge),
        ),
        answers(
            b"1e-9999999999999999999999999999999999999",
            Err(NotWhole { at: 0 }),
            Ok(0),
        ),
        fault(b"00000000000000000000000000000000000000001", TooLarge),
        fault(b"", Empty),
        fault(b"1e", NotANumber { at: 2 }),
        fault(b"-1", NotANumber { at: 0 }),
        fault(b"12x", NotANumber { at: 2 }),
        fault(b".", NotANumber { at: 1 }),
        fault(b".e1", NotANumber { at: 1 }),
        fault(b"1.2.3", NotANumber { at: 3 }),
        fault(b"1e+", NotANumber { at: 3 }),
        fault(b"1e5-", NotANumber { at: 3 }),
    ];
    for case in &cases {
        assert_eq!(rt; read_whole(case.field), case.whole);
        assert_eq!(rt; read_billionths(case.field), case.billionths);
    }
}

#[test]
fn texts(rt: HostRuntime) -> Result<(), Fail> {
    let mut out = Text::new(rt.alloc());
    put_whole(&mut out, 0)?;
    put_whole(
        &mut out,
        340_282_366_920_938_463_463_374_607_431_768_211_455,
    )?;
    put_fixed(&mut out, 476_190, 9)?;
    put_fixed(&mut out, 1234, 3)?;
    put_fixed(&mut out, 5, 1)?;
    put_fixed(&mut out, 1_000_000_000_000, 12)?;
    let wanted = b"03402823669209384634633746074317682114550.0004761901.2340.51.000000000000";
    assert_eq!(rt; out.bytes(), wanted.as_slice());
    Ok(())
}
