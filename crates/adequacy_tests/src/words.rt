use crate::answers::words_of;
use adequacy::{
    Command, ConsoleTerms, CreditTerms, Line, Request, StudyTerms, TraceTerms, WordsError,
    put_word_fault, read_words,
};
use analytic_index::NewUnit;
use capacity_credit::{Kind, Measure};
use ra_base::Text;
use std::alloc::Global;
use std::test::Fail;
use system_model::Rates;

// A study by the options' defaults.
const STUDY: StudyTerms = StudyTerms {
    samples: 2,
    seed: 1,
    workers: 1,
    block: 100,
    most: 2,
    precision: None,
};

// Words, and the place and the request of their line.
const LINES: [(&str, &str, Request); 13] = [
    ("check F", "F", Request::Check),
    ("-- table -", "-", Request::Table),
    ("index -- F", "F", Request::Index),
    ("study F --samples 2", "F", Request::Study(STUDY)),
    ("--samples=2e0 study F", "F", Request::Study(STUDY)),
    (
        "study F --samples 1000000",
        "F",
        Request::Study(StudyTerms {
            samples: 1_000_000,
            most: 1_000_000,
            ..STUDY
        }),
    ),
    (
        "study F --precision 1000 --most 1000000 --block 10000 --workers 64 --seed 1e18 --samples 1",
        "F",
        Request::Study(StudyTerms {
            samples: 1,
            seed: 1_000_000_000_000_000_000,
            workers: 64,
            block: 10_000,
            most: 1_000_000,
            precision: Some(1_000),
        }),
    ),
    (
        "study F --samples 2 --seed 0 --workers 1 --block 1 --most 2 --precision 1",
        "F",
        Request::Study(StudyTerms {
            seed: 0,
            block: 1,
            precision: Some(1),
            ..STUDY
        }),
    ),
    (
        "trial 7 --samples 200 --block 7 --workers 4",
        "7",
        Request::Trial {
            number: 7,
            terms: StudyTerms {
                samples: 200,
                workers: 4,
                block: 7,
                most: 200,
                ..STUDY
            },
        },
    ),
    (
        "console F --samples 5 --block 2",
        "F",
        Request::Console(ConsoleTerms {
            samples: 5,
            seed: 1,
            workers: 1,
            block: 2,
        }),
    ),
    (
        "trace F --sample 999999 --seed 2",
        "F",
        Request::Trace(TraceTerms {
            sample: 999_999,
            seed: 2,
            recorder: None,
        }),
    ),
    (
        "trace F --sample 0 --result storage",
        "F",
        Request::Trace(TraceTerms {
            sample: 0,
            seed: 1,
            recorder: Some(3),
        }),
    ),
    (
        "credit F --kind efc --measure eue --capacity 50 --failure 0.25 --repair 0.75 --up-to 100",
        "F",
        Request::Credit(CreditTerms {
            kind: Kind::Efc,
            measure: Measure::Eue,
            unit: NewUnit {
                capacity: 50,
                rates: Rates {
                    f: 250_000_000,
                    r: 750_000_000,
                },
            },
            most: 100,
        }),
    ),
];

// Words that spell no line, and the line of their fault.
const FAULTS: [(&str, &str); 34] = [
    ("study", "words: usage\n"),
    ("study F G --samples 2", "words: usage\n"),
    ("study F --samples 2 --samples 2", "words: usage\n"),
    ("study F --samples", "words: usage\n"),
    ("study F --sampl 2", "words: usage\n"),
    ("study F --samples -3", "words: usage\n"),
    ("study F --help", "words: usage\n"),
    ("--version", "words: usage\n"),
    ("study F -- --samples 2", "words: usage\n"),
    ("help F", "words: no such command\n"),
    ("- F", "words: no such command\n"),
    ("trial x", "words: bad number\n"),
    ("check F --up-to x", "words: --up-to is not for check\n"),
    ("table F --seed 1", "words: --seed is not for table\n"),
    ("index F --seed 1", "words: --seed is not for index\n"),
    ("credit F --seed 1", "words: --seed is not for credit\n"),
    ("trace F --samples 2", "words: --samples is not for trace\n"),
    (
        "study F --samples 2 --sample 0",
        "words: --sample is not for study\n",
    ),
    (
        "trial 7 --samples 2 --result cut",
        "words: --result is not for trial\n",
    ),
    (
        "console F --samples 2 --most 3",
        "words: --most is not for console\n",
    ),
    ("study F --seed x", "words: --samples is missing\n"),
    ("trace F", "words: --sample is missing\n"),
    ("credit F", "words: --kind is missing\n"),
    ("credit F --kind efc", "words: --measure is missing\n"),
    ("study F --samples=-3", "words: --samples is bad\n"),
    ("study F --samples 1000001", "words: --samples is bad\n"),
    (
        "study F --samples 2 --workers 65",
        "words: --workers is bad\n",
    ),
    ("study F --samples 2 --block 0", "words: --block is bad\n"),
    (
        "study F --samples 2 --precision 1001",
        "words: --precision is bad\n",
    ),
    (
        "trace F --sample 0 --result all",
        "words: --result is bad\n",
    ),
    ("credit F --kind EFC", "words: --kind is bad\n"),
    (
        "credit F --kind efc --measure lole --capacity 1 --failure 0 --repair 0",
        "words: --repair is bad\n",
    ),
    (
        "credit F --kind elcc --measure lole --capacity 200001",
        "words: --capacity is bad\n",
    ),
    (
        "study F --samples 5 --most 4",
        "words: --most is below --samples\n",
    ),
];

fn line_of(alloc: Global, text: &str) -> Result<Result<Line, WordsError>, Fail> {
    Ok(read_words(alloc, &words_of(alloc, text)?))
}

#[test]
fn lines(rt: HostRuntime) -> Result<(), Fail> {
    for (words, place, request) in LINES {
        let line = line_of(rt.alloc(), words)?.ok().ok_or("no line")?;
        assert_eq!(rt; line.place.text(), place, "{words}");
        assert_eq!(rt; line.request(), request, "{words}");
        let waits = matches!(
            line.command,
            Command::Study | Command::Trial | Command::Console
        );
        assert_eq!(rt; line.waits(), waits, "{words}");
    }
    Ok(())
}

#[test]
fn faults(rt: HostRuntime) -> Result<(), Fail> {
    for (words, text) in FAULTS {
        let Err(WordsError::Words(fault)) = line_of(rt.alloc(), words)? else {
            return Err(Fail::from("a line, or no memory"));
        };
        let mut out = Text::new(rt.alloc());
        put_word_fault(&mut out, fault)?;
        assert_eq!(rt; out.bytes(), text.as_bytes(), "{words}");
    }
    Ok(())
}
