// What short, long and damaged schedules are answered.
use basis::answer::Answer;
use basis::kind::Kind;
use basis::refusal::Refusal;
use records::record::{Record, SchemeName};
use replay::opening::answer_opening;
use replay::replay;
use schedule::contents::read_whole;
use schedule::input::read_schedule;
use schedule::lines::{line, push_lines, text_of_line};
use schedule::reader::Reader;
use std::alloc::Global;
use std::process::Abort;
use std::test::Fail;

// A setup (full, 3 cells, window 2), join 0, begin insert 10 by seat 0, and steps by seats 0, 0 and 16.
const WORKED: [u8; 32] = [
    1, 0, 5, 0, 1, 0, 3, 2, 0, 2, 1, 0, 0, 6, 4, 0, 0, 0, 0, 10, 0, 2, 6, 0, 0, 2, 6, 0, 0, 2, 6,
    16,
];

// How many records are handed out of these bytes, and the refusal that ends them.
fn check_contents(
    rt: &impl Abort,
    heap: Global,
    bytes: &[u8],
    records: usize,
    refusal: Option<Refusal>,
) -> Result<(), Fail> {
    let contents = read_whole(heap, bytes)?;
    assert_eq!(rt; contents.parts.len(), records);
    assert_eq!(rt; contents.refusal, refusal);
    Ok(())
}

// A schedule of one record at most, whose replay is answered as its opening is.
fn check_text(rt: &impl Abort, heap: Global, bytes: &[u8], text: &str) -> Result<(), Fail> {
    assert_eq!(rt; replay(heap, bytes)?.as_str(), text);
    assert_eq!(rt; answer_opening(heap, bytes)?.as_str(), text);
    Ok(())
}

#[test]
fn one_byte_too_many_at_most_is_read_of_an_input(rt: HostRuntime) -> Result<(), Fail> {
    let heap = rt.alloc();
    let worked = read_schedule(heap, WORKED.as_slice())?;
    assert_eq!(rt; worked.as_slice(), WORKED.as_slice());
    let long = vec![in heap; 1u8; 70000]?;
    let read = read_schedule(heap, long.as_slice())?;
    assert_eq!(rt; read.len(), 60001);
    check_text(&rt, heap, read.as_slice(), "0 refused 9\n")
}

#[test]
fn the_worked_schedule_is_read(rt: HostRuntime) -> Result<(), Fail> {
    let heap = rt.alloc();
    let contents = read_whole(heap, &WORKED)?;
    let offsets = [3, 10, 14, 22, 26, 30];
    assert_eq!(rt; contents.parts.len(), 6);
    for (part, offset) in contents.parts.iter().zip(offsets.iter()) {
        assert_eq!(rt; part.offset, *offset);
    }
    assert_eq!(rt; contents.refusal, None);
    assert_eq!(rt; contents.stop, 32);
    Ok(())
}

// Each front of the worked schedule: whole records, and then the end or a record that is cut short.
#[test]
fn a_record_is_cut_short_at_each_byte(rt: HostRuntime) -> Result<(), Fail> {
    let heap = rt.alloc();
    let ends = [1, 8, 12, 20, 24, 28, 32];
    let mut whole = 0usize;
    // a front has a length, and no element that a `for` over bytes would give
    for n in 1..=32usize {
        let contents = read_whole(heap, &WORKED[..n])?;
        whole = ends
            .iter()
            .filter(|end| **end <= n)
            .count()
            .saturating_sub(1);
        assert_eq!(rt; contents.parts.len(), whole);
        assert_eq!(rt; contents.refusal.is_none(), ends.contains(&n));
    }
    assert_eq!(rt; whole, 6);
    Ok(())
}

// The length that a record of this call byte has where it is not the first; 0 where no such record is known.
fn later_length(call: u8) -> u8 {
    match call {
        1 | 2 | 6 | 7 => 2,
        3 | 4 | 5 => 6,
        _ => 0,
    }
}

// One record more after a setup: a call byte and as many bytes of zeros as the length has room for.
fn check_later(rt: &impl Abort, heap: Global, call: u8, len: u8) -> Result<(), Fail> {
    let bytes = [
        1, 0, 5, 0, 2, 0, 0, 0, 0, len, call, 0, 0, 0, 0, 0, 0, 0, 0, 0,
    ];
    let end = 10 + usize::from(len);
    if end > 20 {
        return Err(Fail::new("too long a record"));
    }
    if len > 0 && later_length(call) == len {
        check_contents(rt, heap, &bytes[0..end], 2, None)
    } else {
        check_contents(rt, heap, &bytes[0..end], 1, Some(Refusal::BadRecord))
    }
}

// Every call byte with every short length, after a setup.
#[test]
fn call_and_length_fit_together(rt: HostRuntime) -> Result<(), Fail> {
    let heap = rt.alloc();
    for call in 0..=255u8 {
        for len in 0..9u8 {
            check_later(&rt, heap, call, len)?;
        }
    }
    Ok(())
}

fn check_first(rt: &impl Abort, heap: Global, call: u8, len: u8, scheme: u8) -> Result<(), Fail> {
    let bytes = [1, 0, len, call, scheme, 0, 0, 0, 0, 0, 0, 0];
    let end = 3 + usize::from(len);
    if end > 12 {
        return Err(Fail::new("too long a record"));
    }
    if call == 0 && len == 5 && scheme >= 1 && scheme <= 3 {
        check_contents(rt, heap, &bytes[0..end], 1, None)
    } else {
        check_contents(rt, heap, &bytes[0..end], 0, Some(Refusal::BadRecord))
    }
}

// Every first record of every short length: only a setup of length 5 that names one of the three schemes is taken.
#[test]
fn a_setup_comes_first(rt: HostRuntime) -> Result<(), Fail> {
    let heap = rt.alloc();
    for call in 0..9u8 {
        for len in 0..9u8 {
            for scheme in 0..5u8 {
                check_first(&rt, heap, call, len, scheme)?;
            }
        }
    }
    Ok(())
}

// Both bytes of the length count: 256 and 261 are not 0 and 5.
#[test]
fn the_high_byte_of_a_length_counts(rt: HostRuntime) -> Result<(), Fail> {
    let heap = rt.alloc();
    let mut bytes = [0u8; 270];
    bytes[0] = 1;
    bytes[1] = 1;
    bytes[2] = 5;
    bytes[4] = 1;
    check_contents(&rt, heap, &bytes, 0, Some(Refusal::BadRecord))?;
    bytes[1] = 0;
    check_contents(&rt, heap, &bytes[0..8], 1, None)
}

#[test]
fn a_refusal_is_given_again(rt: HostRuntime) -> Result<(), Fail> {
    let bytes = [1u8, 0, 2, 1, 0];
    let mut reader = Reader::open(&bytes)?;
    for _ in 0..3 {
        assert_eq!(rt; reader.next(), Err(Refusal::BadRecord));
        assert_eq!(rt; reader.offset(), 1);
    }
    Ok(())
}

#[test]
fn short_schedules_are_answered(rt: HostRuntime) -> Result<(), Fail> {
    let heap = rt.alloc();
    check_text(&rt, heap, &[], "0 refused 10\n")?;
    check_text(&rt, heap, &[1], "")?;
    check_text(&rt, heap, &[2], "0 refused 10\n")?;
    check_text(&rt, heap, &[0, 0], "0 refused 10\n")?;
    check_text(&rt, heap, &[1, 0], "1 refused 11\n")?;
    check_text(&rt, heap, &WORKED[0..7], "1 refused 11\n")?;
    check_text(&rt, heap, &WORKED[0..8], "1 ok\n")?;
    check_text(&rt, heap, &[1, 0, 5, 0, 4, 0, 3, 2], "1 refused 11\n")?;
    check_text(&rt, heap, &[1, 0, 2, 1, 0], "1 refused 11\n")
}

#[test]
fn the_sizes_of_a_setup_are_tested(rt: HostRuntime) -> Result<(), Fail> {
    let heap = rt.alloc();
    check_text(&rt, heap, &[1, 0, 5, 0, 1, 0, 0, 2], "1 refused 2\n")?;
    check_text(&rt, heap, &[1, 0, 5, 0, 1, 0, 1, 1], "1 ok\n")?;
    check_text(&rt, heap, &[1, 0, 5, 0, 2, 3, 240, 64], "1 ok\n")?;
    check_text(&rt, heap, &[1, 0, 5, 0, 2, 3, 241, 64], "1 refused 2\n")?;
    check_text(&rt, heap, &[1, 0, 5, 0, 3, 3, 240, 65], "1 refused 2\n")?;
    check_text(&rt, heap, &[1, 0, 5, 0, 3, 0, 1, 0], "1 refused 2\n")
}

#[test]
fn the_opening_of_the_worked_schedule_is_answered(rt: HostRuntime) -> Result<(), Fail> {
    let heap = rt.alloc();
    assert_eq!(rt; answer_opening(heap, &WORKED)?.as_str(), "1 ok\n");
    Ok(())
}

// The longest schedule: a setup and 14,998 joins are 60,000 bytes.
#[test]
fn as_many_records_as_fit(rt: HostRuntime) -> Result<(), Fail> {
    let heap = rt.alloc();
    let mut bytes = Vec::new(heap);
    bytes.extend_from_slice(&WORKED[0..8])?;
    for _ in 0..14998 {
        bytes.extend_from_slice(&WORKED[8..12])?;
    }
    assert_eq!(rt; bytes.len(), 60000);
    check_contents(&rt, heap, bytes.as_slice(), 14999, None)?;
    bytes.push(0)?;
    check_contents(
        &rt,
        heap,
        bytes.as_slice(),
        0,
        Some(Refusal::ScheduleTooLong),
    )?;
    check_text(&rt, heap, bytes.as_slice(), "0 refused 9\n")
}

// The text that a line shows, and the text of that line alone.
fn check_line(
    rt: &impl Abort,
    heap: Global,
    number: u16,
    answer: Answer,
    text: &str,
) -> Result<(), Fail> {
    let shown = line(number, answer);
    assert_eq!(rt; format!(in heap; "{shown}")?.as_str(), text);
    assert_eq!(rt; text_of_line(heap, shown)?.as_str(), text);
    Ok(())
}

// Where the number of digits changes, and every answer.
#[test]
fn lines_have_their_number_and_answer(rt: HostRuntime) -> Result<(), Fail> {
    let heap = rt.alloc();
    let cases = [
        (
            0,
            Answer::Refused(Refusal::ScheduleTooLong),
            "0 refused 9\n",
        ),
        (1, Answer::Refused(Refusal::OutOfRange), "1 refused 1\n"),
        (9, Answer::Ok, "9 ok\n"),
        (10, Answer::Wait, "10 wait\n"),
        (99, Answer::Yes, "99 yes\n"),
        (100, Answer::No, "100 no\n"),
        (999, Answer::Full, "999 full\n"),
        (
            1000,
            Answer::Refused(Refusal::BadRecord),
            "1000 refused 11\n",
        ),
        (9999, Answer::Wait, "9999 wait\n"),
        (10000, Answer::Yes, "10000 yes\n"),
        (14999, Answer::Full, "14999 full\n"),
        (65535, Answer::No, "65535 no\n"),
    ];
    for (number, answer, text) in cases {
        check_line(&rt, heap, number, answer, text)?;
    }
    Ok(())
}

// No schedule has so many records, and a list of answers may.
#[test]
fn lines_go_on_past_16_bits(rt: HostRuntime) -> Result<(), Fail> {
    let mut text = String::from_str(rt.alloc(), "before ")?;
    let answers = [
        Answer::Yes,
        Answer::No,
        Answer::Wait,
        Answer::Refused(Refusal::BadLink),
    ];
    push_lines(&mut text, 65534, &answers)?;
    assert_eq!(rt;
        text.as_str(),
        "before 65534 yes\n65535 no\n65536 wait\n65537 refused 8\n"
    );
    Ok(())
}

// Every record and its number, the largest values among them, as it is shown to a person.
#[test]
fn records_are_shown(rt: HostRuntime) -> Result<(), Fail> {
    let heap = rt.alloc();
    let cases = [
        (
            Record::Setup {
                scheme: SchemeName::Full,
                cells: 65535,
                window: 255,
            },
            0,
            "setup full, cells 65535, window 255",
        ),
        (Record::Join { seat: 0 }, 1, "join, seat 0"),
        (Record::Leave { seat: 9 }, 2, "leave, seat 9"),
        (
            Record::Begin {
                kind: Kind::Lookup,
                seat: 10,
                sector: 0,
            },
            3,
            "begin lookup, seat 10, sector 0",
        ),
        (
            Record::Begin {
                kind: Kind::Insert,
                seat: 15,
                sector: 4294967295,
            },
            4,
            "begin insert, seat 15, sector 4294967295",
        ),
        (
            Record::Begin {
                kind: Kind::Remove,
                seat: 99,
                sector: 1000000000,
            },
            5,
            "begin remove, seat 99, sector 1000000000",
        ),
        (Record::Step { seat: 100 }, 6, "step, seat 100"),
        (Record::Abandon { seat: 255 }, 7, "abandon, seat 255"),
    ];
    for (record, number, text) in cases {
        assert_eq!(rt; record.number(), number);
        assert_eq!(rt; format!(in heap; "{record}")?.as_str(), text);
    }
    Ok(())
}

// Every scheme's name and its number.
#[test]
fn schemes_are_shown(rt: HostRuntime) -> Result<(), Fail> {
    let heap = rt.alloc();
    let cases = [
        (SchemeName::Full, 1, "full"),
        (SchemeName::Owner, 2, "owner"),
        (SchemeName::Version, 3, "version"),
    ];
    for (name, number, text) in cases {
        assert_eq!(rt; name.number(), number);
        assert_eq!(rt; SchemeName::try_from(number), Ok(name));
        assert_eq!(rt; format!(in heap; "{name}")?.as_str(), text);
    }
    assert_eq!(rt; SchemeName::try_from(0), Err(Refusal::BadRecord));
    assert_eq!(rt; SchemeName::try_from(4), Err(Refusal::BadRecord));
    Ok(())
}
