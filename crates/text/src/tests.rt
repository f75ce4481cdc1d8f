// Small texts, each with the answer that was worked out by hand.
use crate::*;
use calendar::Convention;
use days::Refusal;
use std::process::Abort;
use std::test::Fail;

fn answer(text: &[u8]) -> Result<usize, Unread> {
    let mut lines = [Line::Posting; 32];
    read(text, &mut lines)
}

fn faulty(refusal: Refusal, line: u32, column: u32) -> Result<usize, Unread> {
    Err(Unread::Faulty(Fault {
        refusal,
        line,
        column,
    }))
}

fn day_at(value: u32, line: u32, column: u32) -> Option<At<u32>> {
    Some(At {
        value,
        line,
        column,
    })
}

fn number_at(value: u64, line: u32, column: u32) -> At<u64> {
    At {
        value,
        line,
        column,
    }
}

fn closed_day(line: Line) -> Option<At<u32>> {
    match line {
        Line::ClosedDay(day) => Some(day),
        _ => None,
    }
}

// Each text is answered as it should be.
fn check_all(rt: &impl Abort, texts: &[&[u8]], answers: &[Result<usize, Unread>]) {
    for (text, wanted) in texts.iter().zip(answers.iter()) {
        assert_eq!(rt; answer(text), *wanted);
    }
}

#[test]
fn marks(rt: HostRuntime) {
    let texts: [&[u8]; 6] = [
        b"",
        b"\n",
        b"PO\n",
        b"CDX 2023-01-02\n",
        b"CW 0000011\nCW 0000011\n",
        b"CD 2023-01-02",
    ];
    let answers = [
        Ok(0),
        faulty(Refusal::BadMark, 1, 1),
        faulty(Refusal::BadMark, 1, 1),
        faulty(Refusal::BadMark, 1, 1),
        faulty(Refusal::BadMark, 2, 1),
        faulty(Refusal::LineNotEnded, 1, 1),
    ];
    check_all(&rt, &texts, &answers);
}

#[test]
fn words(rt: HostRuntime) {
    let texts: [&[u8]; 10] = [
        b"CD\n",
        b"CD \n",
        b"CD 2023-01-02 \n",
        b"CD 2023-1-02\n",
        b"CD 2023-02-29\n",
        b"CD 2023-02-29 x\n",
        b"CW 1111111\n",
        b"CE +61\n",
        b"CE -0\n",
        b"CE -60\nCE +0\n",
    ];
    let answers = [
        faulty(Refusal::BadField, 1, 3),
        faulty(Refusal::BadField, 1, 4),
        faulty(Refusal::BadField, 1, 15),
        faulty(Refusal::BadField, 1, 4),
        faulty(Refusal::NoSuchDay, 1, 4),
        faulty(Refusal::BadField, 1, 15),
        faulty(Refusal::ClosesWholeWeek, 1, 4),
        faulty(Refusal::OffsetOutOfRange, 1, 4),
        faulty(Refusal::BadField, 1, 4),
        Ok(2),
    ];
    check_all(&rt, &texts, &answers);
}

#[test]
fn behind_a_deal(rt: HostRuntime) {
    let texts: [&[u8]; 4] = [
        b"DL 2023-01-02 2023-07-02 6 SL U A360 4125\nHO 1\nPO \n",
        b"DL 2023-01-02 2023-07-02 6 SL U A360 4125\nHO 0\nHO 00\n",
        b"DL 2023-01-02 2023-07-02 6 SL U A360 4125\nPO\nHO 1\n",
        b"DL 2023-01-02 2023-07-32 6 SL U A364 4125\n",
    ];
    let answers = [
        faulty(Refusal::BadField, 3, 4),
        faulty(Refusal::BadField, 3, 4),
        faulty(Refusal::BadMark, 3, 1),
        faulty(Refusal::BadField, 1, 33),
    ];
    check_all(&rt, &texts, &answers);
}

#[test]
fn values_in_their_places(rt: HostRuntime) -> Result<(), Fail> {
    let mut lines = [Line::Posting; 4];
    let text = b"DL 2023-01-02 2023-07-02 6 SL U A360 4125\nTR 0 15 3\n";
    assert_eq!(rt; read(text, &mut lines), Ok(2));
    let Line::Deal(terms) = lines[0] else {
        return Err(Fail::new("no deal"));
    };
    assert_eq!(rt; Some(terms.start), day_at(44_926, 1, 4));
    assert_eq!(rt; Some(terms.end), day_at(45_107, 1, 15));
    assert_eq!(rt; terms.months, number_at(6, 1, 26));
    assert_eq!(rt; terms.convention.value, Convention::Unadjusted);
    assert_eq!(rt; terms.basis.value, Basis::Actual360);
    assert_eq!(rt; terms.rate, number_at(4125, 1, 38));
    let Line::Transfer { from, to, amount } = lines[1] else {
        return Err(Fail::new("no transfer"));
    };
    assert_eq!(rt; from, number_at(0, 2, 4));
    assert_eq!(rt; to, number_at(15, 2, 6));
    assert_eq!(rt; amount, number_at(3, 2, 9));
    Ok(())
}

#[test]
fn room(rt: HostRuntime) {
    let mut lines = [Line::Posting; 2];
    let text = b"CD 2023-01-02\nCD 2023-01-03\nCD 2023-01-04\n";
    assert_eq!(rt; count_lines(text), 3);
    assert_eq!(rt; read(text, &mut lines), Err(Unread::NoRoom));
    assert_eq!(rt; closed_day(lines[0]), None);
    assert_eq!(rt;
        read(b"CD 2023-01-02\nXX\n", &mut lines),
        faulty(Refusal::BadMark, 2, 1)
    );
    assert_eq!(rt; closed_day(lines[0]), day_at(44_926, 1, 4));
    assert_eq!(rt; closed_day(lines[1]), None);
}

#[test]
fn lengths(rt: HostRuntime) {
    let mut lines = [Line::Posting; 2];
    assert_eq!(rt;
        read(&[b'x'; 65_537], &mut lines),
        faulty(Refusal::TextTooLong, 0, 0)
    );
    assert_eq!(rt;
        read(&[b'x'; 65_536], &mut lines),
        faulty(Refusal::LineNotEnded, 1, 1)
    );
    assert_eq!(rt; read(&[b'\n'; 65_536], &mut lines), Err(Unread::NoRoom));
}
