// What the calls behind a statement answer and leave in the page, at their edges.
use days::Refusal;
use report::{Ledger, Stopped};
use text::{Fault, Line, Unread};

// Its report has 45 bytes: two dates of 16 and a row of 13.
const BOND: &[u8] = b"DL 2023-01-02 2023-07-02 6 SL U A360 4125\nHO 1\n";

fn stopped_at(refusal: Refusal, line: u32, column: u32, written: usize) -> Stopped {
    Stopped {
        why: Unread::Faulty(Fault {
            refusal,
            line,
            column,
        }),
        written,
    }
}

#[test]
fn no_such_deal(rt: HostRuntime) {
    let mut lines = [Line::Posting; 2];
    let mut deals = [0; 2];
    let ledger = Ledger::read(BOND, &mut lines, &mut deals);
    let mut page = [7u8; 4];
    assert_eq!(rt;
        ledger.report(1, &mut page),
        Err(stopped_at(Refusal::NoSuchDeal, 0, 0, 0))
    );
    assert_eq!(rt; page, [7, 7, 7, 7]);
}

#[test]
fn page_too_small(rt: HostRuntime) {
    let mut lines = [Line::Posting; 2];
    let mut deals = [0; 2];
    let ledger = Ledger::read(BOND, &mut lines, &mut deals);
    let mut page = [7u8; 45];
    assert_eq!(rt; ledger.report(0, &mut page), Ok(45));
    assert_eq!(rt; page[44], b'\n');
    let mut short = [7u8; 44];
    assert_eq!(rt;
        ledger.report(0, &mut short),
        Err(stopped_at(Refusal::BufferFull, 0, 0, 32))
    );
    assert_eq!(rt; short[31], b'\n');
    assert_eq!(rt; short[32], 7);
}

#[test]
fn refused_text(rt: HostRuntime) {
    let mut lines = [Line::Posting; 2];
    let mut deals = [0; 2];
    let ledger = Ledger::read(b"CW 0000011\nCD 2023-02-30\n", &mut lines, &mut deals);
    let mut page = [7u8; 4];
    assert_eq!(rt;
        ledger.report(0, &mut page),
        Err(stopped_at(Refusal::NoSuchDay, 2, 4, 0))
    );
    assert_eq!(rt; page, [7, 7, 7, 7]);
}

#[test]
fn no_room(rt: HostRuntime) {
    let mut lines = [Line::Posting; 2];
    let mut deals = [0; 1];
    let ledger = Ledger::read(BOND, &mut lines, &mut deals);
    let mut page = [7u8; 4];
    let stopped = Stopped {
        why: Unread::NoRoom,
        written: 0,
    };
    assert_eq!(rt; ledger.report(0, &mut page), Err(stopped));
}
