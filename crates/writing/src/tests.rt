// Numbers, dates and full buffers, worked by hand.
use crate::*;

// Where a line ends, or how much of the buffer is written where it does not fit.
fn laid(line: &Draft, out: &mut [u8], at: usize) -> Result<usize, usize> {
    lay(line, out, at).map_err(|full| full.written)
}

#[test]
fn numbers(rt: HostRuntime) {
    let mut line = Draft::new();
    line.number(0);
    line.push(b' ');
    line.number(10);
    line.push(b' ');
    line.number(18_446_744_073_709_551_615);
    let mut out = [0; 25];
    assert_eq!(rt; laid(&line, &mut out, 0), Ok(25));
    assert!(rt; out == *b"0 10 18446744073709551615");
}

#[test]
fn dates(rt: HostRuntime) {
    let mut line = Draft::new();
    line.date(0);
    line.word(b" to ");
    line.date(109_572);
    line.date(109_573);
    let mut out = [0; 24];
    assert_eq!(rt; laid(&line, &mut out, 0), Ok(24));
    assert!(rt; out == *b"1900-01-01 to 2199-12-31");
}

#[test]
fn full_buffers(rt: HostRuntime) {
    let mut line = Draft::new();
    line.word(b"paid");
    let mut out = *b"........";
    assert_eq!(rt; laid(&line, &mut out, 5), Err(5), "one byte too long");
    assert!(rt; out == *b"........");
    assert_eq!(rt; laid(&line, &mut out, 4), Ok(8), "it just fits");
    assert!(rt; out == *b"....paid");
    assert_eq!(rt; laid(&line, &mut out, 8), Err(8), "nothing is left");
    assert_eq!(rt; laid(&line, &mut out, 9), Err(9), "a place past the end");
    assert_eq!(rt;
        laid(&Draft::new(), &mut out, 9),
        Ok(9),
        "no bytes need no place"
    );
    assert!(rt; out == *b"....paid");
}

#[test]
fn full_drafts(rt: HostRuntime) {
    let mut line = Draft::new();
    line.word(&[b'a'; 127]);
    line.word(b"bc");
    line.push(b'd');
    let mut out = [0; 200];
    assert_eq!(rt; laid(&line, &mut out, 0), Ok(128));
    assert!(rt; out[126] == b'a' && out[127] == b'b' && out[128] == 0);
}
