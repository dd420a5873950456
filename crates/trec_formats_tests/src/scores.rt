//! Scores that are read, written and compared.
use decimal_rank::{Decimal, DecimalFault, Memory, ONE, Text, weight};
use std::alloc::Global;
use std::cmp::Ordering;
use std::test::Fail;

/// Each row is a score and its canonical text, or the fault.
const SCORES: &str = "\
2 2
2.00 2
20e-1 2
2.50 25e-1
1e-5 1e-5
.00001 1e-5
0 0
-0 0
-0.00e7 0
000 0
5. 5
+.5 5e-1
-17.2534 -172534e-4
0017.250 1725e-2
+1000 1e3
1E+2 1e2
-1.5E-10 -15e-11
12e1 12e1
1.2e1 12
100.001 100001e-3
1e400 1e400
1e-400 1e-400
1e0400 1e400
1e-00000400 1e-400
0.1e-400 1e-401
10e400 1e401
99999999999999999999999999999999999999 99999999999999999999999999999999999999
-0.0012345678901234567890123456789012345678 -12345678901234567890123456789012345678e-40
00123456789012345678901234567890123456.7800 12345678901234567890123456789012345678e-2
10000000000000000000000000000000000000000 1e40
123456789012345678901234567890123456789 digits
-1.00000000000000000000000000000000000001e500 digits
123456789012345678901234567890123456789e5x shape
1e401 exponent
-1e-401 exponent
1e00000401 exponent
0e999 exponent
 shape
. shape
- shape
+. shape
1e shape
1e+ shape
e5 shape
-e5 shape
nan shape
inf shape
1.2.3 shape
--1 shape
1e5e5 shape
1e5.0 shape
1e--5 shape
0x10 shape
";

/// The canonical text of a score, or the fault.
fn outcome(alloc: Global, score: &[u8]) -> Result<Text, Memory> {
    match Decimal::read(score) {
        Ok(decimal) => decimal.write(alloc),
        Err(DecimalFault::Shape) => Text::from_slice(alloc, b"shape"),
        Err(DecimalFault::Digits) => Text::from_slice(alloc, b"digits"),
        Err(DecimalFault::Exponent) => Text::from_slice(alloc, b"exponent"),
    }
}

fn is_told(alloc: Global, row: &str) -> Result<bool, Fail> {
    let (score, expected) = row.split_once(' ').ok_or("a row")?;
    Ok(outcome(alloc, score.as_bytes())?.bytes() == expected.as_bytes())
}

#[test]
fn scores_are_read_and_written(rt: HostRuntime) -> Result<(), Fail> {
    for row in SCORES.lines() {
        assert!(rt; is_told(rt.alloc(), row)?, "{row}");
    }
    Ok(())
}

/// A 7 and so many zeros behind it.
fn seven(alloc: Global, zeros: usize) -> Result<Vec<u8>, Memory> {
    let mut score = vec![in alloc; b'7']?;
    for _ in 0..zeros {
        score.push(b'0')?;
    }
    Ok(score)
}

#[test]
fn at_most_400_bytes_are_read(rt: HostRuntime) -> Result<(), Fail> {
    let most = seven(rt.alloc(), 399)?;
    assert!(rt; outcome(rt.alloc(), &most)?.bytes() == b"7e399".as_slice());
    let more = seven(rt.alloc(), 400)?;
    assert!(rt; outcome(rt.alloc(), &more)?.bytes() == b"shape".as_slice());
    Ok(())
}

/// Each row is two scores and their order.
const ORDERS: &str = "\
0 = 000
7 = 007
2 = 2.00
2.00 = 20e-1
1e-5 = .00001
-0 = 0
17.2534 = 17.25340
0 < 1
9 < 10
99 < 100
12 < 120
17.2534 < 17.2535
123456789012345678 < 123456789012345679
1.2345678901234567890123456789012345677 < 1.2345678901234567890123456789012345678
9.9e399 < 1e400
0 < 1e-400
-1 < 0
-2 < -1
-2 < 1
-1e-400 < 1e-400
";

fn order(a: &str, b: &str) -> Result<(Ordering, Ordering), Fail> {
    let a = Decimal::read(a.as_bytes()).ok().ok_or("a score")?;
    let b = Decimal::read(b.as_bytes()).ok().ok_or("a score")?;
    Ok((a.compare(&b), b.copy().compare(&a)))
}

fn is_ordered(row: &str) -> Result<bool, Fail> {
    let (a, rest) = row.split_once(' ').ok_or("a row")?;
    let (sign, b) = rest.split_once(' ').ok_or("a row")?;
    let expected = if sign == "<" {
        (Ordering::Less, Ordering::Greater)
    } else {
        (Ordering::Equal, Ordering::Equal)
    };
    Ok(order(a, b)? == expected)
}

#[test]
fn scores_compare_by_value(rt: HostRuntime) -> Result<(), Fail> {
    for row in ORDERS.lines() {
        assert!(rt; is_ordered(row)?, "{row}");
    }
    Ok(())
}

#[test]
fn a_rank_weighs_one_over_it_rounded_down(rt: HostRuntime) {
    assert!(rt;
        (weight(1), weight(3), weight(1000)) == (ONE, 333_333_333_333_333, 1_000_000_000_000)
    );
}
